//! Laws of plans: each is the contract of a function that does nothing.
ghost use Rattle.plan_compiler.specs.Laws.{PlanMeansTheTree, PlanFetchesAhead, TemplatesAreSingle, JumpsStay, FramesAreShort, FirstEntryCounts};

/// The steps of a tree try the legs of its meaning, in order, and output its text, or fail if it
/// has none, whatever a leg results in. Takes no memory.
///
/// Our profile.
pub fn plan_means_the_tree()
    ensures { PlanMeansTheTree }
{}

/// The walk over the steps of a tree, in which each test is decided and both ways of each try are
/// entered, finds the sources that are fetched ahead, in their order. Takes no memory.
///
/// Our profile.
pub fn plan_fetches_ahead()
    ensures { PlanFetchesAhead }
{}

/// In the tree of a text no choose has two otherwises, so the inlines of its plan are those of the
/// tree. Takes no memory.
pub fn templates_are_single()
    ensures { TemplatesAreSingle }
{}

/// No step of a tree jumps past the end of its plan. Takes no memory.
///
/// Our profile.
pub fn jumps_stay()
    ensures { JumpsStay }
{}

/// One frame takes at most as many steps as its plan is long, whatever a leg results in. Takes no
/// memory.
///
/// Our profile.
pub fn frames_are_short()
    ensures { FramesAreShort }
{}

/// The first entry of a plan, in text order, whose name denotes a URL has the steps of the inline
/// that counts for this URL in the template. Takes no memory.
///
/// Our profile.
pub fn first_entry_counts()
    ensures { FirstEntryCounts }
{}
