//! Laws of the meaning: each is the contract of a function that does nothing. Our profile, where
//! no source is named.
ghost use Rattle.std.specs.Prelude.{◌≡◌};
ghost use Rattle.esi_meaning.specs.Laws.{OutcomeRestsOnAsked, StateRestsOnLog, LoggedAnswersSuffice, WaitsForAsked, DoneIsOutcome};
ghost use Rattle.esi_meaning.specs.Laws.{WaitsAtLeg, LegIsWaitedFor, UnaskedChangesNothing, AsksFew, FailedAttemptLeavesNoText, AttemptWithTextStands};
ghost use Rattle.esi_meaning.specs.Laws.{FirstWhenCounts, FirstWhenIsAhead, FirstInlineCounts, InlinesByUrl, AheadHasSource, AskedHasSource};
ghost use Rattle.esi_meaning.specs.Laws.{NothingIsLegal, LegalGrows, StillFollows, WaitedForFollows, AheadFollows};
ghost use Rattle.esi_meaning.specs.Laws.{OneListOfTokens, OneTreeOfTokens};

use crate::limits::{MAX_LEGS, MAX_LEVELS, MIN_LEVELS};

/// The outcome of a page depends on the replies of the URLs that are asked for it, and on nothing
/// else.
pub fn outcome_rests_on_asked()
    ensures { OutcomeRestsOnAsked }
{}

/// What a page waits for, or its outcome, depends on the answers that are in: whatever the missing
/// answers are, it is the same.
pub fn state_rests_on_log()
    ensures { StateRestsOnLog }
{}

/// The logged answers alone determine what a page waits for, or its outcome: every table that agrees
/// with them says the same.
pub fn logged_answers_suffice()
    ensures { LoggedAnswersSuffice }
{}

/// What a page waits for isn't logged, and is asked for it over every table that agrees with the
/// logged answers.
pub fn waits_for_asked()
    ensures { WaitsForAsked }
{}

/// A page that is done has its outcome over every table that agrees with the logged answers, and
/// each URL that is asked for it is logged.
pub fn done_is_outcome()
    ensures { DoneIsOutcome }
{}

/// A page that waits for a URL waits either for its own, at no leg, or at a leg that asks for it, at
/// one of the levels under the page.
pub fn waits_at_leg()
    ensures { WaitsAtLeg }
{}

/// A page that waits at a leg waits for the URL of this leg.
pub fn leg_is_waited_for()
    ensures { LegIsWaitedFor }
{}

/// What was fetched and isn't asked for changes no outcome: a table with one more answer, of a URL
/// that isn't asked for, gives the same.
pub fn unasked_changes_nothing()
    ensures { UnaskedChangesNothing }
{}

/// A page asks at most its own URL and one for each leg that it may try.
pub fn asks_few()
    ensures { AsksFew }
{}

/// If the attempt of a try fails, only the except has text, and the legs of both are counted.
///
/// Source: ESI Language Specification 1.0, "try"; the count of legs is our profile.
pub fn failed_attempt_leaves_no_text()
    ensures { FailedAttemptLeavesNoText }
{}

/// If the attempt of a try has a text, nothing more than the attempt is tried.
///
/// Source: ESI Language Specification 1.0, "try".
pub fn attempt_with_text_stands()
    ensures { AttemptWithTextStands }
{}

/// A choose is the content of its first `when` whose test holds, else of its otherwise, wherever
/// that is, else nothing; and the sources of this content are fetched ahead.
///
/// Source: ESI Language Specification 1.0, "choose"; the order of branches and what is fetched
/// ahead are our profile.
pub fn first_when_counts()
    ensures run { FirstWhenCounts }
    ensures ahead { FirstWhenIsAhead }
{}

/// Of the inlines of a template, in the text's order, the first that names a URL counts, wherever
/// it stands: also in a branch that isn't taken, or within another inline, which comes before it.
pub fn first_inline_counts()
    ensures { FirstInlineCounts }
{}

/// The inline that counts for a URL is the first with this URL in the list of the template's inlines
/// in which each name is resolved once.
pub fn inlines_by_url()
    ensures { InlinesByUrl }
{}

/// What is fetched ahead for a template is a URL that a `src` or an `alt` of it denotes, and
/// that no inline of it names.
pub fn ahead_has_source()
    ensures { AheadHasSource }
{}

/// What is asked for a page is its own URL, or one that a `src` or an `alt` denotes in the
/// template of an answer, and that no inline of this template names.
pub fn asked_has_source()
    ensures { AskedHasSource }
{}

/// A log without answers is legal; a legal log may grow by the answer of a URL that may follow and isn't
/// logged; such a URL is the one that a page waits for, or one that is fetched ahead for a
/// logged answer, then and later.
pub fn legal_logs()
    ensures nothing { NothingIsLegal }
    ensures grows { LegalGrows }
    ensures still { StillFollows }
    ensures waited { WaitedForFollows }
    ensures ahead { AheadFollows }
{}

/// A text has at most one list of tokens, and that list at most one tree.
pub fn one_list_of_tokens_and_one_tree()
    ensures tokens { OneListOfTokens }
    ensures tree { OneTreeOfTokens }
{}

/// The limits of a page, as numbers.
pub fn limits_of_pages()
    ensures legs { MAX_LEGS ≡ 1000 }
    ensures fewest { MIN_LEVELS ≡ 1 }
    ensures most { MAX_LEVELS ≡ 8 }
{}
