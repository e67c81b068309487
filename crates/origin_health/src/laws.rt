//! What holds of every origin, and of every list of calls. Each law is the contract of a function that does nothing.
//! Our profile.

ghost use Rattle.origin_health.specs.Law.{HealthLaw, NeverMore, RestsWhole, TrialsGoOn, ReachEndsRest, UnboundedGrants};

/// Over every list of calls of a new `OriginHealth`, in terms of the calls and their answers alone: a fetch is granted
/// exactly if the origin doesn't rest and fewer are in flight than may be. It rests from the fifth failure in
/// succession, and from the failure of a trial, for as long as its bounds say, and for 200 milliseconds from each trial;
/// not once a fetch has reached it.
pub fn every_run_keeps_the_law()
    ensures { HealthLaw }
{}

/// Never are more fetches in flight than may be, whatever the order of the calls.
pub fn never_more_in_flight()
    ensures { NeverMore }
{}

/// After five failures in succession, and after that of a trial, with no fetch in between that reached the origin, the
/// next one that is granted comes when the rest is over.
pub fn a_rest_is_whole()
    ensures { RestsWhole }
{}

/// No trial keeps an origin at rest for longer than 200 milliseconds, however long it takes.
pub fn trials_go_on()
    ensures { TrialsGoOn }
{}

/// With fewer than five failures since a fetch last reached the origin none fails because of a rest.
pub fn reaching_ends_the_rest()
    ensures { ReachEndsRest }
{}

/// Without bounds every fetch is granted.
pub fn without_bounds_all_is_granted()
    ensures { UnboundedGrants }
{}
