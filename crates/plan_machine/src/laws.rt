//! Laws of the machine: each is the contract of a function that does nothing.
ghost use Rattle.plan_machine.specs.Headline.{WhatIsToldIsTrue, SomethingIsTold};
ghost use Rattle.plan_machine.specs.Laws.{StepsStay, FlowAfter, ComesToTheSame, WaitsAsStated, TooManyAsStated, EndsAsStated, FailsAtTheLastLeg, StepsFall, OneNumberOfSteps};

/// What a page reports, after whatever number of steps over the logged answers, is true over every
/// table that agrees with them: the URL that it waits for is missing, and asked; the outcome is the
/// page's. And after some number of steps it reports something. Takes no memory.
///
/// Our profile.
pub fn page_promises()
    ensures is_true { WhatIsToldIsTrue }
    ensures is_told { SomethingIsTold }
{}

/// More answers don't disturb the steps that were made. Takes no memory.
///
/// Our profile.
pub fn steps_stay()
    ensures { StepsStay }
{}

/// After any number of steps the page's run is the legs that were tried, and then what is still
/// to come. Takes no memory.
///
/// Our profile.
pub fn comes_to_the_same()
    ensures { ComesToTheSame }
{}

/// If a machine stops that was started for a page, it reports the page's state over the log: what
/// it waits for and at which level, that it has tried its legs, or its outcome. Takes no memory.
///
/// Our profile.
pub fn stops_as_stated()
    ensures waits { WaitsAsStated }
    ensures too_many { TooManyAsStated }
    ensures ends { EndsAsStated }
{}

/// A page that fails does so at the last leg that it tries, which is the one that its last step tried.
/// Takes no memory.
///
/// Our profile.
pub fn fails_at_the_last_leg()
    ensures { FailsAtTheLastLeg }
{}

/// Each step tries one leg more, of which there are few, or leaves less to do. Takes no memory.
///
/// Our profile.
pub fn steps_fall()
    ensures { StepsFall }
{}

/// Started over the same answers, a machine can come to rest after only one number of steps.
/// Takes no memory.
///
/// Our profile.
pub fn one_number_of_steps()
    ensures { OneNumberOfSteps }
{}

/// Output from before a frame stays before the frame's own. Takes no memory.
///
/// Our profile.
pub fn output_stays_in_front()
    ensures { FlowAfter }
{}
