//! What holds of every queue, and of every list of calls. Each law is the contract of a function that does nothing.
//! Our profile.

ghost use Rattle.origin_queue.specs.Law.{QueueLaw, NeverMoreWait, NeverMoreOut, NoCallIsLost, NobodyOvertakes};

/// Over every list of calls of a new `OriginQueue`, in terms of the calls and their answers alone: who asks goes at once
/// exactly if nobody waits and a permit is free; otherwise he waits behind all others, or as many wait as may. Who is
/// called waited first, and he alone gets the permit that was handed back; if he leaves, the next one is called.
pub fn every_run_keeps_the_law()
    ensures { QueueLaw }
{}

/// Never do more wait than may, whatever the order of the calls.
pub fn never_more_wait()
    ensures { NeverMoreWait }
{}

/// Never are more permits out than there are, whatever the order of the calls.
pub fn never_more_out()
    ensures { NeverMoreOut }
{}

/// While somebody waits, each permit is with a fetch that goes, or kept for one that is called: so no permit is free in
/// vain, and no call is lost.
pub fn no_call_is_lost()
    ensures { NoCallIsLost }
{}

/// Whoever was called had joined before everybody who waits.
pub fn nobody_overtakes()
    ensures { NobodyOvertakes }
{}
