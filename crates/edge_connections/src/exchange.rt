//! One request over a client's connection and its response: how far they are, and how long they may take.

use std::io;
use std::io::ErrorKind;
use std::time::{Clock, Duration, Instant};

/// How long a client may take. None of these may be zero. The time that the edge itself takes for a page
/// counts in none.
///
/// Our profile.
#[derive(Clone, Copy)]
pub struct Limits {
    /// To send its request, from the accept on, or from the first bytes of a further request on. `None` means
    /// no limit; so does a limit that would overflow the clock.
    pub request: Option<Duration>,
    /// To receive the whole response, from its first write on. `None` as above.
    pub response: Option<Duration>,
    /// To begin a further request over the same connection. `None` means that no connection is kept for one.
    pub idle: Option<Duration>,
}

/// How far an exchange is. While the response is under way, nothing is read: no answer waits for what a client
/// sends meanwhile. Over a connection that isn't kept, the client's input counts as ended from then on.
#[derive(Clone, Copy, Drop, PartialEq, Eq)]
pub(crate) enum Stage {
    /// Nothing was read of the first request of a connection,
    Accepted,
    /// or of a further one,
    Kept,
    /// for which the client has let the connection wait.
    Idle,
    /// Some of the request was read.
    Asking,
    /// Some of the response was written.
    Answering,
    /// All of it was.
    Answered,
    /// So it was, and what the client still sends is read away.
    Lingering,
}

/// How far a request and its response are, and by when the client has to go on.
#[derive(Drop)]
pub(crate) struct Exchange {
    pub stage: Stage,
    /// By when what is to be read has to come, and what is written has to be received.
    pub until: Option<Instant>,
    /// The bytes of the response that were written.
    pub sent: u64,
}

impl Exchange {
    /// One that begins at this stage.
    pub(crate) fn begun(stage: Stage, until: Option<Instant>) -> Exchange {
        Exchange {
            stage,
            until,
            sent: 0,
        }
    }

    /// Begins a stage, which has to be over by then.
    pub(crate) fn goes_on(&mut self, stage: Stage, until: Option<Instant>) {
        self.stage = stage;
        self.until = until;
    }

    /// Refused once the time of its stage is over.
    pub(crate) fn in_time(&self, clock: &impl Clock) -> io::Result<()> {
        let Some(until) = self.until else {
            return Ok(());
        };
        if Instant::now(clock)? > until {
            return Err(ErrorKind::TimedOut.into());
        }
        Ok(())
    }
}

/// When a limit that begins now ends; never, if the clock doesn't reach that far. Refused where it can't be read.
pub fn deadline(clock: &impl Clock, limit: Option<Duration>) -> io::Result<Option<Instant>> {
    match limit {
        Some(limit) => Ok(Instant::now(clock)?.checked_add(limit)),
        None => Ok(None),
    }
}
