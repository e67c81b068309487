//! What is to be fetched.

use edge_sockets::Deadline;
use edge_types::PageUrl;
use fetch_outcomes::{FetchFault, Lost};
use origins::Chosen;
use std::time::{Clock, Duration};

/// A fetch that is to be made.
#[derive(Drop)]
pub struct Errand {
    /// What is fetched.
    pub url: PageUrl,
    /// The origin that is asked.
    pub origin: Chosen,
    /// Until when the fetch may take, its wait at a gate included.
    pub deadline: Deadline,
    /// Until when it may wait at a gate.
    pub patience: Deadline,
}

impl Errand {
    /// A fetch that is asked for now, and may take this long. Refused where the clock can't be read.
    pub fn begun(
        clock: &impl Clock,
        url: PageUrl,
        origin: Chosen,
        limit: Option<Duration>,
    ) -> Result<Errand, Lost> {
        let (Ok(deadline), Ok(patience)) = (
            Deadline::after(clock, limit),
            Deadline::of_wait(clock, limit),
        ) else {
            return Err(Lost::Fault(FetchFault::Cut));
        };
        Ok(Errand {
            url,
            origin,
            deadline,
            patience,
        })
    }
}
