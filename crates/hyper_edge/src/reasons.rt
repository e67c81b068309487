//! Why a page isn't as it should be.

ghost use Rattle.std.specs.Prelude.{◌≡◌};
ghost use Rattle.hyper_edge.specs.Reasons.{reason_of, status_of};

use access_log::Reason;
use edge_types::{Outcome, PageFault};

/// The status of a page, or its fault.
pub(crate) fn status_of(outcome: &Outcome) -> Result<u16, PageFault>
    ensures { result ≡ status_of outcome.now }
{
    match outcome {
        Outcome::Page { head, .. } => Ok(head.status),
        Outcome::Fault(fault) => Err(*fault),
    }
}

/// Why this status was sent for a page, where the page isn't as it should be: a status from 400 on is its origin's own,
/// and one that HTTP can't carry isn't sent.
pub(crate) fn reason_of(status: Result<u16, PageFault>, sent: u16) -> Option<Reason>
    ensures { result ≡ reason_of status sent }
{
    match status {
        Err(fault) => Some(Reason::Page(fault)),
        Ok(status) if status != sent => Some(Reason::Unsendable),
        Ok(status) if status >= 400 => Some(Reason::OriginStatus),
        Ok(_) => None,
    }
}
