//! How many connections of clients the server has, and has had.

ghost use Rattle.std.specs.Prelude.{◌≡◌, ◌-◌};
ghost use Rattle.edge_reports.specs.Endings as spec;

use edge_connections::ServeEnd;
use edge_metrics::ConnectionCounts;
use std::sync::atomic::{AtomicBool, AtomicU64, Ordering};

/// What the threads that serve have counted of connections, without a lock.
#[derive(Drop)]
pub struct Connections {
    accepted: AtomicU64,
    ended: AtomicU64,
    parked: AtomicU64,
    unparked: AtomicU64,
    failed: AtomicU64,
    // Whether nobody is accepted any longer, and whether that is because accepts have failed.
    is_closed: AtomicBool,
    has_failed: AtomicBool,
}

impl Connections {
    /// Of no connection.
    pub fn new() -> Connections {
        Connections {
            accepted: AtomicU64::new(0),
            ended: AtomicU64::new(0),
            parked: AtomicU64::new(0),
            unparked: AtomicU64::new(0),
            failed: AtomicU64::new(0),
            is_closed: AtomicBool::new(false),
            has_failed: AtomicBool::new(false),
        }
    }

    pub(crate) fn accepted(&self) {
        self.accepted.fetch_add(1, Ordering::SeqCst);
    }

    pub(crate) fn ended(&self) {
        self.ended.fetch_add(1, Ordering::SeqCst);
    }

    pub(crate) fn parked(&self) {
        self.parked.fetch_add(1, Ordering::SeqCst);
    }

    pub(crate) fn unparked(&self) {
        self.unparked.fetch_add(1, Ordering::SeqCst);
    }

    pub(crate) fn accept_failed(&self) {
        self.failed.fetch_add(1, Ordering::SeqCst);
    }

    /// Nobody is accepted any longer, and the server ends so.
    pub(crate) fn closed(&self, end: ServeEnd) {
        self.has_failed
            .store(end == ServeEnd::AcceptsFailed, Ordering::SeqCst);
        self.is_closed.store(true, Ordering::SeqCst);
    }

    /// How the server ends, if nobody is accepted any longer.
    pub(crate) fn ending(&self) -> Option<ServeEnd> {
        let is_closed = self.is_closed.load(Ordering::SeqCst);
        ending_of(is_closed, self.has_failed.load(Ordering::SeqCst))
    }

    /// What was counted until now. What ends is read before what begins, so that nothing is taken for ended that hasn't begun.
    pub(crate) fn counts(&self) -> ConnectionCounts {
        let unparked = self.unparked.load(Ordering::SeqCst);
        let parked = self.parked.load(Ordering::SeqCst);
        let ended = self.ended.load(Ordering::SeqCst);
        let accepted = self.accepted.load(Ordering::SeqCst);
        let failed = self.failed.load(Ordering::SeqCst);
        counts_of(accepted, ended, parked, unparked, failed)
    }
}

// How the server ends that accepts nobody any longer, if it does.
fn ending_of(is_closed: bool, has_failed: bool) -> Option<ServeEnd>
    ensures { result ≡ spec.ending_of is_closed has_failed }
{
    if !is_closed {
        None
    } else if has_failed {
        Some(ServeEnd::AcceptsFailed)
    } else {
        Some(ServeEnd::Served)
    }
}

// What was counted, by how many connections began and ended in all, how many of them were parked and taken up again, and how many
// accepts failed.
fn counts_of(accepted: u64, ended: u64, parked: u64, unparked: u64, failed: u64) -> ConnectionCounts
    ensures open { result.open ≡ accepted - ended }
    ensures parked { result.parked ≡ parked - unparked }
    ensures serving { result.serving ≡ accepted - ended - (parked - unparked) }
    ensures in_all { result.accepted ≡ accepted }
    ensures failed { result.failed_accepts ≡ failed }
{
    let open = accepted.saturating_sub(ended);
    let parked = parked.saturating_sub(unparked);
    ConnectionCounts {
        open,
        parked,
        serving: open.saturating_sub(parked),
        accepted,
        failed_accepts: failed,
    }
}
