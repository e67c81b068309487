//! Whether an origin can be reached.

ghost use Rattle.std.specs.Prelude.{◌≡◌, ◌<◌, ◌⊎◌, ◌↔◌, Ok, Err, IsTrue, MatchResult};
ghost use Rattle.std.specs.IoError.{error_kind};
ghost use Rattle.fetch_outcomes.specs.declared.fetch_fault.FetchFault.{FetchFault};
ghost use Rattle.fetch_outcomes.specs.declared.fetch_fault.FetchFault.TheVariants as faults;
ghost use Rattle.origin_exchange.specs.Causes as spec;
ghost use Rattle.fetch_outcomes.specs.declared.lost.Lost.TheVariants as lost;

use fetch_outcomes::{FetchFault, Lost};
use std::alloc::Global;
use std::io;
use std::io::ErrorKind;
use std::sync::Arc;
use std::sync::atomic::{AtomicBool, Ordering};

// What a failed call says of the fetch.
fn fault_of(kind: ErrorKind) -> FetchFault
    ensures { result ≡ spec.fault_of kind }
{
    match kind {
        ErrorKind::ConnectionRefused
        | ErrorKind::ConnectionReset
        | ErrorKind::HostUnreachable
        | ErrorKind::NetworkUnreachable => FetchFault::Connect,
        ErrorKind::TimedOut => FetchFault::Timeout,
        _ => FetchFault::Cut,
    }
}

/// What a connection that isn't made loses.
pub fn lost_by(error: &io::Error) -> Lost
    ensures { result ≡ lost.Fault (spec.fault_of (error_kind error.now)) }
{
    Lost::Fault(fault_of(error.kind()))
}

// Whether a read or a write shows that the connection was made. One that is still being made is refused instead of
// reset.
fn shows_connection(came: &io::Result<usize>) -> bool
    ensures { MatchResult came.now (λ count. IsTrue result ↔ (0 < count)) (λ e. IsTrue result ↔ (error_kind e ≡ ErrorKind.ConnectionReset)) }
{
    match came {
        Ok(count) => *count > 0,
        Err(error) => matches!(error.kind(), ErrorKind::ConnectionReset),
    }
}

/// What a stream tells of the origin, in the middle of a round trip whose errors keep no kind.
#[derive(Drop)]
pub struct Reach {
    told: Arc<Told>,
}

#[derive(Drop)]
struct Told {
    is_connected: AtomicBool,
    is_lost: AtomicBool,
    is_late: AtomicBool,
}

impl Reach {
    /// Nothing is told yet.
    pub fn new(alloc: Global) -> Result<Reach, Lost> {
        let told = Told {
            is_connected: AtomicBool::new(false),
            is_lost: AtomicBool::new(false),
            is_late: AtomicBool::new(false),
        };
        match Arc::new(alloc, told) {
            Ok(told) => Ok(Reach { told }),
            Err(_) => Err(Lost::NoMemory),
        }
    }

    /// One more that tells and asks the same.
    pub fn share(&self) -> Result<Reach, Lost> {
        match self.told.clone() {
            Ok(told) => Ok(Reach { told }),
            Err(_) => Err(Lost::NoMemory),
        }
    }

    /// Tells of a read or a write, and gives it back.
    pub(crate) fn told(&self, came: io::Result<usize>) -> io::Result<usize>
        ensures { result ≡ came }
    {
        if shows_connection(&came) {
            self.connects();
        }
        if let Err(error) = &came {
            self.tell(fault_of(error.kind()));
        }
        came
    }

    fn tell(&self, fault: FetchFault) {
        match fault {
            FetchFault::Connect => self.told.is_lost.store(true, Ordering::SeqCst),
            FetchFault::Timeout => self.told.is_late.store(true, Ordering::SeqCst),
            _ => {}
        }
    }

    fn connects(&self) {
        self.told.is_connected.store(true, Ordering::SeqCst);
    }

    /// Whether it was told that the connection was made.
    pub fn is_connected(&self) -> bool {
        self.told.is_connected.load(Ordering::SeqCst)
    }

    /// What a fetch results in whose stream told this.
    pub fn judged<T>(&self, came: Result<T, Lost>) -> Result<T, Lost>
        ensures ok { (page : T) → came ≡ Ok page → result ≡ came }
        ensures no_memory { came ≡ Err lost.NoMemory → result ≡ came }
        ensures fault { (fault : FetchFault) → came ≡ Err (lost.Fault fault)
            → (result ≡ came) ⊎ (result ≡ Err (lost.Fault faults.Connect)) ⊎ (result ≡ Err (lost.Fault faults.Timeout)) }
    {
        match came {
            Err(Lost::Fault(fault)) => Err(Lost::Fault(self.cause_of(fault))),
            came => came,
        }
    }

    // Why a fetch failed, where that is known better than by this.
    fn cause_of(&self, fault: FetchFault) -> FetchFault
        ensures { (result ≡ fault) ⊎ (result ≡ faults.Connect) ⊎ (result ≡ faults.Timeout) }
    {
        if self.told.is_lost.load(Ordering::SeqCst) {
            FetchFault::Connect
        } else if self.told.is_late.load(Ordering::SeqCst) {
            FetchFault::Timeout
        } else {
            fault
        }
    }
}
