//! What calls of a socket that doesn't block wait for.

ghost use Rattle.std.specs.Prelude.{◌≡◌, ◌↔◌, IsTrue, IsErrAnd};
ghost use Rattle.std.specs.IoError.{error_kind};

use std::io;
use std::io::ErrorKind;

/// What a socket has to be ready for.
#[derive(Clone, Copy, Debug, PartialEq, Eq)]
pub enum Readiness {
    /// A byte has come, or the end of the other side's output.
    Readable,
    /// There is room for a byte to be sent, or the connection is made.
    Writable,
}

/// Whether a call has to wait until the socket is ready.
pub fn would_block<T>(done: &io::Result<T>) -> bool
    ensures { IsTrue result ↔ IsErrAnd done.now (λ e. error_kind e ≡ ErrorKind.WouldBlock) }
{
    match done {
        Ok(_) => false,
        Err(e) => matches!(e.kind(), ErrorKind::WouldBlock),
    }
}

/// Whether a call has to be made again, since a signal came in the midst of it; where the process was stopped and goes
/// on, that is so even without a handler.
pub fn was_interrupted<T>(done: &io::Result<T>) -> bool
    ensures { IsTrue result ↔ IsErrAnd done.now (λ e. error_kind e ≡ ErrorKind.Interrupted) }
{
    match done {
        Ok(_) => false,
        Err(e) => matches!(e.kind(), ErrorKind::Interrupted),
    }
}
