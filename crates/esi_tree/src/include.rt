//! What an include's tag says.

ghost use Rattle.std.specs.Prelude.{◌≡◌};

use crate::parts::Parts;

/// What an include's tag says, its references not yet replaced.
#[derive(Drop)]
pub struct Include {
    /// Where the resource is.
    pub src: Parts,
    /// Where another one is, for when the first can't be had.
    pub alt: Option<Parts>,
    /// What happens where neither can be had.
    pub on_error: OnError,
}

/// What an include does where nothing that it names can be had.
///
/// Source: ESI Language Specification 1.0, "include".
#[derive(Clone, Copy, Debug, Drop, PartialEq, Eq)]
pub enum OnError {
    /// It fails.
    Fails,
    /// It is left out, and the page goes on.
    Continues,
}

impl OnError {
    ghost use Rattle.esi_tree.specs.Attributes.{on_error_for};

    /// What this value of `onerror` asks for; `None` if it has no meaning. Takes no memory.
    pub fn of(value: &[u8]) -> Option<OnError>
        ensures { result ≡ on_error_for value.now }
    {
        if value == b"continue".as_slice() {
            Some(OnError::Continues)
        } else {
            None
        }
    }
}
