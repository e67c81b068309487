//! The limit of a page in figures: the contract of a function that does nothing.
ghost use Rattle.std.specs.Prelude.{◌≡◌};

use crate::page::MAX_AHEAD;

/// The posts of a page open at most 256 slots ahead. Takes no memory.
///
/// Our profile.
pub fn limit_of_slots_ahead()
    ensures { MAX_AHEAD ≡ 256 }
{}
