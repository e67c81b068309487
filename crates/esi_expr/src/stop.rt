//! Where the reading of a test stops.

use edge_types::NoMemory;
use std::alloc::AllocFailed;

/// What a test needs in order to go on.
#[derive(Clone, Copy, Debug, Drop, PartialEq, Eq)]
pub enum Wanted {
    Operand,
    /// Or the test's end.
    Operator,
    /// A `)`, or an operator before it.
    Closing,
}

/// What is wanted, and the rest of the text from there on.
#[derive(Clone, Copy, Drop)]
pub struct Stop<'a> {
    pub wanted: Wanted,
    pub rest: &'a [u8],
}

/// Why a text couldn't be read as a test.
#[derive(Clone, Copy, Drop)]
pub enum Halt<'a> {
    /// It is none.
    Stopped(Stop<'a>),
    /// An allocation fails.
    NoMemory,
}

impl From<NoMemory> for Halt<'_> {
    ghost use Rattle.std.specs.Prelude.{◌≡◌};
    ghost use Rattle.esi_expr.specs.declared.stop.Halt.TheVariants as halt;

    ghost from_gives = { λ _ e. e ≡ halt.NoMemory };

    fn from(_: NoMemory) -> Self {
        Halt::NoMemory
    }
}

impl<T: Drop> From<AllocFailed<T>> for Halt<'_> {
    ghost use Rattle.std.specs.Prelude.{◌≡◌};
    ghost use Rattle.esi_expr.specs.declared.stop.Halt.TheVariants as halt;

    ghost from_gives = { λ _ e. e ≡ halt.NoMemory };

    fn from(_: AllocFailed<T>) -> Self {
        Halt::NoMemory
    }
}
