//! The limit of a cache as a number. A law is the contract of a function that does nothing.

ghost use Rattle.std.specs.Prelude.{◌≡◌};

use crate::cache::SHARDS;

/// A cache has eight shards. Takes no memory.
///
/// Our profile.
pub fn number_of_shards()
    ensures { SHARDS ≡ 8 }
{}
