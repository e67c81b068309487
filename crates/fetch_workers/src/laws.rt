//! What follows from the contract of `assemble`, and the limits as numbers. Each law is the contract of a
//! function that does nothing.

ghost use Rattle.std.specs.Prelude.{◌≡◌};
ghost use Rattle.fetch_workers.specs.Laws.{TablesGiveThePage};

use crate::assembler::{MAX_FETCHES, MAX_WORKERS};

/// Over a `TableSource` a page has the outcome that `plain_page` returns over its table, for every
/// number of workers and every number of slots ahead. Takes no memory.
///
/// Our profile.
pub fn tables_give_the_page()
    ensures { TablesGiveThePage }
{}

/// At most 16 threads work for a page. Takes no memory.
///
/// Our profile.
pub fn limit_of_workers()
    ensures { MAX_WORKERS ≡ 16 }
{}

/// A page has at most 256 fetches in flight. Takes no memory.
///
/// Our profile.
pub fn limit_of_fetches()
    ensures { MAX_FETCHES ≡ 256 }
{}
