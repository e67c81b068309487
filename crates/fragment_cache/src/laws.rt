//! What holds of every shard, and of every list of calls. Each law is the contract of a function that
//! does nothing. Our profile.

ghost use Rattle.std.specs.Prelude.{◌≡◌};
ghost use Rattle.fragment_cache.specs.Law.{CacheLaw};

use crate::flight_state::MAX_PICKS;
use crate::flights::MAX_FLIGHTS;
use crate::shard::MAX_CAPACITY;

/// Over every list of calls of a new shard, in terms of the calls and their answers alone:
/// a hit is the answer of the latest landing for its URL that wasn't bridged, before the expiry of
/// that answer; a bridged flight landed with such an answer, before its expiry plus its extension,
/// and any other `land` returns what was handed in; a URL has at most one flight under way, which
/// every join for it names; flights are led in turn, each with a failed answer of its URL; a
/// pick-up gives the answer with which the flight of that number landed, at most once for each
/// join, `Flying` only while it is under way, and `Unknown` only while it isn't.
pub fn every_run_keeps_the_law()
    ensures { CacheLaw }
{}

/// The limits of a shard, as numbers.
pub fn limits_of_shards()
    ensures capacity { MAX_CAPACITY ≡ 1024 }
    ensures flights { MAX_FLIGHTS ≡ 1024 }
    ensures pick_ups { MAX_PICKS ≡ 65535 }
{}
