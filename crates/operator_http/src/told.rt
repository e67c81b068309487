//! What an operator is told.

use crate::health::Health;
use bytes::Bytes;

/// What a server says to what its operator asks.
#[derive(Drop)]
pub enum Told {
    /// A page that shows what it does.
    Page(Bytes),
    /// Whether it accepts clients.
    Health(Health),
    /// What it has counted.
    Metrics(Bytes),
    /// That it stops.
    Stopping,
    /// That the query of a stop doesn't say how long it may take.
    NoGrace,
    /// That so many answers went.
    Purged(usize),
    /// That the query of a purge doesn't say which answers are to go.
    NoPurge,
    /// That it has no such path.
    OtherPath,
    /// That the path is one that is read.
    NotRead,
    /// That the path is one that is posted to.
    NotPosted,
    /// That the request isn't the operator's own.
    Foreign,
}
