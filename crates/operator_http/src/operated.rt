//! What a server does for its operator.

use crate::health::Health;
use crate::purge::Purge;
use edge_types::NoMemory;
use std::alloc::AllocError;

/// A server that has an operator.
pub trait Operated<R> {
    /// Whether it accepts clients.
    fn health(&self, rt: &R) -> Health;

    /// A page in HTML that shows what it does.
    fn page(&self, rt: &R) -> Result<Vec<u8>, AllocError>;

    /// What it has counted, in the text format of Prometheus.
    fn metrics(&self, rt: &R) -> Result<Vec<u8>, AllocError>;

    /// Lets go of the answers that are wanted to go, and says how many went. Where there is no memory some of them may
    /// have gone.
    fn purge(&self, rt: &R, purge: &Purge) -> Result<usize, NoMemory>;
}
