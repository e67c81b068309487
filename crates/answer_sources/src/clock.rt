//! Where the time comes from.

/// A clock of whole seconds.
pub trait Clock<R> {
    /// The current second.
    fn now(&self, rt: &R) -> u64;
}
