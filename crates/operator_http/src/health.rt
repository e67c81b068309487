//! How a server is.

/// Whether a server accepts clients, and why not.
///
/// Our profile.
#[derive(Clone, Copy, Debug, PartialEq, Eq)]
pub enum Health {
    /// It accepts clients.
    Well,
    /// It doesn't: it was stopped, or has had as many as it was to have, and ends once those that are left have.
    Ending,
    /// It doesn't, since accepts have failed, and ends in the same way.
    AcceptsFailed,
}
