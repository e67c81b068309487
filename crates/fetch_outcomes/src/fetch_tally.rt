//! How many fetches ended how.

/// How many fetches from one origin have ended since the start, by their end.
///
/// Our profile.
#[derive(Clone, Copy, Debug, Drop, PartialEq, Eq)]
pub struct FetchTally {
    /// An answer came.
    pub answered: u64,
    /// As `FetchFault::TooMany`.
    pub too_many: u64,
    /// As `FetchFault::AtRest`.
    pub at_rest: u64,
    /// As `FetchFault::Connect`.
    pub connect: u64,
    /// As `FetchFault::Timeout`.
    pub timeout: u64,
    /// As `FetchFault::Cut`.
    pub cut: u64,
    /// As `FetchFault::TooLong`.
    pub too_long: u64,
    /// As `FetchFault::Coded`.
    pub coded: u64,
    /// As `FetchFault::Status`.
    pub status: u64,
    /// As `FetchFault::Fields`.
    pub fields: u64,
}
