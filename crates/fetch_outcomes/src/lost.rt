//! Why a fetch got no response.

use crate::fetch_fault::FetchFault;

/// Why a fetch got no response.
///
/// Our profile.
#[derive(Clone, Copy, Debug, Drop, PartialEq, Eq)]
pub enum Lost {
    /// It couldn't be fetched.
    Fault(FetchFault),
    /// There is no room for it.
    NoMemory,
}
