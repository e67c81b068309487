//! What has come of a response.

use fetch_outcomes::Lost;
use http::response::Parts;

/// The head and the body of a response, or why there is none.
pub type Response = Result<(Parts, Vec<u8>), Lost>;
