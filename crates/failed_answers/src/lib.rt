//! URLs that failed, and aren't asked again for some seconds: whoever asks for one meanwhile gets the failing answer
//! again.
#![tactic(auto)]

mod entries;
mod failed_answers;
pub mod laws;
mod shared_failures;
mod sparing_source;

pub use entries::MAX_URLS;
pub use failed_answers::FailedAnswers;
pub use shared_failures::SharedFailures;
pub use sparing_source::{SparedFetches, SparingSource};
