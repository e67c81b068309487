//! The sequential meaning of a page, and the evaluator that follows it.
#![tactic(auto)]

mod choice;
mod draft;
mod evaluator;
mod inlines;
pub mod laws;
mod leg;
mod limits;
mod page;

pub use leg::leg_url;
pub use limits::{MAX_LEGS, MAX_LEVELS, MIN_LEVELS, are_levels};
pub use page::plain_page;
