//! The machine of a page, as definitions and laws: what a page does step by step over the answers
//! that are in, and that it reports the meaning of the page. `specs/Headline.antt` is what a page
//! promises, `specs/Machine.antt` what a step does.
#![tactic(auto)]

pub mod handler;
pub mod laws;

pub use handler::Handler;
