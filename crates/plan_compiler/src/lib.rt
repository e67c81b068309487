//! Plans: templates as flat lists of steps.
#![tactic(auto)]

pub mod compiler;
pub mod inline;
mod inline_urls;
mod later_inlines;
mod later_steps;
pub mod laws;
pub mod leg;
pub mod plan;
pub mod prepared;
pub mod step;

pub use compiler::compile;
pub use inline::Inline;
pub use leg::Leg;
pub use plan::Plan;
pub use prepared::{Form, Prepared};
pub use step::Step;
