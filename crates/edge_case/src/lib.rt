//! Case texts: a page's URL, a reader's request and the answers of origins in one text, which is
//! read, evaluated and printed; and the lists of events of the command line.
#![tactic(auto)]

mod answers;
mod bytes;
pub mod case_text;
pub mod ending;
mod entry;
mod heading;
mod input;
pub mod laws;
mod line;
mod number;
mod order;
mod printer;
pub mod runner;
mod templates;
mod writing;

pub use case_text::Case;
pub use ending::{CaseEnd, CaseFault};
pub use order::read_events;
pub use plan_runner::Running;
pub use runner::{Ran, run_case, run_case_and_keep};
pub use templates::templates_in;
