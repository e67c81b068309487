//! What is wrong with a template, for the person who wrote it: where, and why.
//!
//! `report` prints what `check` finds, a fault, and what `warnings` collects, likely mistakes that aren't faults. A
//! fault has the place that `template` of `esi_tree` reports and a reason; `position_of` makes a line and a column of a
//! place. `specs/Reasons.antt` says which reason a text has at a place, `specs/OpenElements.antt` which elements are
//! open there, `specs/Stops.antt` and `specs/Troubles.antt` how far a test is read and what is wrong there,
//! `specs/Warned.antt` which warnings a text gets, `specs/Chosen.antt` which sources a reader may choose,
//! and `specs/Positions.antt` what a line and a column are.
#![tactic(auto)]

mod checker;
mod chosen;
mod elements;
pub mod laws;
mod message;
mod position;
mod reason;
mod reasons;
mod reporting;
mod trouble;
mod warned;
mod warning;

pub use checker::{Fault, check};
pub use elements::Opened;
pub use message::Message;
pub use position::{Position, position_of};
pub use reason::Reason;
pub use reporting::{ReportFault, Told, report};
pub use trouble::{TestProblem, TestTrouble, trouble_of};
pub use warned::{Warned, warnings};
pub use warning::Warning;
