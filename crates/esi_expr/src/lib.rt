//! Tests: how the texts of `test` attributes are read, and whether they hold for a reader's request.
#![tactic(auto)]

mod comparison;
pub mod expr;
pub mod laws;
mod number;
mod part;
pub mod reading;
pub mod stop;
pub mod truth;

pub use expr::{Comparison, Conjunction, Expr, Negation, Operand};
pub use number::DIGIT_LIMIT;
pub use reading::{NESTING_LIMIT, parse, read};
pub use stop::{Halt, Stop, Wanted};
