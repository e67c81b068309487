//! Variables: references in a text, what they denote in a reader's request, and the text with their values.
#![tactic(auto)]

mod agent;
mod bytes;
mod cookie;
mod field;
mod language;
pub mod laws;
mod looked_up;
pub mod lookups;
pub mod part;
pub mod pieces;
mod query;
pub mod reference;
pub mod values;
mod written;

pub use bytes::after_byte;
pub use edge_types::around as cut_at;
pub use lookups::Lookups;
pub use part::{Part, parts, substitute, substitute_within};
pub use pieces::push_values;
pub use reference::{Reference, Variable, reference_at};
pub use values::{shared_value, value, value_by};
