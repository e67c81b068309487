//! The origins of a server: which is asked for a URL, whether it may be asked now, and how the fetches from it have ended.
#![tactic(auto)]

mod bounded;
mod fetch_counts;
mod gate;
mod latest_faults;
mod notes;
mod origin;

pub use bounded::{OriginGate, end_of, gate_of, gates_of};
pub use gate::{Bounds, Chance};
pub use latest_faults::MAX_FAULTS;
pub use notes::FetchNotes;
pub use origin::{Chosen, Origin, origin_for};
