//! Where origins listen, whose names are looked up again once they can't be reached.
#![tactic(auto)]

mod shared_standings;
mod standings;

pub use shared_standings::SharedStandings;
pub use standings::Standings;
