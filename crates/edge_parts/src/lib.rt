//! What a server is made of, as its options ask: what fetches and keeps answers, what it reports to, where it listens, and
//! what stops it.
#![tactic(auto)]

mod acceptor;
mod lookups;
mod open_files;
mod operator;
mod options;
mod parts;
mod server_options;

pub use acceptor::{listening, room_of};
pub use lookups::Lookups;
pub use open_files::Numbers;
pub use operator::{Operator, Stop};
pub use options::options_of;
pub use parts::Parts;
pub use server_options::{Fetches, ServerOptions};
