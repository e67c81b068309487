//! The words of the program and its configuration file: what they ask for, and what is done of that without a server. That
//! is to check files, to say why the page of a case has a fault, and to print the options that hold.
#![tactic(auto)]

mod checking;
mod command;
mod command_line;
mod config;
pub mod laws;
mod status;
mod why;

pub use checking::check;
pub use command::{Invocation, Refusal};
pub use command_line::invocation_of;
pub use config::{Words, print_config, prints_config};
pub use status::Status;
pub use why::explain;
