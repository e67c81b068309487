//! The configuration file of `serve`, a TOML text: the words of the command line that it denotes, each with its line, or
//! what is wrong with it; these words before those of a command line; and such a text of options that hold.
#![tactic(auto)]

mod fault;
mod line;
mod merging;
mod naming;
mod reading;
mod writing;

pub use fault::{ConfigFault, Reason};
pub use merging::{config_named, is_given, merged};
pub use naming::{OptionNames, is_of_line, is_origin};
pub use reading::{Setting, settings_of};
pub use writing::{push_list, push_option, push_origin};
