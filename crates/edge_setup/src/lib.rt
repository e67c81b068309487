//! The subcommands `case`, `serve` and `check`: which command lines they have, the addresses, origins and
//! numbers that the options of `serve` name, the same options in a configuration file, and the files that are to be
//! checked.
#![tactic(auto)]

mod carried_names;
mod case;
mod check;
mod command;
mod flag;
mod flags;
mod held;
mod lists;
mod number;
mod numbers;
mod options;
mod origin;
mod origins;
mod passed_names;
mod private;
mod sent_fields;
mod setup;
mod told_fields;
mod word;
mod words;

pub use case::case_command;
pub use check::{Checking, check_command, checking_of};
pub use command::serve_command;
pub use flag::Flag;
pub use flags::Flags;
pub use held::{held_text, option_names};
pub use number::Number;
pub use numbers::Numbers;
pub use origin::{OriginFault, Place, is_origin_word};
pub use setup::{Addresses, Named, Origin, PrivateUrls, Setup, SetupFault};
pub use words::{is_set, setup_of};
