//! What the command line asks for, and why it is refused.

ghost use Rattle.std.specs.Prelude.{◌≡◌};
ghost use Rattle.edge_commands.specs.declared.command.Refusal.TheVariants as refused;

use clap::Error;
use edge_setup::{Checking, Named, Setup};
use edge_types::NoMemory;
use plan_runner::Event;
use std::alloc::AllocError;

/// What the words of the command line ask for.
#[derive(Drop)]
pub enum Invocation<'a> {
    /// `case`: standard input is a case, to be run.
    Case {
        /// The events that run first.
        order: Vec<Event>,
        /// How many slots posts may open ahead.
        ahead: u16,
        /// The levels of includes under the page.
        levels: u8,
        /// Whether to report why the page has a fault.
        is_why: bool,
    },
    /// `serve`: pages are to be served with these options.
    Serve(Setup),
    /// `check`: these templates are to be checked.
    Check(Checking<'a>),
}

/// Why the words are refused.
#[derive(Drop)]
pub enum Refusal {
    /// `clap` refuses them, shows help for them, or runs out of memory.
    Words(Error),
    /// The value of `--order` isn't a list of events.
    Order,
    /// The value of `--ahead` isn't a number within the limits.
    Ahead,
    /// The value of `--levels` isn't a number within the limits.
    Levels,
    /// The value of an option of `serve` is invalid.
    Serve(Named),
    /// An allocation failed.
    NoMemory,
}

impl From<Error> for Refusal {
    ghost from_gives = { λ error refusal. refusal ≡ refused.Words error };

    fn from(error: Error) -> Refusal {
        Refusal::Words(error)
    }
}

impl From<AllocError> for Refusal {
    ghost from_gives = { λ _ refusal. refusal ≡ refused.NoMemory };

    fn from(_: AllocError) -> Refusal {
        Refusal::NoMemory
    }
}

impl From<NoMemory> for Refusal {
    ghost from_gives = { λ _ refusal. refusal ≡ refused.NoMemory };

    fn from(_: NoMemory) -> Refusal {
        Refusal::NoMemory
    }
}
