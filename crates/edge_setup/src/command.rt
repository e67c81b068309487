//! The subcommand `serve`.
ghost use Rattle.std.specs.Prelude.{◌≡◌, false, IfOk};
ghost use Rattle.clap.specs.Words.{app_of};
ghost use Rattle.clap.specs.declared.builder.command.Command.TheViews.{out-Command as fields_of};
ghost use Rattle.edge_setup.specs.Command.{serve_command, with_flags, with_numbers, with_words};

use crate::flag::Flag;
use crate::number::Number;
use crate::options::with_option;
use crate::word::Word;
use clap::Command;
use std::alloc::{AllocError, Global};

/// The subcommand `serve`.
pub fn serve_command<'a>(alloc: Global) -> Result<Command<'a>, AllocError>
    ensures app { IfOk result (λ command. app_of command ≡ serve_command) }
    ensures local { IfOk result (λ command. (fields_of command).has_globals ≡ false) }
{
    let command = Command::new(alloc, "serve").about(
        "Serves pages over HTTP/1.1, assembled of what origins answer",
    );
    let command = with_words(alloc, command)?;
    let command = with_numbers(alloc, command)?;
    with_flags(alloc, command)
}

// The options that take a word.
fn with_words<'a>(alloc: Global, command: Command<'a>) -> Result<Command<'a>, AllocError>
    ensures app { IfOk result (λ more. app_of more ≡ with_words (app_of command.entry)) }
    ensures local { IfOk result (λ more. (fields_of more).has_globals ≡ (fields_of command.entry).has_globals) }
{
    let mut command = command;
    for word in Word::ALL {
        command = with_option(command, word.arg(alloc))?;
    }
    Ok(command)
}

// The options that take a number.
fn with_numbers<'a>(alloc: Global, command: Command<'a>) -> Result<Command<'a>, AllocError>
    ensures app { IfOk result (λ more. app_of more ≡ with_numbers (app_of command.entry)) }
    ensures local { IfOk result (λ more. (fields_of more).has_globals ≡ (fields_of command.entry).has_globals) }
{
    let mut command = command;
    for number in Number::ALL {
        command = with_option(command, number.arg(alloc))?;
    }
    Ok(command)
}

// The options without a value.
fn with_flags<'a>(alloc: Global, command: Command<'a>) -> Result<Command<'a>, AllocError>
    ensures app { IfOk result (λ more. app_of more ≡ with_flags (app_of command.entry)) }
    ensures local { IfOk result (λ more. (fields_of more).has_globals ≡ (fields_of command.entry).has_globals) }
{
    let mut command = command;
    for flag in Flag::ALL {
        command = with_option(command, flag.arg(alloc))?;
    }
    Ok(command)
}
