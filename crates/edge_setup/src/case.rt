//! The subcommand `case`.
ghost use Rattle.std.specs.Prelude.{◌≡◌, codes, false, IfOk};
ghost use Rattle.clap.specs.Words.{app_of, rule_of};
ghost use Rattle.clap.specs.declared.builder.command.Command.TheViews.{out-Command as fields_of};
ghost use Rattle.edge_setup.specs.Case.{case_command, with_run};
ghost use Rattle.edge_setup.specs.Rules.{named_option, with_default};

use crate::number::Number;
use crate::options::{flag, option, with_option};
use clap::{Arg, Command};
use std::alloc::{AllocError, Global};

/// The subcommand `case`.
pub fn case_command<'a>(alloc: Global) -> Result<Command<'a>, AllocError>
    ensures app { IfOk result (λ command. app_of command ≡ case_command) }
    ensures local { IfOk result (λ command. (fields_of command).has_globals ≡ false) }
{
    let command = Command::new(alloc, "case").about(
        "Reads a case text from standard input and prints its page, or the page's fault",
    );
    with_run(alloc, command)
}

// How the case is run.
fn with_run<'a>(alloc: Global, command: Command<'a>) -> Result<Command<'a>, AllocError>
    ensures app { IfOk result (λ more. app_of more ≡ with_run (app_of command.entry)) }
    ensures local { IfOk result (λ more. (fields_of more).has_globals ≡ (fields_of command.entry).has_globals) }
{
    let order = option(
        alloc,
        "order",
        "LIST",
        "Events that run first: c, a, or p and a place, with commas between",
    );
    let command = with_option(command, order)?;
    let ahead = ahead_option(alloc);
    let command = with_option(command, ahead)?;
    let levels = Number::Levels.arg(alloc);
    let command = with_option(command, levels)?;
    let why = flag(
        alloc,
        "why",
        "Reports on standard error what is wrong with templates, where the page has a fault",
    );
    with_option(command, why)
}

// How many slots posts may open ahead; that of `serve` has another default.
fn ahead_option<'a>(alloc: Global) -> Arg<'a>
    ensures rule { rule_of result ≡ with_default (codes "16") (named_option (codes "ahead")) }
    ensures local { result.global ≡ false }
{
    option(
        alloc,
        "ahead",
        "N",
        "Fragments that may be fetched before it is known that they are needed, from 0 to 256",
    )
    .default_value("16")
}
