//! The subcommand `check`, and what its words ask for.
ghost use Rattle.std.specs.Prelude.{◌≡◌, map, codes, false, IfOk};
ghost use Rattle.clap.specs.Words.{all_of, app_of, found_of, rows_of, rule_of};
ghost use Rattle.clap.specs.declared.builder.command.Command.TheViews.{out-Command as fields_of};
ghost use Rattle.edge_setup.specs.Check.{check_command, files_of, named_files, SaysChecking};

use crate::options::{flag, with_option};
use crate::words::{is_set, word_of};
use clap::{Arg, ArgAction, ArgMatches, Command};
use std::alloc::{AllocError, Global};

/// What the words of `check` ask for.
#[derive(Drop)]
pub struct Checking<'a> {
    /// The names of the files, in order; `-` is standard input.
    pub files: Vec<&'a str>,
    /// Whether a warning counts as a fault.
    pub is_strict: bool,
}

/// The subcommand `check`.
pub fn check_command<'a>(alloc: Global) -> Result<Command<'a>, AllocError>
    ensures app { IfOk result (λ command. app_of command ≡ check_command) }
    ensures local { IfOk result (λ command. (fields_of command).has_globals ≡ false) }
{
    let command = Command::new(alloc, "check").about(
        "Reports what is wrong with templates, by file, line and column",
    );
    let strict = flag(
        alloc,
        "strict",
        "Ends with status 1 also where there is a warning",
    );
    let command = with_option(command, strict)?;
    with_option(command, file_names(alloc))
}

// The files.
fn file_names<'a>(alloc: Global) -> Arg<'a>
    ensures rule { rule_of result ≡ named_files (codes "file") }
    ensures local { result.global ≡ false }
{
    Arg::new(alloc, "file")
        .value_name("FILE")
        .action(ArgAction::Append)
        .required(true)
        .help("Templates; - is standard input")
}

// The files that the words name.
fn files_in<'a>(alloc: Global, matches: &ArgMatches<'a>) -> Result<Vec<&'a str>, AllocError>
    ensures { IfOk result (λ files. map (λ file. file.now) files.items ≡ files_of (all_of (codes "file") (rows_of (found_of matches.now)))) }
{
    match matches.get_raw("file") {
        Some(words) => words.iter().copied().collect(alloc),
        None => Ok(Vec::new(alloc)),
    }
}

/// What the words of `check` ask for.
pub fn checking_of<'a>(alloc: Global, matches: &ArgMatches<'a>) -> Result<Checking<'a>, AllocError>
    ensures { IfOk result (SaysChecking (rows_of (found_of matches.now))) }
{
    Ok(Checking {
        files: files_in(alloc, matches)?,
        is_strict: is_set(word_of(matches, "strict")),
    })
}
