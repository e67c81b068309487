//! The command line, judged whole before anything is read.
ghost use Rattle.std.specs.Prelude.{◌≡◌, ◌≤◌, map, string_bytes, option_map, Some, ◌≢◌, IfNone, IfOk, IfSome, MatchResult};
ghost use Rattle.esi_meaning.specs.Meaning.{AreLevels};
ghost use Rattle.clap.specs.Words.{app_of, found_of, rows_of, subcommand_rows_of};
ghost use Rattle.edge_commands.specs.CommandLine.{program, word_of, order_of, ahead_of, levels_of, name_of, Asks, IsRefused, IsOfCase, IsInvokedBy, IsInvokedToCheck, IsInvokedToServe, IsRefusedBy, IsRefusedToCheck, IsRefusedToServe, IsWithin};

use crate::command::{Invocation, Refusal};
use clap::{ArgMatches, Command};
use edge_case::read_events;
use edge_setup::{
    SetupFault, case_command, check_command, checking_of, is_set, serve_command, setup_of,
};
use edge_types::{NoMemory, decimal_of};
use esi_meaning::{MAX_LEVELS, are_levels};
use plan_runner::{Event, MAX_AHEAD};
use std::alloc::{AllocError, Global};

// What `--version` prints after the program's name.
const VERSION: &str = "0.1.0";

// The program's command line, by `clap`.
fn command<'a>(alloc: Global) -> Result<Command<'a>, AllocError>
    ensures { IfOk result (λ command. app_of command ≡ program) }
{
    let case = case_command(alloc)?;
    let serve = serve_command(alloc)?;
    let check = check_command(alloc)?;
    Command::new(alloc, "esi_edge")
        .bin_name("esi_edge")?
        .about("Assembles pages from templates of the ESI Language Specification 1.0")
        .version(VERSION)
        .subcommand_required(true)
        .subcommand(case)?
        .subcommand(serve)?
        .subcommand(check)
}

// The value of an option of `case`.
fn word_of<'a>(matches: &ArgMatches<'a>, name: &str) -> Option<&'a str>
    ensures { option_map (λ word. word.now) result ≡ word_of name.now (subcommand_rows_of matches.now) }
{
    matches.subcommand_matches("case")?.get_str(name)
}

// The events that `--order` lists.
fn order_of(alloc: Global, word: Option<&str>) -> Result<Option<Vec<Event>>, NoMemory>
    ensures { IfOk result (λ order. option_map (λ events. events.items) order ≡ order_of (option_map (λ w. w.now) word.entry)) }
{
    match word {
        Some(word) => read_events(alloc, word.as_bytes()),
        None => Ok(Some(Vec::new(alloc))),
    }
}

// The value of `--ahead`, if within its limits.
fn ahead_of(word: Option<&str>) -> Option<u16>
    ensures value { result ≡ ahead_of (option_map (λ w. w.now) word.entry) }
    ensures within { IfSome result (λ ahead. ahead ≤ MAX_AHEAD) }
{
    let ahead = decimal_of(word?.as_bytes(), u64::from(MAX_AHEAD))?;
    Some(ahead as u16)
}

// The value of `--levels`, if within its limits.
fn levels_of(word: Option<&str>) -> Option<u8>
    ensures value { result ≡ levels_of (option_map (λ w. w.now) word.entry) }
    ensures within { IfSome result AreLevels }
{
    let levels = decimal_of(word?.as_bytes(), u64::from(MAX_LEVELS))? as u8;
    if are_levels(levels) {
        Some(levels)
    } else {
        None
    }
}

// What the matches ask for.
fn invocation_by<'a>(alloc: Global, matches: &ArgMatches<'a>) -> Result<Invocation<'a>, Refusal>
    ensures judged { MatchResult result (IsInvokedBy (subcommand_rows_of matches.now)) (IsRefusedBy (subcommand_rows_of matches.now)) }
    ensures within { IfOk result IsWithin }
{
    if let Some(own) = matches_of(matches, "serve") {
        return serve_invocation(alloc, own);
    }
    if let Some(own) = matches_of(matches, "check") {
        return check_invocation(alloc, own);
    }
    case_invocation(alloc, matches)
}

// The matches of the subcommand, if it has this name.
fn matches_of<'b, 'a>(matches: &'b ArgMatches<'a>, name: &str) -> Option<&'b ArgMatches<'a>>
    ensures met { IfSome result (λ own. subcommand_rows_of matches.now ≡ Some (name.now, rows_of (found_of own.now))) }
    ensures other { IfNone result (name_of (subcommand_rows_of matches.now) ≢ Some name.now) }
{
    let own = matches.subcommand_matches(name)?;
    Some(own)
}

// What the matches of `serve` ask for.
fn serve_invocation<'a>(alloc: Global, own: &ArgMatches<'a>) -> Result<Invocation<'a>, Refusal>
    ensures judged { MatchResult result (IsInvokedToServe (rows_of (found_of own.now))) (IsRefusedToServe (rows_of (found_of own.now))) }
    ensures within { IfOk result IsWithin }
{
    match setup_of(alloc, own) {
        Ok(setup) => Ok(Invocation::Serve(setup)),
        Err(SetupFault::Wrong(option)) => Err(Refusal::Serve(option)),
        Err(SetupFault::NoMemory) => Err(Refusal::NoMemory),
    }
}

// What the matches of `check` ask for.
fn check_invocation<'a>(alloc: Global, own: &ArgMatches<'a>) -> Result<Invocation<'a>, Refusal>
    ensures judged { MatchResult result (IsInvokedToCheck (rows_of (found_of own.now))) IsRefusedToCheck }
    ensures within { IfOk result IsWithin }
{
    Ok(Invocation::Check(checking_of(alloc, own)?))
}

// What the matches of `case` ask for.
fn case_invocation<'a>(alloc: Global, matches: &ArgMatches<'a>) -> Result<Invocation<'a>, Refusal>
    requires { IsOfCase (name_of (subcommand_rows_of matches.now)) }
    ensures judged { MatchResult result (IsInvokedBy (subcommand_rows_of matches.now)) (IsRefusedBy (subcommand_rows_of matches.now)) }
    ensures within { IfOk result IsWithin }
{
    let Some(order) = order_of(alloc, word_of(matches, "order"))? else {
        return Err(Refusal::Order);
    };
    let ahead = ahead_of(word_of(matches, "ahead")).ok_or(Refusal::Ahead)?;
    let levels = levels_of(word_of(matches, "levels")).ok_or(Refusal::Levels)?;
    Ok(Invocation::Case {
        order,
        ahead,
        levels,
        is_why: is_set(word_of(matches, "why")),
    })
}

/// What the words of the command line ask for.
pub fn invocation_of<'a>(alloc: Global, words: &'a [String]) -> Result<Invocation<'a>, Refusal>
    ensures judged { MatchResult result (Asks (map string_bytes words.now)) (IsRefused (map string_bytes words.now)) }
    ensures within { IfOk result IsWithin }
{
    let matches = command(alloc)?.try_get_matches_from(words)?;
    invocation_by(alloc, &matches)
}
