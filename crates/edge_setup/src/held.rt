//! The options of `serve` in a configuration file.

ghost use Rattle.std.specs.Prelude.{◌≡◌, ◌∷◌, ◌++◌, [], map, option_map, string_bytes, IfOk, OnOk};
ghost use Rattle.std.specs.List.{flat_map};
ghost use Rattle.std.specs.Option.{option_map_or};
ghost use Rattle.config_file.specs.Writing.{list_text};
ghost use Rattle.clap.specs.Words.{found_of, rows_of};
ghost use Rattle.clap.specs.declared.builder.command.Command.TheViews.{out-Command as fields_of};
ghost use Rattle.edge_setup.specs.Held as spec;

use crate::word::Word;
use crate::words::{word_of, words_of};
use clap::{Arg, ArgAction, ArgMatches, Command};
use config_file::{OptionNames, is_of_line, is_origin, push_list, push_option, push_origin};
use std::alloc::{AllocError, Global};

/// The options that the command of `serve` has, by their names.
pub fn option_names<'a>(alloc: Global, command: &Command<'a>) -> Result<OptionNames<'a>, AllocError>
    ensures flags { IfOk result (λ names. names.flags.items ≡ flat_map spec.flag_of (fields_of command.now).args.items) }
    ensures valued { IfOk result (λ names. names.valued.items ≡ flat_map spec.valued_of (fields_of command.now).args.items) }
    ensures repeated { IfOk result (λ names. names.repeated.items ≡ flat_map spec.repeated_of (fields_of command.now).args.items) }
{
    let mut names = OptionNames {
        flags: Vec::new(alloc),
        valued: Vec::new(alloc),
        repeated: Vec::new(alloc),
    };
    for option in command.get_arguments() {
        add_name(&mut names, option)?;
    }
    Ok(names)
}

// Adds an option's name.
fn add_name<'a>(names: &mut OptionNames<'a>, option: &Arg<'a>) -> Result<(), AllocError>
    ensures flags { OnOk result (names.new.flags.items ≡ names.old.flags.items ++ spec.flag_of option.now) }
    ensures valued { OnOk result (names.new.valued.items ≡ names.old.valued.items ++ spec.valued_of option.now) }
    ensures repeated { OnOk result (names.new.repeated.items ≡ names.old.repeated.items ++ spec.repeated_of option.now) }
{
    if is_flag(option) {
        push(&mut names.flags, option.get_id())
    } else if is_repeated(option) {
        push(&mut names.repeated, option.get_id())
    } else {
        push(&mut names.valued, option.get_id())
    }
}

fn push<'a>(names: &mut Vec<&'a str>, name: &'a str) -> Result<(), AllocError>
    ensures { OnOk result (names.new.items ≡ names.old.items ++ name.entry ∷ []) }
{
    match names.push(name) {
        Ok(()) => Ok(()),
        Err(_) => Err(AllocError),
    }
}

// Whether an option has no value.
fn is_flag(option: &Arg<'_>) -> bool
    ensures { result ≡ spec.is_flag option.now }
{
    matches!(option.get_action(), ArgAction::SetTrue)
}

// Whether an option may be given more than once.
fn is_repeated(option: &Arg<'_>) -> bool
    ensures { result ≡ spec.is_repeated option.now }
{
    matches!(option.get_action(), ArgAction::Append)
}

/// A configuration file of the options that hold, by the matches of `serve`: in the order of the command, and the
/// origins behind them.
///
/// Our profile.
pub fn held_text(
    alloc: Global,
    command: &Command<'_>,
    matches: &ArgMatches<'_>,
) -> Result<String, AllocError>
    ensures { IfOk result (λ text. string_bytes text ≡ spec.held_text (fields_of command.now).args.items (rows_of (found_of matches.now))) }
{
    let mut text = String::new(alloc);
    push_options(&mut text, command.get_arguments(), matches)?;
    push_table(&mut text, Word::Origin.all_said(matches))?;
    Ok(text)
}

// Adds the lines of options.
fn push_options(
    text: &mut String,
    options: &[Arg<'_>],
    matches: &ArgMatches<'_>,
) -> Result<(), AllocError>
    ensures { OnOk result (string_bytes text.new ≡ string_bytes text.old ++ flat_map (spec.line_of (rows_of (found_of matches.now))) options.now) }
{
    for option in options {
        push_held(text, option, matches)?;
    }
    Ok(())
}

// Adds the line of an option, where it holds and has a place in a file.
fn push_held(
    text: &mut String,
    option: &Arg<'_>,
    matches: &ArgMatches<'_>,
) -> Result<(), AllocError>
    ensures { OnOk result (string_bytes text.new ≡ string_bytes text.old ++ spec.line_of (rows_of (found_of matches.now)) option.now) }
{
    let name = option.get_id();
    if is_of_line(name) || is_origin(name) {
        return Ok(());
    }
    if is_repeated(option) {
        return push_words(text, name, words_of(matches, name));
    }
    match word_of(matches, name) {
        Some(word) => push_option(text, name, is_flag(option), word),
        None => Ok(()),
    }
}

// Adds the line of an option that may be given more than once, where it is there.
fn push_words(text: &mut String, name: &str, words: Option<&[&str]>) -> Result<(), AllocError>
    ensures { OnOk result (string_bytes text.new ≡ string_bytes text.old ++ option_map_or (list_text name.now) (option_map (λ found. map (λ word. word.now) found.now) words.entry) []) }
{
    match words {
        Some(words) => push_list(text, name, words),
        None => Ok(()),
    }
}

// Adds the table of origins, where there are some.
fn push_table(text: &mut String, words: Option<&[&str]>) -> Result<(), AllocError>
    ensures { OnOk result (string_bytes text.new ≡ string_bytes text.old ++ spec.origins_text (option_map (λ found. map (λ word. word.now) found.now) words.entry)) }
{
    match words {
        Some(words) => {
            text.push_str("\n[origins]\n")?;
            push_origins(text, words)
        }
        None => Ok(()),
    }
}

// Adds the rows of origins.
fn push_origins(text: &mut String, words: &[&str]) -> Result<(), AllocError>
    ensures { OnOk result (string_bytes text.new ≡ string_bytes text.old ++ spec.rows_text (map (λ word. word.now) words.now)) }
{
    for word in words {
        push_origin(text, word)?;
    }
    Ok(())
}
