//! The words of a configuration file before those of a command line.

ghost use Rattle.std.specs.Prelude.{◌≡◌, ◌++◌, ◌∷◌, [], map, take, drop, string_bytes, option_map, OnOk, IfOk};
ghost use Rattle.std.specs.List.{flat_map};
ghost use Rattle.config_file.specs.Merging as spec;

use crate::reading::Setting;
use std::alloc::{AllocError, Global};

/// The file that the words of `serve` name by `--config`.
pub fn config_named<'a>(words: &'a [String]) -> Option<&'a str>
    ensures { option_map (λ name. name.now) result ≡ spec.config_named (map string_bytes words.entry.now) }
{
    let (first, line) = halves(words);
    match first {
        [_, command] if command.as_str() == "serve" => file_in(line),
        _ => None,
    }
}

// The program's name and its subcommand, and the words behind them.
fn halves<'a>(words: &'a [String]) -> (&'a [String], &'a [String])
    ensures first { result.0.now ≡ take 2 words.entry.now }
    ensures line { result.1.now ≡ drop 2 words.entry.now }
{
    words.split_at(words.len().min(2))
}

// The file that the words behind the subcommand name.
fn file_in<'a>(line: &'a [String]) -> Option<&'a str>
    ensures { option_map (λ name. name.now) result ≡ spec.file_in (map string_bytes line.entry.now) }
{
    let mut rest = line;
    while let Some((word, after)) = rest.split_first() {
        if word.as_str() == "--config" {
            return first_of(after);
        }
        if let Some(name) = word.as_str().strip_prefix("--config=") {
            return Some(name);
        }
        rest = after;
    }
    None
}

// The first of some words.
fn first_of<'a>(words: &'a [String]) -> Option<&'a str>
    ensures { option_map (λ word. word.now) result ≡ spec.first_of (map string_bytes words.entry.now) }
{
    match words.first() {
        Some(word) => Some(word.as_str()),
        None => None,
    }
}

/// The words of a command line, with those of a file before the options: those of each setting that the line doesn't
/// give itself. So what the line says counts.
pub fn merged(
    alloc: Global,
    words: &[String],
    settings: &[Setting],
) -> Result<Vec<String>, AllocError>
    ensures { IfOk result (λ all. map string_bytes all.items ≡ spec.merged (map string_bytes words.now) settings.now) }
{
    let (first, line) = halves(words);
    let mut all = Vec::new(alloc);
    push_words(&mut all, first)?;
    push_settings(&mut all, line, settings)?;
    push_words(&mut all, line)?;
    Ok(all)
}

// Adds copies of words.
fn push_words(all: &mut Vec<String>, words: &[String]) -> Result<(), AllocError>
    ensures { OnOk result (map string_bytes all.new.items ≡ map string_bytes all.old.items ++ map string_bytes words.now) }
{
    for word in words {
        push_word(all, word)?;
    }
    Ok(())
}

// Adds a copy of a word.
fn push_word(all: &mut Vec<String>, word: &String) -> Result<(), AllocError>
    ensures { OnOk result (map string_bytes all.new.items ≡ map string_bytes all.old.items ++ string_bytes word.now ∷ []) }
{
    let copy = word.clone()?;
    match all.push(copy) {
        Ok(()) => Ok(()),
        Err(_) => Err(AllocError),
    }
}

// Adds the words of the settings that the line doesn't give.
fn push_settings(
    all: &mut Vec<String>,
    line: &[String],
    settings: &[Setting],
) -> Result<(), AllocError>
    ensures { OnOk result (map string_bytes all.new.items ≡ map string_bytes all.old.items ++ flat_map (spec.left_of (map string_bytes line.now)) settings.now) }
{
    for setting in settings {
        push_setting(all, line, setting)?;
    }
    Ok(())
}

// Adds the words of a setting, unless the line gives it.
fn push_setting(all: &mut Vec<String>, line: &[String], setting: &Setting) -> Result<(), AllocError>
    ensures { OnOk result (map string_bytes all.new.items ≡ map string_bytes all.old.items ++ spec.left_of (map string_bytes line.now) setting.now) }
{
    if is_given(line, setting) {
        return Ok(());
    }
    push_words(all, setting.words.as_slice())
}

/// Whether the words of a line, behind the subcommand, give what a setting sets: its option; of an origin, one for the
/// same authority.
pub fn is_given(line: &[String], setting: &Setting) -> bool
    ensures { result ≡ spec.is_given (map string_bytes line.now) (string_bytes setting.now.subject) }
{
    let subject = setting.subject.as_bytes();
    let mut rest = line;
    while let Some((word, after)) = rest.split_first() {
        if gives(subject, word.as_bytes()) || gives_apart(subject, word.as_bytes(), after) {
            return true;
        }
        rest = after;
    }
    false
}

// Whether a word gives a subject: it is that, or that and a value.
fn gives(subject: &[u8], word: &[u8]) -> bool
    ensures { result ≡ spec.gives subject.now word.now }
{
    match word.strip_prefix(subject) {
        Some(rest) => rest.is_empty() || rest.starts_with(b"="),
        None => false,
    }
}

// Whether a word and the one after it give an origin of this subject.
fn gives_apart(subject: &[u8], word: &[u8], after: &[String]) -> bool
    ensures { result ≡ spec.gives_apart subject.now word.now (map string_bytes after.now) }
{
    match (subject.strip_prefix(b"--origin=".as_slice()), after.first()) {
        (Some(authority), Some(next)) => word == b"--origin".as_slice()
            && gives(authority, next.as_bytes()),
        _ => false,
    }
}
