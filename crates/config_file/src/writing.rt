//! A configuration file of options that hold.

ghost use Rattle.std.specs.Prelude.{◌≡◌, ◌==◌, ◌++◌, map, Some, string_bytes, OnOk};
ghost use Rattle.std.specs.List.{after_first, before_first, list_all};
ghost use Rattle.std.specs.Str.{byte};
ghost use Rattle.toml_writer.specs.Text.{string_text};
ghost use Rattle.config_file.specs.Writing as spec;

use std::alloc::AllocError;
use std::fmt;
use toml_writer::write_string;

/// Adds the line of an option to a file: its name without the dashes, and the word of its value, which of a flag is
/// `true` or `false`.
pub fn push_option(
    text: &mut String,
    name: &str,
    is_flag: bool,
    word: &str,
) -> Result<(), AllocError>
    ensures { OnOk result (string_bytes text.new ≡ string_bytes text.old ++ spec.line_text name.now is_flag word.now) }
{
    text.push_str(name)?;
    text.push_str(" = ")?;
    if is_flag || is_number(word.as_bytes()) {
        text.push_str(word)?;
    } else {
        push_quoted(text, word)?;
    }
    text.push_str("\n")
}

/// Adds the line of an option that may be given more than once: its name without the dashes, and the list of its words.
pub fn push_list(text: &mut String, name: &str, words: &[&str]) -> Result<(), AllocError>
    ensures { OnOk result (string_bytes text.new ≡ string_bytes text.old ++ spec.list_text name.now (map (λ word. word.now) words.now)) }
{
    text.push_str(name)?;
    text.push_str(" = [")?;
    push_elements(text, words)?;
    text.push_str("]\n")
}

// Adds strings with commas between.
fn push_elements(text: &mut String, words: &[&str]) -> Result<(), AllocError>
    ensures { OnOk result (string_bytes text.new ≡ string_bytes text.old ++ spec.elements_text (map (λ word. word.now) words.now)) }
{
    let [first, behind @ ..] = words else {
        return Ok(());
    };
    push_quoted(text, first)?;
    push_behind(text, behind)
}

// Adds strings behind another.
fn push_behind(text: &mut String, words: &[&str]) -> Result<(), AllocError>
    ensures { OnOk result (string_bytes text.new ≡ string_bytes text.old ++ spec.behind_text (map (λ word. word.now) words.now)) }
{
    for word in words {
        text.push_str(", ")?;
        push_quoted(text, word)?;
    }
    Ok(())
}

/// Adds the row of an origin, by its word `AUTHORITY=PLACE`, to the table of a file.
pub fn push_origin(text: &mut String, word: &str) -> Result<(), AllocError>
    ensures { OnOk result (string_bytes text.new ≡ string_bytes text.old ++ spec.row_text word.now) }
{
    let (authority, place) = halves(word);
    push_quoted(text, authority)?;
    text.push_str(" = ")?;
    push_quoted(text, place)?;
    text.push_str("\n")
}

// What stands before the first `=` of a word, and what behind it.
fn halves(word: &str) -> (&str, &str)
    ensures first { result.0.now ≡ before_first (λ b. b == byte "=") word.now }
    ensures last { result.1.now ≡ after_first (λ b. b == byte "=") word.now }
{
    match word.split_once('=') {
        Some(halves) => halves,
        None => (word, ""),
    }
}

// A word as a string of TOML.
#[derive(Clone, Copy)]
struct Quoted<'a> {
    word: &'a str,
}

impl fmt::Display for Quoted<'_> {
    ghost output = { λ quoted. Some (string_text quoted.word.now) };

    fn fmt<W: fmt::Write>(&self, f: &mut fmt::Formatter<W>) -> fmt::Result {
        write_string(f, self.word)
    }
}

// Adds a string of TOML.
fn push_quoted(text: &mut String, word: &str) -> Result<(), AllocError>
    ensures { OnOk result (string_bytes text.new ≡ string_bytes text.old ++ string_text word.now) }
{
    let quoted = Quoted { word };
    write!(text, "{quoted}")
}

// Whether a word is an integer as TOML writes it, of at most 18 digits.
fn is_number(word: &[u8]) -> bool
    ensures { result ≡ spec.is_number word.now }
{
    word == b"0".as_slice() || (begins_number(word) && word.len() <= 18 && is_all_digits(word))
}

// Whether the first byte is a digit other than 0.
fn begins_number(word: &[u8]) -> bool
    ensures { result ≡ spec.begins_number word.now }
{
    match word.first() {
        Some(first) => (b'1'..=b'9').contains(first),
        None => false,
    }
}

fn is_all_digits(word: &[u8]) -> bool
    ensures { result ≡ list_all spec.is_digit word.now }
{
    word.iter().all(|byte| byte.is_ascii_digit())
}
