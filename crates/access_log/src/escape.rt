//! Texts of clients between the quotes of a line.

ghost use Rattle.std.specs.Prelude.{◌≡◌, ◌++◌, ◌<◌, OnOk};
ghost use Rattle.std.specs.List.{list_all};
ghost use Rattle.access_log.specs.Escapes as spec;
ghost use Rattle.access_log.specs.Text.{IsPrintable};

use crate::text::OpenLine;
use std::alloc::AllocError;

/// What stands before the digits of a byte that can't stand in a line of an access log, as nginx writes it.
pub(crate) const IN_LOG: &[u8] = b"\\x";

/// What does so in a string of JSON.
pub(crate) const IN_JSON: &[u8] = b"\\u00";

/// Appends a text, with each byte that can't stand between quotes in two digits of base 16 behind the prefix. Most texts
/// have none, and are appended whole.
#[tactic(auto, using(crate::proofs::Plain::stands_as_it_is, crate::proofs::Plain::is_printed))]
pub(crate) fn push_escaped(
    line: &mut OpenLine,
    prefix: &[u8],
    text: &[u8],
) -> Result<(), AllocError>
    requires { IsPrintable prefix.now }
    ensures { OnOk result (line.new ≡ line.old ++ spec.escaped prefix.now text.now) }
{
    if is_plain_text(text) {
        return line.push(text);
    }
    push_each(line, prefix, text)
}

fn is_plain_text(text: &[u8]) -> bool
    ensures { result ≡ list_all spec.is_plain text.now }
{
    text.iter().all(|byte| is_plain(*byte))
}

fn push_each(line: &mut OpenLine, prefix: &[u8], text: &[u8]) -> Result<(), AllocError>
    requires { IsPrintable prefix.now }
    ensures { OnOk result (line.new ≡ line.old ++ spec.escaped prefix.now text.now) }
{
    for byte in text {
        push_byte(line, prefix, *byte)?;
    }
    Ok(())
}

fn push_byte(line: &mut OpenLine, prefix: &[u8], byte: u8) -> Result<(), AllocError>
    requires { IsPrintable prefix.now }
    ensures { OnOk result (line.new ≡ line.old ++ spec.escaped_byte prefix.now byte) }
{
    if is_plain(byte) {
        return line.push(&[byte]);
    }
    line.push(prefix)?;
    line.push(&[hex_digit(byte / 16), hex_digit(byte % 16)])
}

fn is_plain(byte: u8) -> bool
    ensures { result ≡ spec.is_plain byte }
{
    (b' '..=b'~').contains(&byte) && byte != b'"' && byte != b'\\'
}

fn hex_digit(digit: u8) -> u8
    requires { digit < 16 }
    ensures { result ≡ spec.hex_digit digit }
{
    if digit < 10 {
        b'0' + digit
    } else {
        b'A' + (digit - 10)
    }
}
