//! The parts of a test's text, each with the white space before it.

ghost use Rattle.std.specs.Prelude.{◌≡◌, ◌≤◌, length, IfOk};
ghost use Rattle.std.specs.Char.{is_ascii_digit};
ghost use Rattle.std.specs.List.{prefix_len};
ghost use Rattle.std.specs.Option.{option_copied};
ghost use Rattle.esi_vars.specs.Reading.{cut_at, reference_at};
ghost use Rattle.esi_vars.specs.Shown.{shown_run};
ghost use Rattle.esi_expr.specs.Reading.{after_ws, after_sign, paired, alone, symbol_at, comparison_at, digits_at, referred, quoted, numbered, operand_by, operand_at};
ghost use Rattle.esi_expr.specs.Shown.{shown};

use crate::expr::{Comparison, Operand};
use crate::number::is_digit_count;
use edge_types::{NoMemory, Octets, is_ws};
use esi_vars::{after_byte, cut_at, reference_at};
use std::alloc::Global;

/// The quotation mark around texts.
const QUOTE: u8 = b'\'';

/// What follows the white space at the front.
pub(crate) fn after_ws(text: &[u8]) -> &[u8]
    ensures { result.now ≡ after_ws text.now }
{
    let mut rest = text;
    while let Some((first, after)) = rest.split_first() {
        if !is_ws(*first) {
            return rest;
        }
        rest = after;
    }
    rest
}

/// What follows this sign.
#[tactic(auto, unfolding(crate::specs::Reading::after_sign))]
pub(crate) fn after_sign(sign: u8, text: &[u8]) -> Option<&[u8]>
    ensures { option_copied result ≡ after_sign sign text.now }
{
    after_byte(sign, after_ws(text))
}

// The comparison spelled by this byte and `=`.
fn paired(first: u8, rest: &[u8]) -> Option<(Comparison, &[u8])>
    ensures { shown result ≡ paired first rest.now }
{
    match first {
        b'=' => Some((Comparison::EqualTo, rest)),
        b'!' => Some((Comparison::Unequal, rest)),
        b'<' => Some((Comparison::AtMost, rest)),
        b'>' => Some((Comparison::AtLeast, rest)),
        _ => None,
    }
}

// The comparison spelled by this byte alone.
fn alone(first: u8, rest: &[u8]) -> Option<(Comparison, &[u8])>
    ensures { shown result ≡ alone first rest.now }
{
    match first {
        b'<' => Some((Comparison::Below, rest)),
        b'>' => Some((Comparison::Above, rest)),
        _ => None,
    }
}

/// The longest comparison, and what follows it.
#[tactic(auto, unfolding(crate::specs::Reading::comparison_at))]
pub(crate) fn comparison_at(text: &[u8]) -> Option<(Comparison, &[u8])>
    ensures { shown result ≡ comparison_at text.now }
{
    match after_ws(text) {
        [first, b'=', rest @ ..] => paired(*first, rest),
        [first, rest @ ..] => alone(*first, rest),
        [] => None,
    }
}

// How many digits are at the front.
fn digits_len(text: &[u8]) -> usize
    ensures value { result ≡ prefix_len is_ascii_digit text.now }
    ensures within { result ≤ length text.now }
{
    for (i, byte) in text.iter().enumerate() {
        if !byte.is_ascii_digit() {
            return i;
        }
    }
    text.len()
}

// The longest run of digits, if a number may have that many, and what follows it.
#[tactic(auto, unfolding(crate::specs::Reading::digits_at))]
fn digits_at(text: &[u8]) -> Option<(&[u8], &[u8])>
    ensures { shown_run result ≡ digits_at text.now }
{
    let len = digits_len(text);
    if is_digit_count(len) {
        Some(text.split_at(len))
    } else {
        None
    }
}

// A reference as an operand, and what follows it.
fn referred(alloc: Global, text: &[u8]) -> Result<Option<(Operand, &[u8])>, NoMemory>
    ensures { IfOk result (λ found. shown found ≡ referred (reference_at text.now)) }
{
    match reference_at(alloc, text)? {
        Some((reference, rest)) => Ok(Some((Operand::Reference(reference), rest))),
        None => Ok(None),
    }
}

// Bytes between quotes as an operand, from after the first quote on, and what follows the second.
fn quoted(alloc: Global, text: &[u8]) -> Result<Option<(Operand, &[u8])>, NoMemory>
    ensures { IfOk result (λ found. shown found ≡ quoted (cut_at 39 text.now)) }
{
    match cut_at(QUOTE, text) {
        Some((bytes, rest)) => {
            let bytes = Octets::copy_of(alloc, bytes)?;
            Ok(Some((Operand::Quoted(bytes), rest)))
        }
        None => Ok(None),
    }
}

// A number as an operand, from after its sign on, and what follows it.
fn numbered<'a>(
    alloc: Global,
    sign: &[u8],
    text: &'a [u8],
) -> Result<Option<(Operand, &'a [u8])>, NoMemory>
    ensures { IfOk result (λ found. shown found ≡ numbered sign.now (digits_at text.now)) }
{
    match digits_at(text) {
        Some((digits, rest)) => {
            let mut spelling = sign.to_vec(alloc)?;
            spelling.extend_from_slice(digits)?;
            Ok(Some((Operand::Number(Octets::of(spelling)), rest)))
        }
        None => Ok(None),
    }
}

// The operand at the front of a text, by the first byte, and what follows it.
fn operand_by<'a>(
    alloc: Global,
    first: u8,
    behind: &'a [u8],
    text: &'a [u8],
) -> Result<Option<(Operand, &'a [u8])>, NoMemory>
    ensures { IfOk result (λ found. shown found ≡ operand_by first behind.now text.now) }
{
    match first {
        b'$' => referred(alloc, text),
        QUOTE => quoted(alloc, behind),
        b'-' => numbered(alloc, b"-", behind),
        _ => numbered(alloc, b"", text),
    }
}

/// An operand, and what follows it.
#[tactic(auto, unfolding(crate::specs::Reading::operand_at))]
pub(crate) fn operand_at(alloc: Global, text: &[u8]) -> Result<Option<(Operand, &[u8])>, NoMemory>
    ensures { IfOk result (λ found. shown found ≡ operand_at text.now) }
{
    let text = after_ws(text);
    match text {
        [first, behind @ ..] => operand_by(alloc, *first, behind, text),
        [] => Ok(None),
    }
}
