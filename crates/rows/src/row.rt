//! Reading rows, and writing answers.

use edge_types::around;
use std::alloc::{AllocError, Global};
use std::fmt::{Debug, Display, Write};
use std::str;
use std::str::FromStr;

// A longer text is cut off in an answer, after this many of its characters.
const LONG: usize = 1000;

const SHOWN: usize = 40;

/// An answer as far as it is written. An allocation that fails is reported at the end, so that no writer has to.
#[derive(Drop)]
pub struct Line {
    text: String,
    is_cut: bool,
}

impl Line {
    pub fn new(alloc: Global) -> Line {
        Line {
            text: String::new(alloc),
            is_cut: false,
        }
    }

    /// The whole text; `None` if an allocation failed.
    pub fn whole(&self) -> Option<&str> {
        if self.is_cut {
            None
        } else {
            Some(self.text.as_str())
        }
    }

    fn note(&mut self, pushed: Result<(), AllocError>) {
        if pushed.is_err() {
            self.is_cut = true;
        }
    }

    pub fn push(&mut self, text: &str) {
        let pushed = self.text.push_str(text);
        self.note(pushed);
    }

    pub fn display<D: Display>(&mut self, value: &D) {
        let pushed = write!(self.text, "{value}");
        self.note(pushed);
    }

    pub fn debug<D: Debug>(&mut self, value: &D) {
        let pushed = write!(self.text, "{value:?}");
        self.note(pushed);
    }

    /// Pushes a space if something is before it.
    pub fn space(&mut self) {
        if !self.text.is_empty() {
            self.push(" ");
        }
    }

    /// Pushes a word, after a space if something is before it.
    pub fn word(&mut self, word: &str) {
        self.space();
        self.push(word);
    }

    /// Pushes a text as answers show it.
    pub fn show(&mut self, bytes: &[u8]) {
        let text = str::from_utf8(bytes).unwrap_or("?");
        if text.len() <= LONG {
            self.characters(text, LONG);
        } else {
            self.characters(text, SHOWN);
            self.push(".. of ");
            self.display(&text.len());
            self.push(" bytes");
        }
    }

    fn characters(&mut self, text: &str, count: usize) {
        for character in text.chars().take(count) {
            let pushed = match character {
                '\n' => self.text.push_str("\\n"),
                '\t' => self.text.push_str("\\t"),
                '\r' => self.text.push_str("\\r"),
                _ => self.text.push(character),
            };
            self.note(pushed);
        }
    }
}

/// A row with its repeated parts and its bytes written out.
pub fn written_out(alloc: Global, row: &str) -> Option<Vec<u8>> {
    let repeated = repeated(alloc, row)?;
    let mut bytes = Vec::new(alloc);
    for (number, part) in repeated.split('\\').enumerate() {
        let rest = if number == 0 {
            part
        } else {
            push_escape(&mut bytes, part)?
        };
        bytes.extend_from_slice(rest.as_bytes()).ok()?;
    }
    Some(bytes)
}

// Pushes the byte whose name begins the part; returns what follows it.
fn push_escape<'a>(bytes: &mut Vec<u8>, part: &'a str) -> Option<&'a str> {
    let (byte, len) = match part.as_bytes() {
        [b'n', ..] => (b'\n', 1),
        [b't', ..] => (b'\t', 1),
        [b'r', ..] => (b'\r', 1),
        [b'x', ..] => (u8::from_str_radix(part.get(1..3)?, 16).ok()?, 3),
        _ => return None,
    };
    bytes.push(byte).ok()?;
    part.get(len..)
}

fn repeated(alloc: Global, row: &str) -> Option<String> {
    let mut text = String::new(alloc);
    for (number, part) in row.split("[[").enumerate() {
        if number == 0 {
            text.push_str(part).ok()?;
        } else {
            push_repeated(&mut text, part)?;
        }
    }
    Some(text)
}

// Pushes what is repeated at the part's beginning, and what follows it.
fn push_repeated(text: &mut String, part: &str) -> Option<()> {
    let (inner, rest) = part.split_once("]]")?;
    let (count, unit) = inner.split_once('*')?;
    let count: usize = number(count.as_bytes())?;
    for _ in 0..count {
        text.push_str(unit).ok()?;
    }
    text.push_str(rest).ok()
}

/// The words of a row up to the first space, and those after it.
pub fn pair(row: &[u8]) -> (&[u8], &[u8]) {
    around(b' ', row).unwrap_or((row, b""))
}

/// The number that a word writes.
pub fn number<N: FromStr>(word: &[u8]) -> Option<N>
where
    N: Drop,
    N::Err: Drop,
{
    str::from_utf8(word).ok()?.parse::<N>().ok()
}
