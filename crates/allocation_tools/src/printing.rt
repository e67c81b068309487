//! What is printed of a call: its name, ` =>`, its answer, and what is left of the values that it was lent.
//!
//! The call stands between the first and the second write to standard output, so that whoever makes the
//! allocations of a program fail can tell those of the call from the others.

use edge_types::Outcome;
use std::io::{Eprint, Print};
use std::{io, str};

/// Prints the name of a call that is made next.
pub fn calls(rt: &impl Print, name: &str) -> Option<()> {
    print!(rt; "{name}").ok()
}

/// Prints what stands between a call and its answer.
pub fn answers(rt: &impl Print) -> Option<()> {
    print!(rt; " =>").ok()
}

/// Prints a word of an answer.
pub fn word(rt: &impl Print, word: &str) -> Option<()> {
    print!(rt; " {word}").ok()
}

/// Prints a number.
pub fn number(rt: &impl Print, number: usize) -> Option<()> {
    print!(rt; " {number}").ok()
}

/// Prints bytes in brackets.
pub fn bytes(rt: &impl Print, bytes: &[u8]) -> Option<()> {
    let text = str::from_utf8(bytes).ok()?;
    print!(rt; " [{text}]").ok()
}

/// Prints that a call was out of memory.
pub fn out_of_memory(rt: &impl Print) -> Option<()> {
    word(rt, "out of memory")
}

/// Prints the status of a page and its pieces, or the name of its fault.
pub fn print_outcome(rt: &impl Print, outcome: &Outcome) -> Option<()> {
    match outcome {
        Outcome::Page { head, body } => {
            number(rt, usize::from(head.status))?;
            for at in 0..body.mark() {
                bytes(rt, body.piece(at)?)?;
            }
            Some(())
        }
        Outcome::Fault(fault) => word(rt, fault.name()),
    }
}

/// Ends the line of a call; an error if nothing could be told of it.
pub fn ends(rt: &(impl Print + Eprint), name: &str, told: Option<()>) -> io::Result<()> {
    if told.is_none() {
        eprintln!(rt; "{name}: no such call, or out of memory before it")?;
        return Err(io::Error::from(io::ErrorKind::InvalidData));
    }
    println!(rt)
}
