//! The end of standard input, by which a server may be stopped.

ghost use Rattle.std.specs.Prelude.{◌≡◌, IfOk, is_some};

use crate::readiness::is_readable;
use edge_connections::StopSign;
use std::fs::File;
use std::io::{self, ErrorKind, Read};
use std::rt::Files;

// The system's name for standard input, by which it is opened once more: what threads share may not rest on a runtime's
// reader.
const STANDARD_INPUT: &str = "/dev/stdin";

// As many bytes as a pipe holds, so that whoever writes into one hardly waits.
const CHUNK: usize = 65_536;

/// A server is to stop once standard input has ended, where that is asked for. What comes on standard input is dropped.
#[derive(Drop)]
pub struct EndOfInput {
    // Standard input, where its end is asked for.
    input: Option<File>,
}

impl EndOfInput {
    /// The end of standard input, if it is asked for. Refused if standard input can't be opened.
    pub fn of<R: Files<File = File>>(rt: &R, is_asked: bool) -> io::Result<EndOfInput>
        ensures { IfOk result (λ end. is_some end.input ≡ is_asked) }
    {
        if !is_asked {
            return Ok(EndOfInput { input: None });
        }
        Ok(EndOfInput {
            input: Some(File::open(rt, STANDARD_INPUT)?),
        })
    }
}

impl<R> StopSign<R> for EndOfInput {
    fn is_given(&self, _rt: &R) -> bool {
        match &self.input {
            Some(input) => is_readable(input) && has_ended(input),
            None => false,
        }
    }
}

// Whether a file has ended, or can't be read; what it has is dropped.
fn has_ended(mut file: &File) -> bool {
    let mut chunk = [0; CHUNK];
    match file.read(&mut chunk) {
        Ok(count) => count == 0,
        Err(error) => error.kind() != ErrorKind::Interrupted,
    }
}
