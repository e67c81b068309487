//! The program over any words, reader and writer.
ghost use Rattle.std.specs.Prelude.{◌≡◌, map, string_bytes, IfOk, IfErr, OnErr};
ghost use Rattle.edge_commands.specs.CommandLine.{IsRefused};
ghost use Rattle.edge_main.specs.Program.{Does, explained_by};

use edge_case::{CaseEnd, CaseFault, Ran, Running, run_case, run_case_and_keep};
use edge_commands::{Invocation, Refusal, Status, invocation_of};
use edge_parts::{ServerOptions, options_of};
use edge_setup::Checking;
use std::alloc::Global;
use std::io::{Read, Write};

/// What the words led to.
#[derive(Drop)]
pub(crate) enum Done<'a> {
    /// A case was run, and ended like this.
    Ran(Status),
    /// A case was run whose page has a fault; what is known of it is here to say why.
    Explains(Ran),
    /// A server is to run with these options.
    Serves(ServerOptions),
    /// These templates are to be checked.
    Checks(Checking<'a>),
}

/// Judges the words of the command line as a whole, then runs the case that they ask for, with the
/// events, the slots ahead and the levels that they name. Its text is handed on if they ask why
/// its page has a fault. If they ask to serve or to check instead, the options or the files are handed on
/// to the caller.
///
/// If they don't ask for a case, nothing is read or written.
pub(crate) fn run_words<'a, R: Read, W: Write>(
    alloc: Global,
    words: &'a [String],
    reader: &mut R,
    writer: &mut W,
) -> Result<Done<'a>, Refusal>
    ensures ran { IfOk result (Does (map string_bytes words.now) (R.remaining reader.old)
        (W.contents writer.old) (W.contents writer.new)) }
    ensures why { IfErr result (IsRefused (map string_bytes words.now)) }
    ensures untouched { OnErr result ((reader.new ≡ reader.old) × (writer.new ≡ writer.old)) }
{
    match invocation_of(alloc, words)? {
        Invocation::Case {
            order,
            ahead,
            levels,
            is_why,
        } => {
            let running = Running {
                ahead,
                events: &order,
                levels,
            };
            if is_why {
                let ended = run_case_and_keep(alloc, reader, writer, running);
                Ok(explained_by(ended))
            } else {
                let ended = run_case(alloc, reader, writer, running);
                Ok(Done::Ran(Status::of(ended)))
            }
        }
        Invocation::Serve(setup) => Ok(Done::Serves(options_of(setup))),
        Invocation::Check(checking) => Ok(Done::Checks(checking)),
    }
}

// What came of words that ask why, by how the run of their case ended.
fn explained_by<'a>(ended: Result<Ran, CaseFault>) -> Done<'a>
    ensures { result ≡ explained_by ended }
{
    match ended {
        Ok(ran) if ran.end == CaseEnd::FaultPrinted => Done::Explains(ran),
        Ok(ran) => Done::Ran(Status::of(Ok(ran.end))),
        Err(fault) => Done::Ran(Status::of(Err(fault))),
    }
}
