//! Prints what is to be reported of a text.

ghost use Rattle.std.specs.Prelude.{◌≡◌, IfOk, OnOk};
ghost use Rattle.std.specs.Io.KnownBytes.{Appends};
ghost use Rattle.template_check.specs.Checking.{fault_of};
ghost use Rattle.template_check.specs.Positions.{position_of};
ghost use Rattle.template_check.specs.Report as spec;

use crate::checker::check;
use crate::message::Message;
use crate::position::{Position, position_of};
use crate::warned::{Warned, warnings};
use edge_types::{NoMemory, SharedBytes};
use std::alloc::Global;
use std::io;
use std::io::Write;
use thiserror::Error;

/// How much was reported of a text.
#[derive(Clone, Copy, Debug, Drop, PartialEq, Eq)]
pub struct Told {
    /// None or one: a text is read up to its first fault.
    pub errors: usize,
    pub warnings: usize,
}

/// Why not everything could be reported.
#[derive(Clone, Copy, Debug, Drop, PartialEq, Eq, Error)]
pub enum ReportFault {
    /// Also if a write, such as one to a buffer, runs out of memory.
    #[error("no memory")]
    NoMemory,
    /// A write failed for another reason.
    #[error("output failed")]
    Write,
}

impl From<NoMemory> for ReportFault {
    fn from(_: NoMemory) -> ReportFault {
        ReportFault::NoMemory
    }
}

impl From<io::Error> for ReportFault {
    fn from(error: io::Error) -> ReportFault {
        match error.kind() {
            io::ErrorKind::OutOfMemory => ReportFault::NoMemory,
            _ => ReportFault::Write,
        }
    }
}

// Prints the fault, if there is one.
fn report_fault<W: Write>(
    alloc: Global,
    writer: &mut W,
    name: &str,
    text: &SharedBytes,
) -> Result<usize, ReportFault>
    ensures count { IfOk result (λ errors. errors ≡ spec.fault_count (fault_of text.now)) }
    ensures written { OnOk result
        (Appends (W.contents writer.old) (W.contents writer.new) (spec.fault_lines name.now text.now (fault_of text.now))) }
{
    match check(alloc, text)? {
        Some(fault) => {
            let message = Message {
                text: text.as_bytes(),
                fault,
            };
            writeln!(writer, "{name}:{message}")?;
            Ok(1)
        }
        None => Ok(0),
    }
}

// The position of a place, counted on from that of an earlier one; of one that isn't earlier, counted anew.
#[tactic(auto, using(crate::proofs::PositionLemmas::counted_on, crate::proofs::PositionLemmas::lines_few, crate::proofs::PositionLemmas::columns_few))]
fn position_from(text: &[u8], position: Position, at: usize, place: usize) -> Position
    requires { position ≡ position_of text.now at }
    ensures { result ≡ position_of text.now place }
{
    if place < at || text.len() < at {
        return position_of(text, place);
    }
    let (_, rest) = text.split_at(at);
    let (between, _) = rest.split_at((place - at).min(rest.len()));
    position.behind(between)
}

// Prints a warning.
fn print_warning<W: Write>(
    writer: &mut W,
    name: &str,
    position: Position,
    warned: Warned,
) -> io::Result<()>
    ensures { OnOk result
        (Appends (W.contents writer.old) (W.contents writer.new) (spec.warning_at name.now position warned.warning)) }
{
    let Position { line, column } = position;
    let warning = warned.warning;
    writeln!(writer, "{name}:{line}:{column}: warning: {warning}")
}

// Prints warnings. Each position is counted on from the last one, so that many take no longer than the text is.
fn print_warnings<W: Write>(
    writer: &mut W,
    name: &str,
    text: &[u8],
    found: &[Warned],
) -> io::Result<()>
    ensures { OnOk result
        (Appends (W.contents writer.old) (W.contents writer.new) (spec.warning_lines name.now text.now found.now)) }
{
    let mut position = Position::START;
    let mut at = 0;
    for warned in found {
        position = position_from(text, position, at, warned.place);
        at = warned.place;
        print_warning(writer, name, position, *warned)?;
    }
    Ok(())
}

/// Prints what is to be reported of a text with this name: a line for its fault, if it isn't a template, then one for
/// each warning, in the text's order: `NAME:LINE:COLUMN: error: WORDS` and `NAME:LINE:COLUMN: warning: WORDS`.
pub fn report<W: Write>(
    alloc: Global,
    writer: &mut W,
    name: &str,
    text: &SharedBytes,
) -> Result<Told, ReportFault>
    ensures told { IfOk result (λ told. told ≡ spec.told_of text.now) }
    ensures written { OnOk result
        (Appends (W.contents writer.old) (W.contents writer.new) (spec.reported name.now text.now)) }
{
    let errors = report_fault(alloc, writer, name, text)?;
    let found = warnings(alloc, text.as_bytes())?;
    print_warnings(writer, name, text.as_bytes(), found.as_slice())?;
    Ok(Told {
        errors,
        warnings: found.len(),
    })
}
