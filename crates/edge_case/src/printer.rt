//! Prints the outcome of a page.
ghost use Rattle.std.specs.Prelude.{◌≡◌, ◌≢◌, IfOk, IfErr, IsErrOf, string_bytes};
ghost use Rattle.std.specs.Io.KnownBytes.{Appends, Keeps};
ghost use Rattle.edge_types.specs.Outcome.{shown};
ghost use Rattle.edge_case.specs.Bytes.{AppendsPart};
ghost use Rattle.edge_case.specs.Printed.{page_line, fault_line, printed, end_of};

use crate::ending::{CaseEnd, CaseFault};
use crate::line::LINE_FEED;
use crate::writing::{write_bytes, write_page};
use edge_types::{Head, NoMemory, Outcome, PageFault};
use std::alloc::Global;
use std::io::Write;

// A page's line: status, length of the body and content type.
fn page_line(alloc: Global, head: &Head, len: usize) -> Result<Vec<u8>, NoMemory>
    ensures { IfOk result (λ line. line.items ≡ page_line head.now len) }
{
    let status = head.status;
    let numbers = format!(in alloc; "{status} {len} ")?;
    let mut line = numbers.as_bytes().to_vec(alloc)?;
    line.extend_from_slice(head.content_type.as_bytes())?;
    line.push(LINE_FEED)?;
    Ok(line)
}

// A fault's line: its number, its name and its place.
fn fault_line(alloc: Global, fault: &PageFault) -> Result<String, NoMemory>
    ensures { IfOk result (λ line. string_bytes line ≡ fault_line fault.now) }
{
    let number = fault.number();
    let name = fault.name();
    let line = match fault {
        PageFault::BadTemplate(at) => format!(in alloc; "fault {number} {name} {at}\n")?,
        _ => format!(in alloc; "fault {number} {name}\n")?,
    };
    Ok(line)
}

/// Prints the outcome of a page: a page as its status, its length, its content type and its body,
/// a fault as its line. No memory is taken after the first write.
///
/// `NoMemory` if an allocation fails; nothing is written then. `Write` if a write fails or
/// takes no byte; only a first part of the printed form is written then.
pub(crate) fn print<W: Write>(
    alloc: Global,
    writer: &mut W,
    outcome: &Outcome,
) -> Result<CaseEnd, CaseFault>
    ensures end { IfOk result (λ end. end ≡ end_of (shown outcome.now)) }
    ensures written { IfOk result (λ end. Appends (W.contents writer.old) (W.contents writer.new) (printed (shown outcome.now))) }
    ensures failed { IsErrOf result CaseFault.Write → AppendsPart (W.contents writer.old) (W.contents writer.new) (printed (shown outcome.now)) }
    ensures nothing { IfErr result (λ e. e ≢ CaseFault.Write → Keeps (W.contents writer.old) (W.contents writer.new)) }
    ensures never_bad { IfErr result (λ e. e ≢ CaseFault.BadCase) }
{
    match outcome {
        Outcome::Page { head, body } => {
            let line = page_line(alloc, head, body.len())?;
            write_page(writer, &line, body)?;
            Ok(CaseEnd::PagePrinted)
        }
        Outcome::Fault(fault) => {
            let line = fault_line(alloc, fault)?;
            write_bytes(writer, line.as_bytes())?;
            Ok(CaseEnd::FaultPrinted)
        }
    }
}
