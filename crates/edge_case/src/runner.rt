//! Runs a case: reads it, evaluates it and prints the outcome.
ghost use Rattle.std.specs.Prelude.{◌≡◌, ◌≢◌, ◌≤◌, ◌+◌, option_map, IfOk, IfErr, IsErrOf};
ghost use Rattle.std.specs.Arc.{arc_value};
ghost use Rattle.std.specs.Io.KnownBytes.{Appends, Keeps};
ghost use Rattle.edge_types.specs.Outcome.{Shown};
ghost use Rattle.plan_runner.specs.Page.{Finished};
ghost use Rattle.edge_case.specs.Bytes.{AppendsPart, TakesAtMost, IsInput};
ghost use Rattle.edge_case.specs.FailedLeg.{IsFailedLegAt, IsFailedLegOf, FailsAtLeg};
ghost use Rattle.edge_case.specs.Printed.{end_of, printed};
ghost use Rattle.edge_case.specs.Run.{outcome_of, Reads, IsNoCase, ReadsBefore, Prints, PrintsPart};
ghost use Rattle.edge_case.specs.declared.case_text.Case.{Case};

use crate::case_text::{Case, MAX_CASE};
use crate::ending::{CaseEnd, CaseFault};
use crate::input::read_input;
use crate::printer::print;
use edge_types::{Answer, NoMemory};
use plan_runner::{Page, Running, run_to_end};
use std::alloc::Global;
use std::io::{Read, Write};
use std::sync::Arc;

/// A case that was run.
#[derive(Drop)]
pub struct Ran {
    /// What was printed.
    pub end: CaseEnd,
    /// Its text, which is the whole input.
    pub text: Vec<u8>,
    /// Where an include failed its page, the answer of the leg at which it failed, if that leg asked for one.
    pub failed_leg: Option<Arc<Answer>>,
}

// The case that the input spells, and the input.
fn read_case<R: Read>(alloc: Global, reader: &mut R) -> Result<(Case, Vec<u8>), CaseFault>
    ensures ok { IfOk result (λ (case, text). Reads (R.remaining reader.old) case) }
    ensures text { IfOk result (λ (case, text). IsInput (R.remaining reader.old) text.items) }
    ensures bad { IsErrOf result CaseFault.BadCase → IsNoCase (R.remaining reader.old) }
    ensures through { ReadsBefore result (R.remaining reader.old) (R.remaining reader.new) }
    ensures at_most { TakesAtMost (MAX_CASE + 1) (R.remaining reader.old) (R.remaining reader.new) }
    ensures never_write { IfErr result (λ e. e ≢ CaseFault.Write) }
{
    let text = read_input(alloc, reader)?;
    match Case::read(alloc, &text)? {
        Some(case) => Ok((case, text)),
        None => Err(CaseFault::BadCase),
    }
}

// Evaluates a case and prints the outcome of its page; lends out the answer of the leg at which an include failed it.
fn print_case<W: Write>(
    alloc: Global,
    case: Case,
    writer: &mut W,
    running: Running<'_>,
) -> Result<(CaseEnd, Option<Arc<Answer>>), CaseFault>
    ensures end { IfOk result (λ (end, leg). end ≡ end_of (outcome_of case running.entry.levels)) }
    ensures leg { IfOk result (λ (end, leg). IsFailedLegOf case running.entry.levels (option_map arc_value leg)) }
    ensures written { IfOk result (λ _. Appends (W.contents writer.old) (W.contents writer.new) (printed (outcome_of case running.entry.levels))) }
    ensures nothing { IfErr result (λ e. e ≢ CaseFault.Write → Keeps (W.contents writer.old) (W.contents writer.new)) }
    ensures part { IsErrOf result CaseFault.Write → AppendsPart (W.contents writer.old) (W.contents writer.new) (printed (outcome_of case running.entry.levels)) }
    ensures never_bad { IfErr result (λ e. e ≢ CaseFault.BadCase) }
{
    let Case {
        url,
        request,
        table,
    } = case;
    let (page, outcome) = run_to_end(alloc, url, request, &table, running)?;
    let failed_leg = failed_leg_of(&page)?;
    match print(alloc, writer, &outcome) {
        Ok(end) => Ok((end, failed_leg)),
        Err(fault) => Err(fault),
    }
}

// An owner of the answer of the leg at which an include failed the page.
fn failed_leg_of(page: &Page) -> Result<Option<Arc<Answer>>, NoMemory>
    ensures { IfOk result (λ leg. (outcome : Shown) → page.now.standing ≡ Finished outcome → IsFailedLegAt page.now outcome (option_map arc_value leg)) }
{
    page.sound();
    match page.failed_leg() {
        Some(answer) => Ok(Some(Arc::try_clone(answer)?)),
        None => Ok(None),
    }
}

/// Reads a case text, runs its page and prints the outcome.
///
/// The whole input is read first, but at most `MAX_CASE + 1` bytes. Refusals: `BadCase` if the input
/// isn't a case text; `NoMemory` if an allocation fails; `Read` if a read fails; `Write` if a write
/// fails or takes no byte. After the first three nothing is written, after `Write` only a first part
/// of the printed form. No memory is taken after the first write.
///
/// Our profile.
pub fn run_case<R: Read, W: Write>(
    alloc: Global,
    reader: &mut R,
    writer: &mut W,
    running: Running<'_>,
) -> Result<CaseEnd, CaseFault>
    // What is written is the printed form of the case's outcome, and nothing else.
    ensures printed { IfOk result (λ end. Prints running.entry.levels (R.remaining reader.old)
        (W.contents writer.old) (W.contents writer.new) end) }
    ensures bad_case { IsErrOf result CaseFault.BadCase → IsNoCase (R.remaining reader.old) }
    ensures through { ReadsBefore result (R.remaining reader.old) (R.remaining reader.new) }
    ensures nothing { IfErr result (λ e. e ≢ CaseFault.Write → Keeps (W.contents writer.old) (W.contents writer.new)) }
    ensures part { IsErrOf result CaseFault.Write → PrintsPart running.entry.levels (R.remaining reader.old) (W.contents writer.old) (W.contents writer.new) }
    ensures at_most { TakesAtMost (MAX_CASE + 1) (R.remaining reader.old) (R.remaining reader.new) }
{
    // The text isn't kept: the case has its own copies.
    let (case, _) = read_case(alloc, reader)?;
    let (end, _) = print_case(alloc, case, writer, running)?;
    Ok(end)
}

/// The same, and keeps the text and what is known of the leg at which an include failed the page.
///
/// Our profile.
pub fn run_case_and_keep<R: Read, W: Write>(
    alloc: Global,
    reader: &mut R,
    writer: &mut W,
    running: Running<'_>,
) -> Result<Ran, CaseFault>
    ensures printed { IfOk result (λ ran. Prints running.entry.levels (R.remaining reader.old)
        (W.contents writer.old) (W.contents writer.new) ran.end) }
    ensures text { IfOk result (λ ran. IsInput (R.remaining reader.old) ran.text.items) }
    ensures leg { IfOk result (λ ran. FailsAtLeg running.entry.levels (R.remaining reader.old) (option_map arc_value ran.failed_leg)) }
    ensures bad_case { IsErrOf result CaseFault.BadCase → IsNoCase (R.remaining reader.old) }
    ensures through { ReadsBefore result (R.remaining reader.old) (R.remaining reader.new) }
    ensures nothing { IfErr result (λ e. e ≢ CaseFault.Write → Keeps (W.contents writer.old) (W.contents writer.new)) }
    ensures part { IsErrOf result CaseFault.Write → PrintsPart running.entry.levels (R.remaining reader.old) (W.contents writer.old) (W.contents writer.new) }
    ensures at_most { TakesAtMost (MAX_CASE + 1) (R.remaining reader.old) (R.remaining reader.new) }
{
    let (case, text) = read_case(alloc, reader)?;
    let (end, failed_leg) = print_case(alloc, case, writer, running)?;
    Ok(Ran {
        end,
        text,
        failed_leg,
    })
}
