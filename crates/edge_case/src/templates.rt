//! The templates among the answers of a case text.
ghost use Rattle.std.specs.Prelude.{◌≡◌, ◌++◌, List, [], Some, IfOk, OnOk};
ghost use Rattle.edge_types.specs.Answered.{Answered};
ghost use Rattle.edge_case.specs.Reading.{answers_at, case_of};
ghost use Rattle.edge_case.specs.declared.case_text.Case.{Case};
ghost use Rattle.edge_case.specs.Templates.{templates_in, template_of};

use crate::entry::entry_at;
use crate::heading::heading_at;
use edge_types::{Answer, NoMemory};
use std::alloc::Global;

// Keeps an answer if its body is a template.
fn keep_template(found: &mut Vec<Answer>, answer: Option<Answer>) -> Result<(), NoMemory>
    ensures { OnOk result (found.new.items ≡ found.old.items ++ template_of answer) }
{
    match answer {
        Some(answer) if answer.processed() => Ok(found.push(answer)?),
        _ => Ok(()),
    }
}

// The templates among the answers that a text writes up to its end.
fn templates_at(alloc: Global, text: &[u8]) -> Result<Vec<Answer>, NoMemory>
    ensures { IfOk result (λ found. (table : List Answered) → answers_at [] text.now ≡ Some table → found.items ≡ templates_in table) }
{
    let mut found = Vec::new(alloc);
    let mut rest = text;
    while let Some((entry, after)) = entry_at(rest) {
        keep_template(&mut found, entry.answer(alloc)?)?;
        rest = after;
    }
    Ok(found)
}

/// The answers of a case text whose bodies are templates for the edge to process, in the text's order.
///
/// If the text isn't a case text, the result is unspecified.
pub fn templates_in(alloc: Global, text: &[u8]) -> Result<Vec<Answer>, NoMemory>
    ensures { IfOk result (λ found. (case : Case) → case_of text.now ≡ Some case → found.items ≡ templates_in case.table) }
{
    match heading_at(text) {
        Some((_, rest)) => templates_at(alloc, rest),
        None => Ok(Vec::new(alloc)),
    }
}
