//! The answers of a case text.
ghost use Rattle.std.specs.Prelude.{◌≡◌, [], Some, None, IfOk, if◌then◌else◌};
ghost use Rattle.std.specs.Option.{option_copied};
ghost use Rattle.edge_case.specs.Case.{value_or_empty};
ghost use Rattle.edge_case.specs.Reading.{got_from, answered_by, with_entry, answers_at, shown_entry};

use crate::bytes::lent_or_empty;
use crate::entry::{Entry, Got, entry_at};
use edge_types::{Answer, InsertFault, NoMemory, Octets, PageUrl, SharedBytes, Table};
use std::alloc::Global;
use std::sync::Arc;
use surrogate_headers::{control, own_device};

// The line after the answers.
const END: &[u8] = b"end\n";

// The largest status.
const MAX_STATUS: u32 = 599;

impl Got<'_> {
    // The answer at a URL, if the edge accepts it.
    fn answer_at(&self, alloc: Global, url: PageUrl) -> Result<Option<Answer>, NoMemory>
        ensures { IfOk result (λ found. found ≡ got_from self.now.status
            (value_or_empty (option_copied self.now.content_type))
            (value_or_empty (option_copied self.now.control)) self.now.body.now url) }
    {
        if self.status > MAX_STATUS {
            return Ok(None);
        }
        let content_type = Octets::copy_of(alloc, lent_or_empty(self.content_type))?;
        let control = control(lent_or_empty(self.control), own_device());
        let body = SharedBytes::copy_of(alloc, self.body)?;
        Ok(Answer::got(url, self.status as u16, content_type, control, body))
    }
}

impl Entry<'_> {
    /// The answer that a written one denotes.
    #[tactic(auto, unfolding(crate::specs::Reading::answered_by))]
    pub(crate) fn answer(&self, alloc: Global) -> Result<Option<Answer>, NoMemory>
        ensures { IfOk result (λ found. found ≡ answered_by (shown_entry self.now)) }
    {
        match self {
            Entry::Failed(url) => match PageUrl::parse(alloc, url)? {
                Some(url) => Ok(Some(Answer::failed(url))),
                None => Ok(None),
            },
            Entry::Got(got) => match PageUrl::parse(alloc, got.url)? {
                Some(url) => got.answer_at(alloc, url),
                None => Ok(None),
            },
        }
    }
}

// Adds the answer that a written one denotes. False if it denotes none, or if its URL
// already has an answer.
#[tactic(auto, unfolding(crate::specs::Reading::with_entry))]
fn add_entry(alloc: Global, table: &mut Table, entry: &Entry<'_>) -> Result<bool, NoMemory>
    ensures { IfOk result (λ added. with_entry table.old (shown_entry entry.now)
        ≡ (if added then Some table.new else None)) }
{
    let Some(answer) = entry.answer(alloc)? else {
        return Ok(false);
    };
    match table.insert(Arc::new(alloc, answer)?) {
        Ok(()) => Ok(true),
        Err((InsertFault::Twice, _)) => Ok(false),
        Err((InsertFault::NoMemory, _)) => Err(NoMemory),
    }
}

/// The answers that a text writes up to its end; `None` if it doesn't write answers and the end.
pub(crate) fn answers_at(alloc: Global, text: &[u8]) -> Result<Option<Table>, NoMemory>
    ensures { IfOk result (λ found. found ≡ answers_at [] text.now) }
{
    let mut table = Table::new(alloc);
    let mut rest = text;
    while let Some((entry, after)) = entry_at(rest) {
        if !add_entry(alloc, &mut table, &entry)? {
            return Ok(None);
        }
        rest = after;
    }
    if rest == END {
        Ok(Some(table))
    } else {
        Ok(None)
    }
}
