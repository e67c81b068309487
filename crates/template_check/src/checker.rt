//! What is wrong with a text.

ghost use Rattle.std.specs.Prelude.{◌≡◌, IfOk};
ghost use Rattle.template_check.specs.Checking.{reason_at, fault_of, visible_from, shown_at};
ghost use Rattle.template_check.specs.Positions as positions;

use crate::position::{Position, position_of};
use crate::reason::Reason;
use crate::reasons::reason_of;
use edge_types::{NoMemory, SharedBytes, after_ws};
use esi_scanner::{Problem, ScanFault, scan, trouble_at};
use esi_tree::{TreeFault, template};
use std::alloc::Global;

/// What is wrong with a text.
#[derive(Clone, Copy, Debug, Drop, PartialEq, Eq)]
pub struct Fault {
    /// Of the fault, in bytes from the text's start: the place that `template` reports.
    pub place: usize,
    pub reason: Reason,
}

// Where the first byte that isn't white space is, from this place on.
fn visible_from(text: &[u8], place: usize) -> usize
    ensures { result ≡ visible_from text.now place }
{
    let (_, rest) = text.split_at(place.min(text.len()));
    text.len() - after_ws(rest).len()
}

impl Fault {
    // Where an author has to look: within a tag that can't be read at the trouble's own place, if there is one, and of
    // text after the white space before it.
    fn shown_at(&self, text: &[u8]) -> usize
        ensures { result ≡ shown_at text.now self.now }
    {
        match self.reason {
            Reason::Malformed(trouble) => match trouble.problem {
                Problem::TextEnds | Problem::NoRemoveEnd | Problem::NoBlockEnd => self.place,
                _ => trouble.place,
            },
            Reason::NoRun(_) => visible_from(text, self.place),
            _ => self.place,
        }
    }

    /// The line and the column in this text at which an author has to look: those of the fault's place, but within a tag
    /// those of the name of the element or the attribute, or of the byte, that is wrong, and of text those of its first
    /// byte that isn't white space. Takes no memory.
    pub fn position(&self, text: &[u8]) -> Position
        ensures { result ≡ positions.position_of text.now (shown_at text.now self.now) }
    {
        position_of(text, self.shown_at(text))
    }
}

// Why a text isn't a template from this place on.
fn reason_at(alloc: Global, text: &[u8], place: usize) -> Result<Reason, NoMemory>
    ensures { IfOk result (λ reason. reason ≡ reason_at text.now place) }
{
    match scan(alloc, text) {
        Ok(tokens) => reason_of(alloc, tokens.as_slice(), place),
        Err(ScanFault::Malformed(at)) => Ok(Reason::Malformed(trouble_at(alloc, text, at)?)),
        Err(ScanFault::NoMemory) => Err(NoMemory),
    }
}

/// Reads a text as a template, and reports what is wrong with it: nothing if it is one, else the place that `template`
/// reports and why. `NoMemory` if an allocation fails.
///
/// A text with a fault is cut into tokens a second time.
pub fn check(alloc: Global, text: &SharedBytes) -> Result<Option<Fault>, NoMemory>
    ensures { IfOk result (λ found. found ≡ fault_of text.now) }
{
    match template(alloc, text) {
        Ok(_) => Ok(None),
        Err(TreeFault::Bad(place)) => {
            let reason = reason_at(alloc, text.as_bytes(), place)?;
            Ok(Some(Fault { place, reason }))
        }
        Err(TreeFault::NoMemory) => Err(NoMemory),
    }
}
