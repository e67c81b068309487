//! Faults and warnings of templates, in words.

use crate::row::{Line, number, pair};
use edge_types::SharedBytes;
use std::alloc::Global;
use template_check::Message;

pub fn check(alloc: Global, row: &[u8], line: &mut Line) -> Option<()> {
    let text = SharedBytes::copy_of(alloc, row).ok()?;
    match template_check::check(alloc, &text).ok()? {
        Some(fault) => line.display(&Message { text: row, fault }),
        None => line.push("no fault"),
    }
    Some(())
}

/// A row isn't a test; the place in it is printed, and what is wrong there.
pub fn trouble_of(alloc: Global, row: &[u8], line: &mut Line) -> Option<()> {
    let trouble = template_check::trouble_of(alloc, row).ok()?;
    line.display(&trouble.place);
    line.push(": ");
    line.display(&trouble.problem);
    Some(())
}

/// A row is a place and, after a space, the text; the line and the column are printed.
pub fn position_of(row: &[u8], line: &mut Line) -> Option<()> {
    let (place, text) = pair(row);
    let position = template_check::position_of(text, number(place)?);
    line.display(&position.line);
    line.push(":");
    line.display(&position.column);
    Some(())
}

/// What is reported of a file `f`, and then how many errors and warnings there are.
pub fn report(alloc: Global, row: &[u8], line: &mut Line) -> Option<()> {
    let text = SharedBytes::copy_of(alloc, row).ok()?;
    let mut lines = Vec::new(alloc);
    let told = template_check::report(alloc, &mut lines, "f", &text).ok()?;
    line.show(lines.as_slice());
    line.word("errors ");
    line.display(&told.errors);
    line.push(", warnings ");
    line.display(&told.warnings);
    Some(())
}
