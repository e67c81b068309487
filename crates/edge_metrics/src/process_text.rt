//! The part of the text that is about the process.

ghost use Rattle.std.specs.Prelude.{◌≡◌, ◌++◌, OnOk};
ghost use Rattle.edge_metrics.specs.Text as spec;

use crate::lines::{push_head, push_sample};
use std::alloc::AllocError;

#[tactic(auto, unfolding(crate::specs::Text::lost_lines))]
pub(crate) fn push_lost_lines(text: &mut Vec<u8>, count: u64) -> Result<(), AllocError>
    ensures { OnOk result (text.new.items ≡ text.old.items ++ spec.lost_lines count) }
{
    push_head(
        text,
        b"esi_edge_log_lines_lost_total",
        b"Lines of the log that were lost.",
        b"counter",
    )?;
    push_sample(text, b"esi_edge_log_lines_lost_total", count)
}

/// Appends nothing where the number isn't known.
pub(crate) fn push_resident(text: &mut Vec<u8>, resident: Option<u64>) -> Result<(), AllocError>
    ensures { OnOk result (text.new.items ≡ text.old.items ++ spec.resident resident) }
{
    match resident {
        Some(bytes) => push_resident_bytes(text, bytes),
        None => Ok(()),
    }
}

#[tactic(auto, unfolding(crate::specs::Text::resident_bytes))]
fn push_resident_bytes(text: &mut Vec<u8>, bytes: u64) -> Result<(), AllocError>
    ensures { OnOk result (text.new.items ≡ text.old.items ++ spec.resident_bytes bytes) }
{
    push_head(
        text,
        b"process_resident_memory_bytes",
        b"Resident memory size in bytes.",
        b"gauge",
    )?;
    push_sample(text, b"process_resident_memory_bytes", bytes)
}
