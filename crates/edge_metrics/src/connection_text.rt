//! The part of the text that is about connections.

ghost use Rattle.std.specs.Prelude.{◌≡◌, ◌++◌, OnOk};
ghost use Rattle.edge_metrics.specs.Text as spec;

use crate::connection_counts::ConnectionCounts;
use crate::lines::{push_head, push_sample};
use std::alloc::AllocError;

#[tactic(auto, unfolding(crate::specs::Text::connections))]
pub(crate) fn push_connections(
    text: &mut Vec<u8>,
    counts: &ConnectionCounts,
) -> Result<(), AllocError>
    ensures { OnOk result (text.new.items ≡ text.old.items ++ spec.connections counts.now) }
{
    push_open(text, counts.open)?;
    push_parked(text, counts.parked)?;
    push_serving(text, counts.serving)?;
    push_accepted(text, counts.accepted)?;
    push_failed_accepts(text, counts.failed_accepts)
}

#[tactic(auto, unfolding(crate::specs::Text::open_connections))]
fn push_open(text: &mut Vec<u8>, count: u64) -> Result<(), AllocError>
    ensures { OnOk result (text.new.items ≡ text.old.items ++ spec.open_connections count) }
{
    push_head(
        text,
        b"esi_edge_connections",
        b"Open connections.",
        b"gauge",
    )?;
    push_sample(text, b"esi_edge_connections", count)
}

#[tactic(auto, unfolding(crate::specs::Text::parked_connections))]
fn push_parked(text: &mut Vec<u8>, count: u64) -> Result<(), AllocError>
    ensures { OnOk result (text.new.items ≡ text.old.items ++ spec.parked_connections count) }
{
    push_parked_head(text)?;
    push_sample(text, b"esi_edge_connections_parked", count)
}

#[tactic(auto, unfolding(crate::specs::Text::parked_head))]
fn push_parked_head(text: &mut Vec<u8>) -> Result<(), AllocError>
    ensures { OnOk result (text.new.items ≡ text.old.items ++ spec.parked_head) }
{
    push_head(
        text,
        b"esi_edge_connections_parked",
        b"Open connections that no thread holds.",
        b"gauge",
    )
}

#[tactic(auto, unfolding(crate::specs::Text::serving_connections))]
fn push_serving(text: &mut Vec<u8>, count: u64) -> Result<(), AllocError>
    ensures { OnOk result (text.new.items ≡ text.old.items ++ spec.serving_connections count) }
{
    push_serving_head(text)?;
    push_sample(text, b"esi_edge_connections_serving", count)
}

#[tactic(auto, unfolding(crate::specs::Text::serving_head))]
fn push_serving_head(text: &mut Vec<u8>) -> Result<(), AllocError>
    ensures { OnOk result (text.new.items ≡ text.old.items ++ spec.serving_head) }
{
    push_head(
        text,
        b"esi_edge_connections_serving",
        b"Open connections that a thread holds.",
        b"gauge",
    )
}

#[tactic(auto, unfolding(crate::specs::Text::accepted_connections))]
fn push_accepted(text: &mut Vec<u8>, count: u64) -> Result<(), AllocError>
    ensures { OnOk result (text.new.items ≡ text.old.items ++ spec.accepted_connections count) }
{
    push_accepted_head(text)?;
    push_sample(text, b"esi_edge_connections_accepted_total", count)
}

#[tactic(auto, unfolding(crate::specs::Text::accepted_head))]
fn push_accepted_head(text: &mut Vec<u8>) -> Result<(), AllocError>
    ensures { OnOk result (text.new.items ≡ text.old.items ++ spec.accepted_head) }
{
    push_head(
        text,
        b"esi_edge_connections_accepted_total",
        b"Accepted connections.",
        b"counter",
    )
}

#[tactic(auto, unfolding(crate::specs::Text::failed_accepts))]
fn push_failed_accepts(text: &mut Vec<u8>, count: u64) -> Result<(), AllocError>
    ensures { OnOk result (text.new.items ≡ text.old.items ++ spec.failed_accepts count) }
{
    push_head(
        text,
        b"esi_edge_accepts_failed_total",
        b"Accepts that failed.",
        b"counter",
    )?;
    push_sample(text, b"esi_edge_accepts_failed_total", count)
}
