//! The part of the text that is about the cache.

ghost use Rattle.std.specs.Prelude.{◌≡◌, ◌++◌, OnOk};
ghost use Rattle.edge_metrics.specs.Text as spec;

use crate::lines::{push_head, push_sample};
use fragment_cache::CacheTally;
use std::alloc::AllocError;

#[tactic(auto, unfolding(crate::specs::Text::cache))]
pub(crate) fn push_cache(text: &mut Vec<u8>, tally: &CacheTally) -> Result<(), AllocError>
    ensures { OnOk result (text.new.items ≡ text.old.items ++ spec.cache tally.now) }
{
    push_kept_answers(text, tally.entries)?;
    push_kept_bytes(text, tally.bytes)?;
    push_lookups(text, tally)?;
    push_bridges(text, tally.bridges)
}

#[tactic(auto, unfolding(crate::specs::Text::kept_answers))]
fn push_kept_answers(text: &mut Vec<u8>, count: u64) -> Result<(), AllocError>
    ensures { OnOk result (text.new.items ≡ text.old.items ++ spec.kept_answers count) }
{
    push_head(
        text,
        b"esi_edge_cache_answers",
        b"Answers that are kept.",
        b"gauge",
    )?;
    push_sample(text, b"esi_edge_cache_answers", count)
}

#[tactic(auto, unfolding(crate::specs::Text::kept_bytes))]
fn push_kept_bytes(text: &mut Vec<u8>, bytes: u64) -> Result<(), AllocError>
    ensures { OnOk result (text.new.items ≡ text.old.items ++ spec.kept_bytes bytes) }
{
    push_kept_bytes_head(text)?;
    push_sample(text, b"esi_edge_cache_bytes", bytes)
}

#[tactic(auto, unfolding(crate::specs::Text::kept_bytes_head))]
fn push_kept_bytes_head(text: &mut Vec<u8>) -> Result<(), AllocError>
    ensures { OnOk result (text.new.items ≡ text.old.items ++ spec.kept_bytes_head) }
{
    push_head(
        text,
        b"esi_edge_cache_bytes",
        b"Bytes of the bodies of kept answers.",
        b"gauge",
    )
}

#[tactic(auto, unfolding(crate::specs::Text::bridges))]
fn push_bridges(text: &mut Vec<u8>, count: u64) -> Result<(), AllocError>
    ensures { OnOk result (text.new.items ≡ text.old.items ++ spec.bridges count) }
{
    push_bridges_head(text)?;
    push_sample(text, b"esi_edge_cache_bridges_total", count)
}

#[tactic(auto, unfolding(crate::specs::Text::bridges_head))]
fn push_bridges_head(text: &mut Vec<u8>) -> Result<(), AllocError>
    ensures { OnOk result (text.new.items ≡ text.old.items ++ spec.bridges_head) }
{
    push_head(
        text,
        b"esi_edge_cache_bridges_total",
        b"Answers in place of a failing fetch.",
        b"counter",
    )
}

#[tactic(auto, unfolding(crate::specs::Text::lookups))]
fn push_lookups(text: &mut Vec<u8>, tally: &CacheTally) -> Result<(), AllocError>
    ensures { OnOk result (text.new.items ≡ text.old.items ++ spec.lookups tally.now) }
{
    push_lookups_head(text)?;
    push_unfetched(text, tally)?;
    push_fetched(text, tally)
}

#[tactic(auto, unfolding(crate::specs::Text::lookups_head))]
fn push_lookups_head(text: &mut Vec<u8>) -> Result<(), AllocError>
    ensures { OnOk result (text.new.items ≡ text.old.items ++ spec.lookups_head) }
{
    push_head(
        text,
        b"esi_edge_cache_lookups_total",
        b"Answers asked for, by how they came.",
        b"counter",
    )
}

// Those for which no fetch was made.
#[tactic(auto, unfolding(crate::specs::Text::unfetched))]
fn push_unfetched(text: &mut Vec<u8>, tally: &CacheTally) -> Result<(), AllocError>
    ensures { OnOk result (text.new.items ≡ text.old.items ++ spec.unfetched tally.now) }
{
    push_sample(
        text,
        b"esi_edge_cache_lookups_total{by=\"hit\"}",
        tally.hits,
    )?;
    push_sample(
        text,
        b"esi_edge_cache_lookups_total{by=\"join\"}",
        tally.joins,
    )
}

// Those for which one was made.
#[tactic(auto, unfolding(crate::specs::Text::fetched))]
fn push_fetched(text: &mut Vec<u8>, tally: &CacheTally) -> Result<(), AllocError>
    ensures { OnOk result (text.new.items ≡ text.old.items ++ spec.fetched tally.now) }
{
    push_sample(
        text,
        b"esi_edge_cache_lookups_total{by=\"lead\"}",
        tally.leads,
    )?;
    push_sample(
        text,
        b"esi_edge_cache_lookups_total{by=\"bypass\"}",
        tally.bypasses,
    )
}
