//! The part of the text that is about fetches.

ghost use Rattle.std.specs.Prelude.{◌≡◌, ◌++◌, OnOk};
ghost use Rattle.std.specs.List.{flat_map};
ghost use Rattle.edge_metrics.specs.Text as spec;

use crate::escape::push_escaped;
use crate::lines::{push_head, push_sample};
use fetch_outcomes::{FetchFault, FetchTally, OriginTally};
use std::alloc::AllocError;

#[tactic(auto, unfolding(crate::specs::Text::fetches_by_origin))]
pub(crate) fn push_fetches(text: &mut Vec<u8>, origins: &[OriginTally]) -> Result<(), AllocError>
    ensures { OnOk result (text.new.items ≡ text.old.items ++ spec.fetches_by_origin origins.now) }
{
    push_fetches_head(text)?;
    push_origins(text, origins)
}

#[tactic(auto, unfolding(crate::specs::Text::fetches_head))]
fn push_fetches_head(text: &mut Vec<u8>) -> Result<(), AllocError>
    ensures { OnOk result (text.new.items ≡ text.old.items ++ spec.fetches_head) }
{
    push_head(
        text,
        b"esi_edge_fetches_total",
        b"Fetches from origins, by their end.",
        b"counter",
    )
}

fn push_origins(text: &mut Vec<u8>, origins: &[OriginTally]) -> Result<(), AllocError>
    ensures { OnOk result (text.new.items ≡ text.old.items ++ flat_map spec.from_origin origins.now) }
{
    for origin in origins {
        push_origin(text, origin)?;
    }
    Ok(())
}

#[tactic(auto, unfolding(crate::specs::Text::from_origin))]
fn push_origin(text: &mut Vec<u8>, origin: &OriginTally) -> Result<(), AllocError>
    ensures { OnOk result (text.new.items ≡ text.old.items ++ spec.from_origin origin.now) }
{
    let authority = origin.authority.as_slice();
    push_unsent(text, authority, &origin.fetches)?;
    push_unfinished(text, authority, &origin.fetches)?;
    push_refused(text, authority, &origin.fetches)
}

// The fetches that were answered, and those that were never made.
#[tactic(auto, unfolding(crate::specs::Text::unsent))]
fn push_unsent(text: &mut Vec<u8>, authority: &[u8], counts: &FetchTally) -> Result<(), AllocError>
    ensures { OnOk result (text.new.items ≡ text.old.items ++ spec.unsent authority.now counts.now) }
{
    push_ended(text, authority, b"answered", counts.answered)?;
    push_failed(text, authority, FetchFault::TooMany, counts.too_many)?;
    push_failed(text, authority, FetchFault::AtRest, counts.at_rest)
}

// Those of which no whole response came.
#[tactic(auto, unfolding(crate::specs::Text::unfinished))]
fn push_unfinished(
    text: &mut Vec<u8>,
    authority: &[u8],
    counts: &FetchTally,
) -> Result<(), AllocError>
    ensures { OnOk result (text.new.items ≡ text.old.items ++ spec.unfinished authority.now counts.now) }
{
    push_failed(text, authority, FetchFault::Connect, counts.connect)?;
    push_failed(text, authority, FetchFault::Timeout, counts.timeout)?;
    push_failed(text, authority, FetchFault::Cut, counts.cut)
}

// Those whose response is no answer.
#[tactic(auto, unfolding(crate::specs::Text::refused))]
fn push_refused(text: &mut Vec<u8>, authority: &[u8], counts: &FetchTally) -> Result<(), AllocError>
    ensures { OnOk result (text.new.items ≡ text.old.items ++ spec.refused authority.now counts.now) }
{
    push_failed(text, authority, FetchFault::TooLong, counts.too_long)?;
    push_failed(text, authority, FetchFault::Coded, counts.coded)?;
    push_failed(text, authority, FetchFault::Status, counts.status)?;
    push_failed(text, authority, FetchFault::Fields, counts.fields)
}

// The fetches that ended by a fault.
fn push_failed(
    text: &mut Vec<u8>,
    authority: &[u8],
    fault: FetchFault,
    count: u64,
) -> Result<(), AllocError>
    ensures { OnOk result (text.new.items ≡ text.old.items ++ spec.failed authority.now fault count) }
{
    push_ended(text, authority, fault.name().as_bytes(), count)
}

// The fetches that had this end.
#[tactic(auto, unfolding(crate::specs::Text::ended))]
fn push_ended(
    text: &mut Vec<u8>,
    authority: &[u8],
    outcome: &[u8],
    count: u64,
) -> Result<(), AllocError>
    ensures { OnOk result (text.new.items ≡ text.old.items ++ spec.ended authority.now outcome.now count) }
{
    text.extend_from_slice(b"esi_edge_fetches_total{origin=\"")?;
    push_escaped(text, authority)?;
    text.extend_from_slice(b"\",outcome=\"")?;
    text.extend_from_slice(outcome)?;
    push_sample(text, b"\"}", count)
}

#[tactic(auto, unfolding(crate::specs::Text::without_origin))]
pub(crate) fn push_without_origin(text: &mut Vec<u8>, count: u64) -> Result<(), AllocError>
    ensures { OnOk result (text.new.items ≡ text.old.items ++ spec.without_origin count) }
{
    push_without_origin_head(text)?;
    push_sample(text, b"esi_edge_fetches_without_origin_total", count)
}

#[tactic(auto, unfolding(crate::specs::Text::without_origin_head))]
fn push_without_origin_head(text: &mut Vec<u8>) -> Result<(), AllocError>
    ensures { OnOk result (text.new.items ≡ text.old.items ++ spec.without_origin_head) }
{
    push_head(
        text,
        b"esi_edge_fetches_without_origin_total",
        b"Fetches for which there is no origin.",
        b"counter",
    )
}

#[tactic(auto, unfolding(crate::specs::Text::strays_by_origin))]
pub(crate) fn push_strays(text: &mut Vec<u8>, origins: &[OriginTally]) -> Result<(), AllocError>
    ensures { OnOk result (text.new.items ≡ text.old.items ++ spec.strays_by_origin origins.now) }
{
    push_strays_head(text)?;
    push_strays_of_each(text, origins)
}

#[tactic(auto, unfolding(crate::specs::Text::strays_head))]
fn push_strays_head(text: &mut Vec<u8>) -> Result<(), AllocError>
    ensures { OnOk result (text.new.items ≡ text.old.items ++ spec.strays_head) }
{
    push_head(
        text,
        b"esi_edge_strays_total",
        b"Times that an origin sent bytes unasked.",
        b"counter",
    )
}

fn push_strays_of_each(text: &mut Vec<u8>, origins: &[OriginTally]) -> Result<(), AllocError>
    ensures { OnOk result (text.new.items ≡ text.old.items ++ flat_map spec.strays_from origins.now) }
{
    for origin in origins {
        push_strays_of(text, origin)?;
    }
    Ok(())
}

fn push_strays_of(text: &mut Vec<u8>, origin: &OriginTally) -> Result<(), AllocError>
    ensures { OnOk result (text.new.items ≡ text.old.items ++ spec.strays_from origin.now) }
{
    let start = b"esi_edge_strays_total{origin=\"";
    push_of_origin(text, start, origin.authority.as_slice(), origin.strays)
}

// A sample whose last label is its origin.
#[tactic(auto, unfolding(crate::specs::Text::of_origin))]
fn push_of_origin(
    text: &mut Vec<u8>,
    start: &[u8],
    authority: &[u8],
    count: u64,
) -> Result<(), AllocError>
    ensures { OnOk result (text.new.items ≡ text.old.items ++ spec.of_origin start.now authority.now count) }
{
    text.extend_from_slice(start)?;
    push_escaped(text, authority)?;
    push_sample(text, b"\"}", count)
}
