//! Texts with the values of references, as pieces of a page's body.

ghost use Rattle.std.specs.Prelude.{◌≡◌, ◌≤◌, [], ◌∷◌, length, List, IfOk, OnOk};
ghost use Rattle.edge_types.specs.Pieces.{joined, with_pieces};
ghost use Rattle.esi_vars.specs.declared.part.Part.{Part};
ghost use Rattle.esi_vars.specs.Values.{is_long, part_value, value_pieces};

use crate::lookups::Lookups;
use crate::part::{Part, part_value};
use crate::values::shared_value;
use edge_types::{NoMemory, PageBody, Request, SharedBytes};
use std::alloc::Global;
use std::mem;

/// From how many bytes on a value is a piece of a page by itself, of which nothing is copied. A shorter one is cheaper as a
/// copy, joined with what is around it.
///
/// Our profile.
pub const LONG_VALUE: usize = 256;

#[tactic(auto, unfolding(crate::specs::Values::is_long))]
fn is_long(value: &[u8]) -> bool
    ensures { result ≡ is_long value.now }
{
    value.len() >= LONG_VALUE
}

/// Adds the text of the parts for a request to a page's body: each reference replaced by its value, and nothing else
/// changed. Values of `LONG_VALUE` bytes or more are parts of the request's fields or of the template. They are looked up
/// as by `value_by`.
///
/// `NoMemory` if an allocation fails, or if the body would have more than `most` bytes; it may have some of the text
/// then.
///
/// Source: ESI Language Specification 1.0, "Variables"; pieces and the limit are our profile.
pub fn push_values(
    alloc: Global,
    request: &Request,
    parts: &[Part],
    body: &mut PageBody,
    most: usize,
    lookups: &mut Lookups,
) -> Result<(), NoMemory>
    ensures pieces { OnOk result (body.new ≡ with_pieces body.old (value_pieces request.now [] parts.now)) }
    ensures few { OnOk result (length (joined body.new) ≤ most) }
{
    let mut run = Vec::new(alloc);
    for part in parts {
        push_value(alloc, request, part, &mut run, body, lookups)?;
        if body.len().saturating_add(run.len()) > most {
            return Err(NoMemory);
        }
    }
    body.push(SharedBytes::of(run)?)?;
    if body.len() > most {
        return Err(NoMemory);
    }
    Ok(())
}

// Adds what a part denotes, with the run of short values before it: to the run if it is short, else to the body.
fn push_value(
    alloc: Global,
    request: &Request,
    part: &Part,
    run: &mut Vec<u8>,
    body: &mut PageBody,
    lookups: &mut Lookups,
) -> Result<(), NoMemory>
    ensures { OnOk result ((parts : List Part) → with_pieces body.new (value_pieces request.now run.new.items parts)
        ≡ with_pieces body.old (value_pieces request.now run.old.items (part.now ∷ parts))) }
{
    let value = part_value(request, part, lookups);
    if !is_long(value) {
        run.extend_from_slice(value)?;
        return Ok(());
    }
    let before = mem::replace(run, Vec::new(alloc));
    body.push(SharedBytes::of(before)?)?;
    body.push(shared_part(alloc, request, part, lookups)?)
}

// What a part denotes, for one more owner.
fn shared_part(
    alloc: Global,
    request: &Request,
    part: &Part,
    lookups: &mut Lookups,
) -> Result<SharedBytes, NoMemory>
    ensures { IfOk result (λ value. value ≡ part_value request.now part.now) }
{
    match part {
        Part::Text(bytes) => bytes.share(),
        Part::Reference(reference) => shared_value(alloc, request, reference, lookups),
    }
}
