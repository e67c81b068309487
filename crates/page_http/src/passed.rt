//! Which edges a request has passed.
ghost use Rattle.std.specs.Prelude.{◌≡◌, IfOk};
ghost use Rattle.page_http.specs.Passed as spec;

use crate::field::{Field, joined_values};
use edge_types::{NoMemory, around, trimmed};
use std::alloc::Global;

const CDN_LOOP: &[u8] = b"cdn-loop";

/// Whether a request with these lines has passed an edge of this name: a member of one of its lines of `CDN-Loop` is the
/// name, whatever parameters follow it. Takes no memory.
///
/// Source: RFC 8586, "The CDN-Loop Request Header Field".
#[tactic(auto, unfolding(crate::specs::Passed::has_passed))]
pub fn has_passed(name: &[u8], fields: &[Field<'_>]) -> bool
    ensures { result ≡ spec.has_passed name.now fields.now }
{
    fields
        .iter()
        .any(|field| field.name == CDN_LOOP && lists(name, field.value))
}

/// All edges that a request with these lines has passed, the latest one last: the values of its lines of `CDN-Loop`,
/// joined by `, ` in their order. Empty if there is no such line, which takes no memory.
///
/// `NoMemory` if an allocation fails.
///
/// Source: RFC 8586, "The CDN-Loop Request Header Field"; RFC 9110, "Field Lines and Combined Field Value".
pub fn passed_edges(alloc: Global, fields: &[Field<'_>]) -> Result<Vec<u8>, NoMemory>
    ensures { IfOk result (λ edges. edges.items ≡ spec.passed_edges fields.now) }
{
    joined_values(alloc, CDN_LOOP, b", ", fields)
}

// Whether a member of the list names this edge.
fn lists(name: &[u8], value: &[u8]) -> bool
    ensures { result ≡ spec.lists name.now value.now }
{
    value
        .split(|byte| *byte == b',')
        .any(|member| edge_of(member) == name)
}

// The edge that a member of the list names.
#[tactic(auto, unfolding(crate::specs::Passed::edge_of))]
fn edge_of(member: &[u8]) -> &[u8]
    ensures { result.now ≡ spec.edge_of member.now }
{
    match around(b';', member) {
        Some((edge, _)) => trimmed(edge),
        None => trimmed(member),
    }
}
