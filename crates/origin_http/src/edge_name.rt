//! The name of an edge.

ghost use Rattle.std.specs.Prelude.{◌≡◌, option_map, IfOk};
ghost use Rattle.surrogate_headers.specs.Capability.{capability_of};
ghost use Rattle.origin_http.specs.Names as spec;

use edge_types::{NoMemory, is_token};
use std::alloc::Global;
use std::marker::Model;
use surrogate_headers::{capability, own_capability, own_device};

/// The most characters that a name may have.
pub const MAX_NAME: usize = 64;

/// A name by which origins address this edge, and by which an edge knows its own requests. Clauses see the text.
///
/// Source: RFC 8586, "The CDN-Loop Request Header Field" (there a pseudonym); Edge Architecture Specification 1.0,
/// "Surrogate-Capability Request Header" (there a device token).
#[derive(Drop)]
pub struct EdgeName {
    token: Vec<u8>,
    // The value of `Surrogate-Capability`, which each request has.
    capability: Vec<u8>,
}

impl Model for EdgeName {
    ghost use Rattle.std.specs.Prelude.{◌≡◌, List, ℕ};
    ghost use Rattle.surrogate_headers.specs.Capability.{capability_of};
    ghost use Rattle.origin_http.specs.Names.{IsName};

    ghost Value = { List ℕ };

    ghost view = { λ n. n.token.items };

    ghost invariant = { λ n. IsName n.token.items × (n.capability.items ≡ capability_of n.token.items) };
}

impl EdgeName {
    ghost use Rattle.std.specs.Prelude.{◌≡◌, ◌↔◌, IsSome, IfOk, IfSome};
    ghost use Rattle.surrogate_headers.specs.Capability.{capability_of};
    ghost use Rattle.origin_http.specs.Names.{IsName};

    /// The name that a text is. `None` if it isn't a token (`edge_types::is_token`), or longer than `MAX_NAME`.
    ///
    /// Source: RFC 9110, "Tokens"; the length: our profile.
    pub fn of(alloc: Global, text: &[u8]) -> Result<Option<EdgeName>, NoMemory>
        ensures accepted { IfOk result (λ made. IsSome made ↔ IsName text.now) }
        ensures value { IfOk result (λ made. IfSome made (λ name. name ≡ text.now)) }
    {
        if text.len() > MAX_NAME || !is_token(text) {
            return Ok(None);
        }
        Ok(Some(EdgeName {
            token: text.to_vec(alloc)?,
            capability: capability(alloc, text)?,
        }))
    }

    /// Lends the text. Takes no memory.
    pub fn as_bytes(&self) -> &[u8]
        ensures value { result.now ≡ self.now }
        ensures is_name { IsName result.now }
    {
        self.token.as_slice()
    }

    /// A second one.
    pub(crate) fn copy(&self, alloc: Global) -> Result<EdgeName, NoMemory>
        ensures { IfOk result (λ copy. copy ≡ self.now) }
    {
        Ok(EdgeName {
            token: self.token.as_slice().to_vec(alloc)?,
            capability: self.capability.as_slice().to_vec(alloc)?,
        })
    }

    // What this edge says to origins that it can do.
    fn capability(&self) -> &[u8]
        ensures { result.now ≡ capability_of self.now }
    {
        self.capability.as_slice()
    }
}

/// A second name, if there is one.
pub fn copy_of(alloc: Global, name: &Option<EdgeName>) -> Result<Option<EdgeName>, NoMemory>
    ensures { IfOk result (λ copy. copy ≡ name.now) }
{
    match name {
        Some(name) => Ok(Some(name.copy(alloc)?)),
        None => Ok(None),
    }
}

/// The device for which this edge reads `Surrogate-Control`: its name, or else the token of every edge.
pub fn device_of(name: &Option<EdgeName>) -> &[u8]
    ensures { result.now ≡ spec.device_of name.now }
{
    match name {
        Some(name) => name.as_bytes(),
        None => own_device(),
    }
}

/// The value of `Surrogate-Capability` for that device.
pub(crate) fn capability_for(name: &Option<EdgeName>) -> &[u8]
    ensures { result.now ≡ capability_of (spec.device_of name.now) }
{
    match name {
        Some(name) => name.capability(),
        None => own_capability().1.as_bytes(),
    }
}

/// The way of a request that has passed these edges, a list as in `CDN-Loop`: through them, and then through the edge with
/// this name. An edge without a name says nothing of the way; nor is there anything to say where none was passed.
///
/// Source: RFC 8586, "The CDN-Loop Request Header Field".
pub fn way_behind(
    alloc: Global,
    passed: &[u8],
    name: &Option<EdgeName>,
) -> Result<Option<Vec<u8>>, NoMemory>
    ensures { IfOk result (λ way. option_map (λ way. way.items) way ≡ spec.way_behind passed.now name.now) }
{
    match name {
        Some(name) if !passed.is_empty() => {
            let mut way = passed.to_vec(alloc)?;
            way.extend_from_slice(b", ")?;
            way.extend_from_slice(name.as_bytes())?;
            Ok(Some(way))
        }
        _ => Ok(None),
    }
}
