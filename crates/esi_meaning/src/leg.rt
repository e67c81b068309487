//! The URL of a leg.
ghost use Rattle.std.specs.Prelude.{◌≡◌, IfOk};
ghost use Rattle.edge_types.specs.Asked.{resolve};
ghost use Rattle.esi_vars.specs.Values.{substituted};

use edge_types::{MAX_TEXT, NoMemory, PageUrl, Request};
use esi_vars::{Lookups, Part, substitute_within};
use std::alloc::Global;

/// The URL that a source denotes, its references replaced, in a template at this base; `None` as in
/// `PageUrl::resolve`. `NoMemory` if an allocation fails. The lookups change no URL.
///
/// Source: ESI Language Specification 1.0, "include" and "Variables".
//
// A text that gets too long to be resolved is given up while it is made: a long field of the request
// can be asked for many times in one text.
pub fn leg_url(
    alloc: Global,
    request: &Request,
    base: &PageUrl,
    source: &[Part],
    lookups: &mut Lookups,
) -> Result<Option<PageUrl>, NoMemory>
    ensures { IfOk result (λ found. found ≡ resolve base.now (substituted request.now source.now)) }
{
    match substitute_within(alloc, request, source, MAX_TEXT, lookups)? {
        Some(text) => base.resolve(alloc, text.as_slice()),
        None => Ok(None),
    }
}
