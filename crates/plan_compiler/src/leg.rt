//! Legs: sources that are tried. Clauses see the parts of a leg's source.
ghost use Rattle.std.specs.Prelude.{◌≡◌, IfOk};
ghost use Rattle.edge_types.specs.Asked.{resolve};
ghost use Rattle.esi_vars.specs.Values.{substituted};
ghost use Rattle.plan_compiler.specs.Legs.{IsResolved};

use edge_types::{NoMemory, PageUrl, Request};
use esi_meaning::leg_url;
use esi_tree::Parts;
use esi_vars::{Lookups, Part};
use std::alloc::Global;
use std::marker::Model;

/// The longest URL that a leg keeps: a template at a long URL can have many short sources, each of which denotes a URL
/// as long.
const MAX_KEPT: usize = 256;

/// What a source without references denotes in a template at a base, whatever the request is.
#[derive(Drop)]
struct Resolved {
    base: PageUrl,
    url: PageUrl,
}

impl Resolved {
    // What is kept of a source in a template at this base: its URL, if no request changes it and it isn't long.
    fn of(alloc: Global, base: &PageUrl, source: &[Part]) -> Result<Option<Resolved>, NoMemory>
        ensures { IfOk result (λ kept. IsResolved source.now kept) }
    {
        let [part] = source else {
            return Ok(None);
        };
        let Part::Text(text) = part else {
            return Ok(None);
        };
        match base.resolve(alloc, text.as_bytes())? {
            Some(url) if url.as_bytes().len() <= MAX_KEPT => Ok(Some(Resolved {
                base: base.share()?,
                url,
            })),
            _ => Ok(None),
        }
    }
}

/// A source, a `src` or an `alt`, that is tried. If it has no references and is used in the template that it was made
/// for, its URL is parsed once.
#[derive(Drop)]
pub struct Leg {
    source: Parts,
    resolved: Option<Resolved>,
}

impl Model for Leg {
    ghost use Rattle.std.specs.Prelude.{List};
    ghost use Rattle.esi_vars.specs.declared.part.Part.{Part};
    ghost use Rattle.plan_compiler.specs.Legs.{IsResolved};

    ghost Value = { List Part };

    ghost view = { λ leg. leg.source };

    ghost invariant = { λ leg. IsResolved leg.source leg.resolved };
}

impl Leg {
    // The leg of this source in a template at this base.
    pub(crate) fn of(alloc: Global, base: &PageUrl, source: &Parts) -> Result<Leg, NoMemory>
        ensures { IfOk result (λ leg. leg ≡ source.now) }
    {
        Ok(Leg {
            source: source.share()?,
            resolved: Resolved::of(alloc, base, source.as_slice())?,
        })
    }

    /// Lends the parts of its source, in the text's order. Takes no memory.
    pub fn source(&self) -> &[Part]
        ensures { result.now ≡ self.now }
    {
        self.source.as_slice()
    }

    /// Whether it keeps a URL. Takes no memory.
    pub fn keeps_url(&self) -> bool {
        self.resolved.is_some()
    }

    /// The URL that its source denotes, its references replaced, in a template at this base; `None` as in
    /// `PageUrl::resolve`. `NoMemory` if an allocation fails. The lookups change no URL.
    ///
    /// Source: ESI Language Specification 1.0, "include" and "Variables".
    pub fn url(
        &self,
        alloc: Global,
        request: &Request,
        base: &PageUrl,
        lookups: &mut Lookups,
    ) -> Result<Option<PageUrl>, NoMemory>
        ensures { IfOk result (λ found. found ≡ resolve base.now (substituted request.now self.now)) }
    {
        match &self.resolved {
            Some(kept) if kept.base == *base => Ok(Some(kept.url.share()?)),
            _ => leg_url(alloc, request, base, self.source.as_slice(), lookups),
        }
    }
}
