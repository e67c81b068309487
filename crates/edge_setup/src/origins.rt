//! The origins that the words of `serve` name.
ghost use Rattle.std.specs.Prelude.{◌≡◌, map, not, [], ◌∷◌, ◌++◌, Some, IfOk, IsTrue};
ghost use Rattle.clap.specs.Words.{found_of, rows_of};
ghost use Rattle.edge_setup.specs.Options.{all_words_said};
ghost use Rattle.edge_setup.specs.Origins as spec;
ghost use Rattle.edge_setup.specs.declared.word.Word.TheVariants as word;

use crate::origin::{OriginFault, origin_of};
use crate::setup::Origin;
use crate::word::Word;
use clap::ArgMatches;
use std::alloc::{AllocError, Global};

/// The origins that `--origin` names, or what is wrong with its words.
pub(crate) fn origins_of(
    alloc: Global,
    matches: &ArgMatches<'_>,
) -> Result<Result<Vec<Origin>, OriginFault>, AllocError>
    ensures { IfOk result (spec.AreFound (all_words_said word.Origin (rows_of (found_of matches.now)))) }
{
    match Word::Origin.all_said(matches) {
        Some(words) => origins_in(alloc, words),
        None => Ok(Ok(Vec::new(alloc))),
    }
}

// The origins that the words name.
fn origins_in(alloc: Global, words: &[&str]) -> Result<Result<Vec<Origin>, OriginFault>, AllocError>
    ensures { IfOk result (spec.AreFound (Some (map (λ word. word.now) words.now))) }
{
    let mut origins = Vec::new(alloc);
    for word in words {
        let origin = match origin_of(alloc, word.as_bytes())? {
            Ok(origin) => origin,
            Err(fault) => return Ok(Err(fault)),
        };
        if !add(&mut origins, origin)? {
            return Ok(Err(OriginFault::Twice));
        }
    }
    Ok(Ok(origins))
}

// Adds an origin, if no other has its authority.
fn add(origins: &mut Vec<Origin>, origin: Origin) -> Result<bool, AllocError>
    ensures new { IfOk result (λ added. added ≡ not (spec.has origin.authority.items origins.old.items)) }
    ensures more { IfOk result (λ added. IsTrue added → origins.new.items ≡ origins.old.items ++ origin ∷ []) }
{
    if has(origins.as_slice(), origin.authority.as_slice()) {
        return Ok(false);
    }
    match origins.push(origin) {
        Ok(()) => Ok(true),
        Err(_) => Err(AllocError),
    }
}

// Whether an origin has this authority.
fn has(origins: &[Origin], authority: &[u8]) -> bool
    ensures { result ≡ spec.has authority.now origins.now }
{
    origins
        .iter()
        .any(|origin| origin.authority.as_slice() == authority)
}
