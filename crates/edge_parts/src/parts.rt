//! Where the pages of a server come from, and where they are reported.

use crate::lookups::{Known, Lookups};
use crate::server_options::{Fetches, ServerOptions};
use edge_commands::Status;
use edge_reports::{AccessLog, Connections, Kept, Measures, MonotonicSeconds, Reports};
use edge_setup::{Flag, Origin, Place};
use edge_types::{NoMemory, SharedBytes};
use failed_answers::{SharedFailures, SparingSource};
use fragment_cache::UrlHashing;
use hyper_source::HyperSource;
use origin_http::EdgeName;
use origins::{Bounds, FetchNotes};
use shared_cache::Cache;
use std::alloc::{AllocGlobal, Global};
use std::fs::File;
use std::io::Eprint;
use std::mem;
use std::net::Net;
use std::random::RandomSource;
use std::rt::Files;
use std::sync::Arc;
use std::time::Clock;

/// What a server is made of beside its service and its sockets.
#[derive(Drop)]
pub struct Parts {
    /// What is kept of answers, over what fetches them.
    pub cache: Arc<Kept>,
    /// Where requests are reported.
    pub reports: Arc<Reports>,
    /// What looks the names of origins up again, if that is asked for.
    pub lookups: Option<Lookups>,
}

impl Parts {
    /// What these options ask for. The origins, and the prefixes of private URLs, are taken out of them.
    pub fn of<R>(rt: &R, options: &mut ServerOptions) -> Result<Parts, Status>
    where
        R: RandomSource + AllocGlobal + Clock + Net + Eprint + Files<File = File>,
    {
        let origins = mem::replace(&mut options.origins, Vec::new(rt.alloc()));
        let (source, lookups) = source_of(rt, origins, options.fetches)?;
        let source = named(rt, source, options.name.as_ref())?;
        let source = heeding(rt, source, options)?;
        let source = apart(rt, source, options)?;
        let notes = source.notes()?;
        let cache = cache_of(rt, source, options)?;
        let reports = reports_of(rt, notes, owner_of(&cache)?, options)?;
        Ok(Parts {
            cache,
            reports,
            lookups,
        })
    }
}

// Where requests are reported, of what comes from this cache, whose fetches are noted so.
fn reports_of<R>(
    rt: &R,
    notes: Arc<FetchNotes>,
    cache: Arc<Kept>,
    options: &ServerOptions,
) -> Result<Arc<Reports>, NoMemory>
where
    R: AllocGlobal + Clock + Files<File = File>,
{
    let reports = Reports {
        log: AccessLog::new(rt.alloc(), options.log),
        connections: Connections::new(),
        fetches: notes,
        cache,
        measures: measures_of(rt, options.addresses.admin.is_some())?,
    };
    Ok(Arc::new(rt.alloc(), reports)?)
}

// What is measured for the operator, where there is one.
fn measures_of<R>(rt: &R, has_operator: bool) -> Result<Option<Measures>, NoMemory>
where
    R: AllocGlobal + Clock + Files<File = File>,
{
    if !has_operator {
        return Ok(None);
    }
    Ok(Some(Measures::new(rt)?))
}

// What fetches from the origins, and what looks their names up again, if that is asked for.
fn source_of<R>(
    rt: &R,
    origins: Vec<Origin>,
    fetches: Fetches,
) -> Result<(HyperSource, Option<Lookups>), Status>
where
    R: RandomSource + AllocGlobal + Net + Eprint,
{
    let alloc = rt.alloc();
    let Known { origins, places } = Known::now(rt, origins)?;
    let lookups = lookups_of(alloc, places, origins.as_slice(), fetches.lookup)?;
    let source = HyperSource::new(rt, alloc, origins, fetches.limit)?
        .keeping(fetches.idle)
        .holding(fetches.bodies);
    let source = bounded(alloc, source, fetches.bounds)?;
    let source = match &lookups {
        Some(lookups) => source.following(lookups.standings()?),
        None => source,
    };
    Ok((source, lookups))
}

// What looks the names of origins up again, with so many seconds between two rounds; 0 where nothing does.
fn lookups_of(
    alloc: Global,
    places: Vec<Place>,
    origins: &[origins::Origin],
    seconds: u32,
) -> Result<Option<Lookups>, NoMemory> {
    if seconds == 0 {
        return Ok(None);
    }
    Ok(Some(Lookups::of(alloc, places, origins, seconds)?))
}

// The same, with these bounds, where there are some.
fn bounded(
    alloc: Global,
    source: HyperSource,
    bounds: Option<Bounds>,
) -> Result<HyperSource, NoMemory> {
    match bounds {
        Some(bounds) => source.bounded(alloc, bounds),
        None => Ok(source),
    }
}

// The same, for an edge with a name.
fn named(
    rt: &impl AllocGlobal,
    source: HyperSource,
    name: Option<&Vec<u8>>,
) -> Result<HyperSource, Status> {
    let Some(name) = name else {
        return Ok(source);
    };
    match EdgeName::of(rt.alloc(), name.as_slice())? {
        Some(name) => Ok(source.named(name)),
        None => Ok(source),
    }
}

// The same, which sends the fields that the options ask for, and reads of answers what they ask for: fields for readers of
// pages, how long caches may keep them, and whether errors may be templates.
fn heeding(
    rt: &impl AllocGlobal,
    source: HyperSource,
    options: &ServerOptions,
) -> Result<HyperSource, NoMemory> {
    let mut source = source.sending(options.send_fields.share()?);
    if let Some(names) = &options.pass_fields {
        source = source.passing(SharedBytes::copy_of(rt.alloc(), names.as_slice())?);
    }
    if options.flags.has(Flag::CacheControl) {
        source = source.heeding_cache_control();
    }
    if options.flags.has(Flag::ProcessErrors) {
        source = source.processing_errors();
    }
    Ok(source)
}

// The same, to which the URLs are private that the options name so. Their prefixes are taken out of them.
fn apart(
    rt: &impl AllocGlobal,
    source: HyperSource,
    options: &mut ServerOptions,
) -> Result<HyperSource, NoMemory> {
    let alloc = rt.alloc();
    let prefixes = mem::replace(&mut options.private.prefixes, Vec::new(alloc));
    source.apart(alloc, prefixes)
}

// What is stored, over this source, of which URLs that failed rest.
fn cache_of<R>(rt: &R, source: HyperSource, options: &ServerOptions) -> Result<Arc<Kept>, Status>
where
    R: RandomSource + AllocGlobal,
{
    let alloc = rt.alloc();
    let failures = SharedFailures::new(alloc, options.fetches.url_rest)?;
    let spared = SparingSource::new(source, MonotonicSeconds, failures);
    let hashing = UrlHashing::secret(rt)?;
    let kept = Cache::hashed(alloc, spared, MonotonicSeconds, options.capacity, hashing)?;
    let kept = kept.bounded(options.fetches.crowd);
    match Arc::new(alloc, kept) {
        Ok(shared) => Ok(shared),
        Err(_) => Err(Status::NoMemory),
    }
}

// A second owner of it.
fn owner_of(cache: &Arc<Kept>) -> Result<Arc<Kept>, Status> {
    match Arc::try_clone(cache) {
        Ok(owner) => Ok(owner),
        Err(_) => Err(Status::NoMemory),
    }
}
