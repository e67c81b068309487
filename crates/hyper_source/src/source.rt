//! A source that fetches from origins.

ghost use Rattle.std.specs.Prelude.{◌≡◌, [], ◌++◌, map, nat_lt, IfOk, Some, None, true, option_map};
ghost use Rattle.std.specs.Arc.{arc_value};
ghost use Rattle.edge_types.specs.Asked.{authority_of};
ghost use Rattle.http.specs.Request.{head_of};
ghost use Rattle.http_header.specs.HeaderMap.{append_all};
ghost use Rattle.surrogate_headers.specs.Capability.{capability_of};
ghost use Rattle.origin_http.specs.Asking as asking;
ghost use Rattle.origin_http.specs.Names.{device_of};
ghost use Rattle.origin_http.specs.Private as spec;

mod concurrent;

use crate::origin_runtime::OriginRuntime;
use crate::pool::Pool;
use answer_sources::{Answers, Behalf, Given, OnBehalf, Source, fetch_or_fail};
use bytes::Bytes;
use edge_sockets::IdlePollers;
use edge_types::{Answer, HeadField, HeadFields, NoMemory, PageUrl, SharedBytes};
use fetch_outcomes::{FetchFault, Lost};
use http::Request;
use http_body_util::Empty;
use origin_fetches::Errand;
use origin_health::FetchEnd;
use origin_http::{
    BodyLimits, EdgeName, Fetched, HeadRules, Response, answered, copy_of, device_of, is_private,
    request_of, told_for, way_behind, whole, with_fields,
};
use origin_lookup::SharedStandings;
use origins::{Bounds, Chosen, FetchNotes, Origin, OriginGate, gates_of, origin_for};
use std::alloc::Global;
use std::hash::RandomState;
use std::io;
use std::random::RandomSource;
use std::sync::{Arc, Wait};
use std::time::{Clock, Duration};

/// A source that fetches from origins over HTTP: for each URL one `GET`, which names the host and says what
/// this edge can do, by its name if it has one, and nothing of the client but which edges its request has passed, and, for
/// private URLs alone, fields of his own (`on_behalf`). Each has a connection of its own, unless some are kept (`keeping`).
///
/// An answer can't be fetched, and is a failed one, if no origin has the URL's authority, if the
/// socket or HTTP fails (also by the time limit), if the body ends before its length, is coded or
/// longer than it may be (`holding`), and if no answer may have the status, or the fields that are to reach a page's
/// reader (`passing`).
///
/// Each fetch is noted at its end, by the origin that was asked (`notes`).
///
/// A content type that no answer may have counts as empty; several lines of `Surrogate-Control` count
/// as one, joined by `, `. An answer that only the close of its connection ends is never to be stored.
///
/// Source: RFC 9110, "GET", "Host and :authority" and "Accept-Encoding"; RFC 9112,
/// "Message Body Length"; Edge Architecture Specification 1.0,
/// "Surrogate-Capability Request Header" and "Surrogate-Control Header"; our profile.
pub struct HyperSource {
    shared: Arc<Shared>,
    limit: Option<Duration>,
    keys: RandomState,
    name: Option<EdgeName>,
    // The edges through which requests go, where that isn't this one alone.
    way: Option<Vec<u8>>,
    // The prefixes of private URLs.
    private: Arc<Vec<PageUrl>>,
    // The reader's own fields, for private URLs alone.
    own: HeadFields,
    // The fields that each request has.
    sent: HeadFields,
    limits: BodyLimits,
    pool: Pool,
    // Where origins listen, if their names are looked up again.
    standings: Option<Arc<SharedStandings>>,
    // Of each address, where fetches are bounded.
    gates: Arc<Vec<OriginGate>>,
    // The names of the fields that readers get.
    passed: SharedBytes,
    heeds_cache_control: bool,
    processes_errors: bool,
}

// By hand, so that who drops a source needs no proof of what it is made of.
impl Drop for HyperSource {
    fn drop(self) {
        let HyperSource {
            shared: _,
            limit: _,
            keys: _,
            name: _,
            way: _,
            private: _,
            own: _,
            sent: _,
            limits: _,
            pool: _,
            standings: _,
            gates: _,
            passed: _,
            heeds_cache_control: _,
            processes_errors: _,
        } = self;
    }
}

// What sources for other requests use too.
#[derive(Drop)]
struct Shared {
    origins: Vec<Origin>,
    pollers: IdlePollers,
    notes: Arc<FetchNotes>,
}

impl HyperSource {
    /// A source that fetches from these origins, for an authority from the first that has it; one with the
    /// authority `*` is asked if no other has the authority. A fetch may take this long from
    /// connecting to the last byte; without a limit, as long as the origin takes.
    ///
    /// Refused if the system has no keys for the maps of fields, or an allocation fails.
    pub fn new(
        rt: &impl RandomSource,
        alloc: Global,
        origins: Vec<Origin>,
        limit: Option<Duration>,
    ) -> io::Result<HyperSource> {
        let notes = FetchNotes::new(alloc, origins.as_slice())?;
        let pool = Pool::new(alloc, origins.as_slice())?;
        let shared = Shared {
            origins,
            pollers: IdlePollers::new(alloc),
            notes: Arc::new(alloc, notes)?,
        };
        Ok(HyperSource {
            shared: Arc::new(alloc, shared)?,
            limit,
            keys: RandomState::new(rt)?,
            name: None,
            way: None,
            private: Arc::new(alloc, Vec::new(alloc))?,
            own: HeadFields::none(),
            sent: HeadFields::none(),
            limits: BodyLimits::unset(),
            pool,
            standings: None,
            gates: Arc::new(alloc, Vec::new(alloc))?,
            passed: SharedBytes::new(),
            heeds_cache_control: false,
            processes_errors: false,
        })
    }

    /// The same source for an edge with this name: its requests say so by `cdn-loop`, so that an edge knows
    /// its own, and origins address it by this name in place of `own_device`.
    ///
    /// Source: RFC 8586, "The CDN-Loop Request Header Field".
    pub fn named(mut self, name: EdgeName) -> HyperSource
        ensures { result ≡ record self { name = Some name } }
    {
        self.name = Some(name);
        self
    }

    /// The same source, which keeps idle connections to origins, at most this many to each address, for some
    /// seconds: a later fetch uses one of them. No two fetches use one at a time.
    ///
    /// What an origin sends unasked, after the look for it and before the response, is taken as the
    /// response: so connections should be kept only to origins that are trusted. Where such bytes are seen in time, the idle
    /// connections to the address are closed, and none is kept for a minute.
    ///
    /// Source: RFC 9112, "Persistence".
    pub fn keeping(mut self, most: u16) -> HyperSource
        ensures { result ≡ record self { pool = record self.pool { most = most } } }
    {
        self.pool.most = most;
        self
    }

    /// The same source, to which URLs are private that begin with one of these.
    ///
    /// `NoMemory` if an allocation fails.
    ///
    /// Our profile.
    pub fn apart(mut self, alloc: Global, prefixes: Vec<PageUrl>) -> Result<HyperSource, NoMemory>
        ensures prefixes { IfOk result (λ source. arc_value source.private ≡ prefixes) }
        ensures others { IfOk result (λ source. source ≡ record self { private = source.private }) }
    {
        self.private = Arc::new(alloc, prefixes)?;
        Ok(self)
    }

    /// The same source, whose bodies may be so long. A longer one is a failed answer.
    ///
    /// Our profile.
    pub fn holding(mut self, limits: BodyLimits) -> HyperSource
        ensures { result ≡ record self { limits = limits } }
    {
        self.limits = limits;
        self
    }

    /// The same source, each of whose requests has these fields behind its own, so that what an origin answers still
    /// depends on the URL alone.
    ///
    /// Our profile.
    pub fn sending(mut self, fields: HeadFields) -> HyperSource
        ensures { result ≡ record self { sent = fields } }
    {
        self.sent = fields;
        self
    }

    /// The same source, which connects to each origin where these standings say, and tells them of each to which a
    /// connection can't be made. Bounds and kept connections go on by the addresses of the start.
    ///
    /// Our profile.
    pub fn following(mut self, standings: Arc<SharedStandings>) -> HyperSource
        ensures { result ≡ record self { standings = Some standings } }
    {
        self.standings = Some(standings);
        self
    }

    /// The same source with these bounds for the fetches to each address. A fetch that is one too many, or is to
    /// an origin that rests, isn't made: its answer is a failed one at once. Before that as many wait as may, each until
    /// all who asked before have gone, and no longer than half the time that a fetch may take.
    pub fn bounded(mut self, alloc: Global, bounds: Bounds) -> Result<HyperSource, NoMemory> {
        let gates = gates_of(alloc, self.shared.origins.as_slice(), bounds)?;
        self.gates = Arc::new(alloc, gates)?;
        Ok(self)
    }

    /// The same source, whose answers have in their heads the lines of these fields, as they came: names, with commas
    /// between and blanks around them, in any case. Of `set-cookie` only those of private URLs. Those that describe the
    /// bytes of a template (`etag`, `last-modified`, `accept-ranges`, `content-md5`, `digest`, `content-digest`,
    /// `repr-digest`) are left out where the body is one. An answer whose names and values have more than `MAX_FIELDS`
    /// bytes is a failed one.
    pub fn passing(mut self, names: SharedBytes) -> HyperSource
        ensures { result ≡ record self { passed = names } }
    {
        self.passed = names;
        self
    }

    /// The same source, for which `s-maxage` and `stale-if-error` of `Cache-Control` count where `Surrogate-Control` says
    /// neither `max-age` nor `no-store`.
    ///
    /// Source: RFC 9111, "s-maxage"; RFC 5861, "The stale-if-error Cache-Control Extension".
    pub fn heeding_cache_control(mut self) -> HyperSource
        ensures { result ≡ record self { heeds_cache_control = true } }
    {
        self.heeds_cache_control = true;
        self
    }

    /// The same source, for which the body of an error, of status 400 to 599, may be a template too: a page is then
    /// made of it under that status. A fragment under an error is none, whatever its body.
    ///
    /// Our profile.
    pub fn processing_errors(mut self) -> HyperSource
        ensures { result ≡ record self { processes_errors = true } }
    {
        self.processes_errors = true;
        self
    }

    // Whether answers of a URL are for one request alone.
    fn has_private(&self, url: &PageUrl) -> bool
        ensures { result ≡ spec.is_private (arc_value self.now.private).items url.now }
    {
        is_private(self.private.as_slice(), url)
    }

    // How this source reads the responses for a URL.
    fn rules(&self, url: &PageUrl) -> HeadRules<'_>
        ensures device { result.device.now ≡ device_of self.now.name }
        ensures passed { result.passed.now ≡ self.now.passed }
        ensures private { result.is_private ≡ spec.is_private (arc_value self.now.private).items url.now }
        ensures heeds { result.heeds_cache_control ≡ self.now.heeds_cache_control }
        ensures errors { result.processes_errors ≡ self.now.processes_errors }
        ensures limits { result.limits ≡ self.now.limits }
    {
        HeadRules {
            device: device_of(&self.name),
            passed: self.passed.as_bytes(),
            is_private: self.has_private(url),
            heeds_cache_control: self.heeds_cache_control,
            processes_errors: self.processes_errors,
            limits: self.limits,
        }
    }

    /// One more owner of what this source, and all that are made of it `on_behalf` of others, note of their fetches.
    ///
    /// `NoMemory` if one more owner can't be made.
    pub fn notes(&self) -> Result<Arc<FetchNotes>, NoMemory> {
        Ok(Arc::try_clone(&self.shared.notes)?)
    }

    // The same source for a request that goes this way, of a reader with these fields of his own.
    fn behind(
        &self,
        alloc: Global,
        way: Option<Vec<u8>>,
        own: &HeadFields,
    ) -> Result<HyperSource, NoMemory>
        ensures shared { IfOk result (λ source. arc_value source.shared ≡ arc_value self.now.shared) }
        ensures limit { IfOk result (λ source. source.limit ≡ self.now.limit) }
        ensures name { IfOk result (λ source. source.name ≡ self.now.name) }
        ensures way { IfOk result (λ source. source.way ≡ way) }
        ensures private { IfOk result (λ source. arc_value source.private ≡ arc_value self.now.private) }
        ensures own { IfOk result (λ source. source.own ≡ own.now) }
        ensures sent { IfOk result (λ source. source.sent ≡ self.now.sent) }
        ensures limits { IfOk result (λ source. source.limits ≡ self.now.limits) }
        ensures pool { IfOk result (λ source. (source.pool.most ≡ self.now.pool.most) × (arc_value source.pool.shared ≡ arc_value self.now.pool.shared)) }
        ensures standings { IfOk result (λ source. option_map arc_value source.standings ≡ option_map arc_value self.now.standings) }
        ensures gates { IfOk result (λ source. arc_value source.gates ≡ arc_value self.now.gates) }
        ensures heads { IfOk result (λ source. (source.passed ≡ self.now.passed) × (source.heeds_cache_control ≡ self.now.heeds_cache_control) × (source.processes_errors ≡ self.now.processes_errors)) }
    {
        Ok(HyperSource {
            shared: Arc::try_clone(&self.shared)?,
            limit: self.limit,
            keys: self.keys,
            name: copy_of(alloc, &self.name)?,
            way,
            private: Arc::try_clone(&self.private)?,
            own: own.share()?,
            sent: self.sent.share()?,
            limits: self.limits,
            pool: self.pool.share()?,
            standings: owner_of(&self.standings)?,
            gates: Arc::try_clone(&self.gates)?,
            passed: self.passed.share()?,
            heeds_cache_control: self.heeds_cache_control,
            processes_errors: self.processes_errors,
        })
    }

    // The origin that is asked for a URL, where it listens now.
    fn origin_of<R: Wait>(&self, rt: &R, url: &PageUrl) -> Option<Chosen> {
        let chosen = origin_for(self.shared.origins.as_slice(), url.authority())?;
        Some(self.now_at(rt, chosen))
    }

    // The same origin, where it listens now.
    fn now_at<R: Wait>(&self, rt: &R, chosen: Chosen) -> Chosen
        ensures place { result.place ≡ chosen.place }
        ensures address { result.address ≡ chosen.address }
        ensures fixed { self.now.standings ≡ None → result ≡ chosen }
    {
        let Some(standings) = &self.standings else {
            return chosen;
        };
        match standings.address_at(rt, chosen.place) {
            Some(now) => Chosen { now, ..chosen },
            None => chosen,
        }
    }

    // Tells of an origin to which no connection could be made.
    fn told_end<R: Wait>(&self, rt: &R, origin: Chosen, end: FetchEnd) {
        if let (Some(standings), FetchEnd::Unreachable) = (&self.standings, end) {
            standings.lose(rt, origin.place);
        }
    }

    // What is to be fetched for a URL, if it has an origin.
    fn errand(
        &self,
        clock: &impl Clock,
        url: &PageUrl,
        origin: Option<Chosen>,
    ) -> Result<Errand, Lost> {
        let Some(origin) = origin else {
            return Err(Lost::Fault(FetchFault::NoOrigin));
        };
        let Ok(url) = url.share() else {
            return Err(Lost::NoMemory);
        };
        Errand::begun(clock, url, origin, self.limit)
    }

    // Which of the reader's own fields an origin is told for a URL.
    fn told_for(&self, url: &PageUrl) -> &[HeadField]
        ensures { result.now ≡ spec.told_for (spec.is_private (arc_value self.now.private).items url.now) self.now.own }
    {
        told_for(self.has_private(url), &self.own)
    }

    // What an origin is asked for a URL.
    fn request(&self, alloc: Global, url: &PageUrl) -> Result<Request<Empty<Bytes>>, Lost>
        ensures { IfOk result (λ request. (head_of request).headers ≡ append_all [] (asking.own_lines (authority_of url.now) (capability_of (device_of self.now.name)) (nat_lt 0 self.now.pool.most) (option_map (λ way. way.items) self.now.way) self.now.name
            ++ map asking.line_of self.now.sent ++ map asking.line_of (spec.told_for (spec.is_private (arc_value self.now.private).items url.now) self.now.own))) }
    {
        let request = request_of(alloc, url, &self.name, &self.way, self.pool.keeps())?;
        let request = with_fields(request, self.sent.as_slice());
        whole(with_fields(request, self.told_for(url)))
    }

    // The answer that a fetch results in, once that is noted.
    fn noted<R: Wait>(
        &self,
        rt: &R,
        alloc: Global,
        url: &PageUrl,
        origin: Option<Chosen>,
        came: Response,
    ) -> Result<Arc<Answer>, NoMemory>
        ensures { IfOk result (λ answer. (arc_value answer).url ≡ url.now) }
    {
        let Fetched { answer, fault } = answered(alloc, url, self.rules(url), came)?;
        let answer = Arc::new(alloc, answer)?;
        let place = origin.map(|origin| origin.place);
        self.shared.notes.note(rt, url, place, fault);
        Ok(answer)
    }
}

// One more owner of standings.
fn owner_of(
    standings: &Option<Arc<SharedStandings>>,
) -> Result<Option<Arc<SharedStandings>>, NoMemory>
    ensures { IfOk result (λ more. option_map arc_value more ≡ option_map arc_value standings.now) }
{
    match standings {
        Some(standings) => Ok(Some(Arc::try_clone(standings)?)),
        None => Ok(None),
    }
}

impl<R> Answers<R> for HyperSource {
    ghost use Rattle.std.specs.Prelude.{◌≡◌};

    ghost gives = { λ _ url answer. answer.url ≡ url };

    ghost names_url = { λ _ _ _ named. named };

    ghost private = { λ source url. spec.is_private (arc_value source.private).items url };

    fn is_private(&self, url: &PageUrl) -> bool {
        self.has_private(url)
    }
}

impl<R: OriginRuntime> Source<R> for HyperSource {
    fn fetch(&self, rt: &R, alloc: Global, url: &PageUrl) -> Result<Given, NoMemory> {
        fetch_or_fail(self, rt, alloc, url)
    }
}

impl<R> OnBehalf<R> for HyperSource {
    fn on_behalf(
        &self,
        alloc: Global,
        behalf: Behalf<'_>,
    ) -> Result<Option<HyperSource>, NoMemory> {
        let way = way_behind(alloc, behalf.passed, &self.name)?;
        if way.is_none() && behalf.own.as_slice().is_empty() {
            return Ok(None);
        }
        Ok(Some(self.behind(alloc, way, behalf.own)?))
    }
}
