//! What a server reports about the requests that it answered.

ghost use Rattle.std.specs.Prelude.{◌≡◌, ◌/◌, ◌-◌, ◌^◌, [], min, length, slice_get, option_map, Some, IfSome};
ghost use Rattle.std.specs.Arc.{arc_value};
ghost use Rattle.std.specs.Duration.{as_nanos};
ghost use Rattle.edge_types.specs.Pieces.{joined};
ghost use Rattle.access_log.specs.declared.record.Reason.TheVariants.{Unreadable};
ghost use Rattle.http.specs.Request as http;
ghost use Rattle.page_http.specs.Sent.{sent};
ghost use Rattle.edge_server.specs.Records.{IsCopyOrEmpty};

use crate::faults::fault_of;
use crate::page_service::Responded;
use access_log::{Fault, Reason, RequestRecord, Version};
use edge_connections::ServeEnd;
use edge_types::PageUrl;
use fetch_outcomes::FetchFault;
use http::Request;
use http::header::{HeaderName, REFERER, USER_AGENT};
use http_body::Body;
use std::alloc::Global;
use std::net::IpAddr;
use std::time::{Clock, Duration, Instant};

/// What each request that was answered is reported to, by the threads that serve, and each connection. A journal needn't
/// take note of connections.
///
/// Our profile.
pub trait Journal<R> {
    /// Whether requests are to be reported. If not, no record is made.
    fn is_enabled(&self) -> bool;

    /// A request was answered, and its response has been written or its connection has ended.
    fn served(&self, rt: &R, record: &RequestRecord);

    /// A connection was accepted.
    fn accepted(&self) {}

    /// A connection that was accepted has ended.
    fn ended(&self) {}

    /// An accept has failed, and not because the server was stopped; of several at the same time one counts.
    fn accept_failed(&self) {}

    /// Nobody is accepted any longer: the server ends so once each connection has ended. Told again and again from then on, by
    /// the thread that tells `tick`.
    fn closed(&self, _end: ServeEnd) {}

    /// A connection was parked: it waits for its client, and no thread holds it any longer.
    fn parked(&self) {}

    /// A connection that was parked isn't any longer: it is gone on with, or ended. Never told before `parked` of the
    /// same connection.
    fn unparked(&self) {}

    /// A moment has passed. Told some ten times a second, or more often, by one thread, which waits for nothing
    /// meanwhile.
    fn tick(&self, _rt: &R) {}

    /// Why the last fetch of this URL got no answer, where the journal knows. By default it doesn't.
    fn cause_of(&self, _rt: &R, _url: &PageUrl) -> Option<FetchFault> {
        None
    }
}

/// No journal. It costs nothing.
#[derive(Clone, Copy)]
pub struct NoJournal;

impl<R> Journal<R> for NoJournal {
    fn is_enabled(&self) -> bool {
        false
    }

    fn served(&self, _rt: &R, _record: &RequestRecord) {}
}

/// A request that was answered and is to be reported: when its head had come, and how it was answered.
#[derive(Drop)]
pub(crate) struct Unreported {
    pub begun: Instant,
    pub record: RequestRecord,
}

impl Unreported {
    /// Reports it to a journal, now that the response has been written or the connection has ended.
    pub(crate) fn report<R: Clock, J: Journal<R>>(self, rt: &R, journal: &J) {
        let Unreported { begun, mut record } = self;
        if let Ok(taken) = begun.elapsed(rt) {
            record.micros = micros_of(taken);
        }
        journal.served(rt, &record);
    }
}

/// The record of how a request of this client was answered, but for the time that it took. Why a fetch failed is asked of
/// the journal.
pub(crate) fn record_of<R, J: Journal<R>, B>(
    rt: &R,
    journal: &J,
    alloc: Global,
    client: Option<IpAddr>,
    request: &Request<B>,
    responded: &Responded,
) -> RequestRecord
    ensures client { result.client ≡ client }
    ensures method { IsCopyOrEmpty (http.head_of request.now).method result.method.items }
    ensures url { IfSome (slice_get responded.now.log.items 0) (λ page. IsCopyOrEmpty (arc_value page).url result.url.items) }
    ensures status { result.status ≡ (sent responded.now.response).status }
    ensures body { result.body ≡ length (joined (sent responded.now.response).frames) }
    ensures answers { result.answers ≡ length responded.now.log.items }
    ensures hits { result.hits ≡ responded.now.ways.stored }
    ensures joined { result.joined ≡ responded.now.ways.joined }
    ensures bridged { result.bridged ≡ responded.now.ways.bridged }
    ensures failed { result.failed ≡ responded.now.ways.failed }
    ensures fault { option_map (λ fault. fault.reason) result.fault ≡ responded.now.reason }
{
    RequestRecord {
        client,
        method: copy(alloc, request.method().as_str().as_bytes()),
        target: target_of(alloc, request),
        version: version_of(request),
        url: url_of(alloc, request, responded),
        status: responded.response.status().as_u16(),
        body: responded.response.body().size_hint().exact().unwrap_or(0),
        answers: responded.log.len() as u64,
        hits: responded.ways.stored,
        joined: responded.ways.joined,
        bridged: responded.ways.bridged,
        failed: responded.ways.failed,
        micros: 0,
        referer: field_of(alloc, request, REFERER),
        agent: field_of(alloc, request, USER_AGENT),
        fault: fault_of(rt, journal, alloc, responded),
    }
}

/// The record of a head that the HTTP library refused by itself with this status. Nothing is known of it but whose it is.
pub(crate) fn refused_head(alloc: Global, client: Option<IpAddr>, status: u16) -> RequestRecord
    ensures client { result.client ≡ client }
    ensures status { result.status ≡ status }
    ensures method { result.method.items ≡ [] }
    ensures url { result.url.items ≡ [] }
    ensures answers { result.answers ≡ 0 }
    ensures fault { option_map (λ fault. fault.reason) result.fault ≡ Some Unreadable }
{
    RequestRecord {
        client,
        method: Vec::new(alloc),
        target: Vec::new(alloc),
        version: Version::Http11,
        url: Vec::new(alloc),
        status,
        body: 0,
        answers: 0,
        hits: 0,
        joined: 0,
        bridged: 0,
        failed: 0,
        micros: 0,
        referer: Vec::new(alloc),
        agent: Vec::new(alloc),
        fault: Some(Fault {
            reason: Reason::Unreadable,
            url: Vec::new(alloc),
            message: Vec::new(alloc),
            cause: None,
        }),
    }
}

// The whole microseconds of a time, at most `u64::MAX`.
fn micros_of(taken: Duration) -> u64
    ensures { result ≡ min (as_nanos taken / 1_000) (2 ^ 64 - 1) }
{
    u64::try_from(taken.as_micros()).unwrap_or(u64::MAX)
}

// The URL of the page that was assembled, whose own answer came first; else the request's target.
fn url_of<B>(alloc: Global, request: &Request<B>, responded: &Responded) -> Vec<u8>
    ensures { IfSome (slice_get responded.now.log.items 0) (λ page. IsCopyOrEmpty (arc_value page).url result.items) }
{
    match responded.log.first() {
        Some(page) => copy(alloc, page.url().as_bytes()),
        None => target_of(alloc, request),
    }
}

// The target of a request, as it was sent.
fn target_of<B>(alloc: Global, request: &Request<B>) -> Vec<u8> {
    match format!(in alloc; "{}", request.uri()) {
        Ok(target) => target.into_bytes(),
        Err(_) => Vec::new(alloc),
    }
}

// The version of a request. The HTTP library takes no others.
fn version_of<B>(request: &Request<B>) -> Version {
    if request.version() == http::Version::HTTP_10 {
        Version::Http10
    } else {
        Version::Http11
    }
}

// The value of a field of a request; of several with this name the first one's.
fn field_of<B>(alloc: Global, request: &Request<B>, name: HeaderName) -> Vec<u8> {
    match request.headers().get(name) {
        Some(value) => copy(alloc, value.as_bytes()),
        None => Vec::new(alloc),
    }
}

/// A copy of a text, or nothing where there is no memory for it.
pub(crate) fn copy(alloc: Global, text: &[u8]) -> Vec<u8>
    ensures { IsCopyOrEmpty text.now result.items }
{
    text.to_vec(alloc).unwrap_or(Vec::new(alloc))
}
