//! What answers the requests of a connection.

ghost use Rattle.std.specs.Prelude.{◌≡◌, ◌↔◌, [], false, true, map, length, Some, IfOk, IsErrOf, IsSomeAnd, MatchOption};
ghost use Rattle.std.specs.Arc.{arc_value};
ghost use Rattle.http_header.specs.FieldName.{IsFieldName};
ghost use Rattle.http_header.specs.Token.{lowercase};
ghost use Rattle.http_header.specs.declared.name.HeaderNameError.TheVariants as header_name_error;
ghost use Rattle.page_http.specs.Passed.{passed_edges};
ghost use Rattle.hyper_edge.specs.Circles.{is_circle};
ghost use Rattle.hyper_edge.specs.Lines.{line, lines_of};
ghost use Rattle.hyper_edge.specs.Methods.{answered_as};

use crate::responding::{RequestHead, begin_response, go_on_with, no_room, refused};
use access_log::Reason;
use answer_sources::{Awaited, Behalf, ConcurrentSource, OnBehalf};
use edge_connections::{ClientWatch, deadline, watch_of};
use edge_server::{Begun, Gone, PageService, Told};
use edge_types::{HeadFields, NoMemory};
use fetch_workers::{Assembling, OwedFetches, PageInProgress};
use http::header::{HeaderName, HeaderNameError, HeaderValue};
use http::{HeaderMap, Request, Uri};
use page_http::{Field, has_passed, passed_edges};
use page_readers::{WithinTime, client_of, own_fields};
use std::alloc::Global;
use std::borrow::CowStr;
use std::hash::RandomState;
use std::io;
use std::net::IpAddr;
use std::os::fd::RawFd;
use std::random::RandomSource;
use std::sync::{Arc, Wait};
use std::thread::Threads;
use std::time::{Clock, Duration};

/// How long the list of the edges that a request has passed may be, in bytes, where the edge has a name.
///
/// Our profile.
pub const MAX_PASSED: usize = 1024;

/// What answers requests for pages from a source, with a runtime of its own.
pub struct EdgeService<S, R> {
    rt: R,
    alloc: Global,
    source: Arc<S>,
    how: Assembling,
    // How long a page may take.
    limit: Option<Duration>,
    // Whether a client that has ended its input has left.
    aborts_on_close: bool,
    answers_head: bool,
    // Whether pages have entity tags.
    gives_tags: bool,
    // The name by which the edge knows a request that it has sent itself.
    name: Option<Vec<u8>>,
    // The names of the fields and of the cookies that origins of private URLs are told, with commas between.
    private_fields: Option<Vec<u8>>,
    private_cookies: Option<Vec<u8>>,
    // The field by which a trusted proxy names the client.
    forwarded: Option<HeaderName>,
    // The hash keys of the maps of fields.
    keys: RandomState,
}

// By hand, so that who drops a service needs no proof of what it is made of.
impl<S: Drop, R: Drop> Drop for EdgeService<S, R> {
    fn drop(self) {
        let EdgeService {
            rt: _,
            alloc: _,
            source: _,
            how: _,
            limit: _,
            aborts_on_close: _,
            answers_head: _,
            gives_tags: _,
            name: _,
            private_fields: _,
            private_cookies: _,
            forwarded: _,
            keys: _,
        } = self;
    }
}

impl<S: Drop, R: Drop> EdgeService<S, R> {
    /// A service over a source. Refused if the system has no keys for the maps of fields.
    pub fn new(
        rt: R,
        alloc: Global,
        source: Arc<S>,
        how: Assembling,
    ) -> io::Result<EdgeService<S, R>>
    where
        R: RandomSource,
    {
        let keys = RandomState::new(&rt)?;
        Ok(EdgeService {
            rt,
            alloc,
            source,
            how,
            limit: None,
            aborts_on_close: false,
            answers_head: false,
            gives_tags: false,
            name: None,
            private_fields: None,
            private_cookies: None,
            forwarded: None,
            keys,
        })
    }

    /// The same, and HEAD is answered like GET, without the body.
    ///
    /// Source: RFC 9110, "HEAD".
    pub fn answering_head(mut self) -> EdgeService<S, R>
        ensures { result ≡ record self { answers_head = true } }
    {
        self.answers_head = true;
        self
    }

    /// The same, and a page has an entity tag, and isn't sent to a client that has it already; one that failed has none.
    ///
    /// Source: RFC 9110, "ETag", "If-None-Match".
    pub fn giving_tags(mut self) -> EdgeService<S, R>
        ensures { result ≡ record self { gives_tags = true } }
    {
        self.gives_tags = true;
        self
    }

    /// The same, and a page has so long from its request's head on: what is asked for later fails at once, as if it
    /// couldn't be fetched. A fetch that is under way then has its own limit. `None` means no limit. With a limit, a
    /// client whose connection was reset ends its page like it.
    ///
    /// Our profile.
    pub fn limited_to(mut self, limit: Option<Duration>) -> EdgeService<S, R>
        ensures { result ≡ record self { limit = limit } }
    {
        self.limit = limit;
        self
    }

    /// The same, and a client that has ended its input, or whose connection was reset, has left: nothing more is fetched for
    /// its page, as past a limit. So one that ends its input behind its request gets only what needs no fetch.
    ///
    /// Our profile.
    pub fn aborting_on_close(mut self) -> EdgeService<S, R>
        ensures { result ≡ record self { aborts_on_close = true } }
    {
        self.aborts_on_close = true;
        self
    }

    /// The same, and a request that has passed an edge of this name before is answered 508, without a fetch; so is one
    /// whose list of edges that it has passed is longer than `MAX_PASSED`. Any other is answered from the source on
    /// behalf of these edges, so that a circle of several ends as soon as it is closed.
    ///
    /// Source: RFC 8586, "The CDN-Loop Request Header Field".
    pub fn named(mut self, name: Vec<u8>) -> EdgeService<S, R>
        ensures { result ≡ record self { name = Some name } }
    {
        self.name = Some(name);
        self
    }

    /// The same, and the source is told of each request the fields of these names, which are in lower case and have commas
    /// between, for private URLs.
    ///
    /// Our profile.
    pub fn telling_fields(mut self, names: Vec<u8>) -> EdgeService<S, R>
        ensures { result ≡ record self { private_fields = Some names } }
    {
        self.private_fields = Some(names);
        self
    }

    /// The same, and the source is told of each request the cookies of these names, which have commas between, for
    /// private URLs.
    ///
    /// Source: RFC 6265, "The Cookie Header"; our profile.
    pub fn telling_cookies(mut self, names: Vec<u8>) -> EdgeService<S, R>
        ensures { result ≡ record self { private_cookies = Some names } }
    {
        self.private_cookies = Some(names);
        self
    }

    /// The same, and the client of a request is the one that its field of this name reports: the last address there,
    /// which is what the nearest proxy has added; where it reports none, whoever the connection is from. So only trusted
    /// proxies may reach the server. Refused if it isn't the name of a field, or an allocation fails.
    ///
    /// Source: our profile, of the field `x-forwarded-for` as nginx and HAProxy write it.
    pub fn forwarded_by(mut self, field: &[u8]) -> Result<EdgeService<S, R>, HeaderNameError>
        ensures ok { IfOk result (λ service. IsSomeAnd service.forwarded (λ name. (name ≡ lowercase field.now) × (service ≡ record self { forwarded = Some name }))) }
        ensures invalid { IsErrOf result header_name_error.Invalid ↔ ¬ (IsFieldName field.now) }
    {
        self.forwarded = Some(HeaderName::from_bytes(self.alloc, field)?);
        Ok(self)
    }
}

/// A page that is being assembled within its time.
pub(crate) type TimedPage<R, S> = PageInProgress<R, WithinTime<S>>;

impl<S, R> EdgeService<S, R>
where
    S: ConcurrentSource<R> + OnBehalf<R> + Send + Sync + Drop,
    R: Wait + Threads + Clock + Clone + Sync + Drop,
{
    /// Begins the response to a request to a client with this socket, where that is known. Nothing is fetched yet for a page
    /// that is to be gone on with.
    ///
    /// `NoMemory` if there is none for a refusal.
    pub(crate) fn begin(
        &self,
        head: &Request<()>,
        socket: Option<RawFd>,
    ) -> Result<Begun<TimedPage<R, S>>, NoMemory> {
        match self.begun(head, socket)? {
            Ok(responded) => Ok(Ok(self.finished(head.headers(), responded)?)),
            Err(page) => Ok(Err(page)),
        }
    }

    // The same from a copy of its head, but for what is sent of a response at last; 503 if there is no room for the copy.
    fn begun(
        &self,
        request: &Request<()>,
        socket: Option<RawFd>,
    ) -> Result<Begun<TimedPage<R, S>>, NoMemory> {
        let alloc = self.alloc;
        let Ok(fields) = fields_of(alloc, request.headers()) else {
            return Ok(Ok(no_room(alloc)?));
        };
        let name = self.name.as_deref();
        let Ok(passed) = passed_by(alloc, name, fields.as_slice()) else {
            return Ok(Ok(no_room(alloc)?));
        };
        if is_circle(name, fields.as_slice(), passed.as_slice()) {
            return Ok(Ok(refused(alloc, 508, Reason::Loop)?));
        }
        let Ok(target) = target_of(alloc, request.uri()) else {
            return Ok(Ok(no_room(alloc)?));
        };
        let head = RequestHead {
            method: answered_as(request.method().as_str().as_bytes(), self.answers_head),
            target: target.as_bytes(),
            fields: fields.as_slice(),
        };
        let Ok(source) = self.source_for(passed.as_slice(), fields.as_slice()) else {
            return Ok(Ok(no_room(alloc)?));
        };
        let source = WithinTime {
            source,
            until: deadline(&self.rt, self.limit).ok().flatten(),
            client: watch_of(self.limit, self.aborts_on_close, socket),
        };
        let Ok(rt) = self.rt.clone() else {
            return Ok(Ok(no_room(alloc)?));
        };
        begin_response(rt, alloc, source, &head, self.how)
    }

    // What the source is told of a request with these lines.
    fn own_fields(&self, fields: &[Field<'_>]) -> Result<HeadFields, NoMemory> {
        let names = self.private_fields.as_deref();
        own_fields(self.alloc, names, self.private_cookies.as_deref(), fields)
    }

    // The source for a request with these lines that has passed these edges: one of its own, where it needs one.
    fn source_for(&self, passed: &[u8], fields: &[Field<'_>]) -> Result<Arc<S>, NoMemory> {
        let behalf = Behalf {
            passed,
            own: &self.own_fields(fields)?,
        };
        if !behalf.is_empty() {
            if let Some(own) = self.source.on_behalf(self.alloc, behalf)? {
                return Ok(Arc::new(self.alloc, own)?);
            }
        }
        Ok(Arc::try_clone(&self.source)?)
    }
}

impl<S, R> EdgeService<S, R> {
    /// What responses are allocated by.
    pub(crate) fn alloc(&self) -> Global {
        self.alloc
    }

    /// Whether pages have entity tags.
    pub(crate) fn gives_tags(&self) -> bool
        ensures { result ≡ self.now.gives_tags }
    {
        self.gives_tags
    }

    /// Where answers come from.
    pub(crate) fn source(&self) -> &S
        ensures { result.now ≡ arc_value self.now.source }
    {
        &*self.source
    }
}

impl<S, R> PageService<R> for EdgeService<S, R>
where
    S: ConcurrentSource<R> + OnBehalf<R> + Send + Sync + Drop,
    S::InFlight: Send,
    R: Wait + Clock + Clone + Send + Drop,
{
    type Page = TimedPage<R, S>;

    type Owed = OwedFetches<R, WithinTime<S>>;

    fn alloc(&self) -> Global {
        self.alloc
    }

    fn keys(&self) -> RandomState {
        self.keys
    }

    fn watch(&self, socket: Option<RawFd>) -> Option<ClientWatch> {
        watch_of(self.limit, self.aborts_on_close, socket)
    }

    fn client_of(&self, head: &Request<()>, peer: Option<IpAddr>) -> Option<IpAddr> {
        client_of(self.forwarded.as_ref(), head.headers(), peer)
    }

    fn go_on(
        &self,
        page: Self::Page,
        head: &Request<()>,
    ) -> Result<Gone<Self::Page, Self::Owed>, NoMemory> {
        match go_on_with(self.alloc, page)? {
            Ok(Told { responded, owed }) => {
                let responded = self.finished(head.headers(), responded)?;
                Ok(Ok(Told { responded, owed }))
            }
            Err(page) => Ok(Err(page)),
        }
    }

    fn awaited(&self, page: &mut Self::Page) -> Option<Awaited> {
        page.awaited()
    }

    fn wait(&self, page: &mut Self::Page, most: Option<Duration>) {
        page.wait(most);
    }

    fn go_on_with_owed(&self, owed: Self::Owed) -> Option<Self::Owed> {
        owed.go_on()
    }

    fn awaited_of_owed(&self, owed: &mut Self::Owed) -> Option<Awaited> {
        owed.awaited()
    }

    fn wait_for_owed(&self, owed: &mut Self::Owed) {
        owed.wait(None);
    }
}

// The method as which a request is answered. Of the response to HEAD the HTTP library leaves the body out.
fn answered_as(method: &[u8], answers_head: bool) -> &[u8]
    ensures { result.now ≡ answered_as answers_head method.now }
{
    if answers_head && method == b"HEAD".as_slice() {
        b"GET".as_slice()
    } else {
        method
    }
}

// The edges that a request with these lines has passed, for an edge with a name: any other doesn't look.
fn passed_by(alloc: Global, name: Option<&[u8]>, fields: &[Field<'_>]) -> Result<Vec<u8>, NoMemory>
    ensures { IfOk result (λ passed. MatchOption name.entry (passed.items ≡ []) (λ _. passed.items ≡ passed_edges fields.now)) }
{
    match name {
        Some(_) => passed_edges(alloc, fields),
        None => Ok(Vec::new(alloc)),
    }
}

// Whether a request with these lines, which has passed these edges, was sent by an edge of this name, or has passed too
// many.
fn is_circle(name: Option<&[u8]>, fields: &[Field<'_>], passed: &[u8]) -> bool
    ensures { MatchOption name.entry (result ≡ false) (λ name. result ≡ is_circle name.now fields.now (length passed.now)) }
{
    match name {
        Some(name) => has_passed(name, fields) || passed.len() > MAX_PASSED,
        None => false,
    }
}

// The lines of a head.
fn fields_of(alloc: Global, headers: &HeaderMap<HeaderValue>) -> Result<Vec<Field<'_>>, NoMemory>
    ensures { IfOk result (λ fields. map line fields.items ≡ lines_of headers.now) }
{
    let mut fields = Vec::with_capacity(alloc, headers.len())?;
    for (name, value) in headers.iter() {
        fields.push(Field {
            name: name.as_bytes(),
            value: value.as_bytes(),
        })?;
    }
    Ok(fields)
}

// The target of a request, as it was sent.
fn target_of(alloc: Global, uri: &Uri) -> Result<CowStr<'_>, NoMemory> {
    if let (None, Some(target)) = (uri.authority(), uri.path_and_query()) {
        return Ok(CowStr::Borrowed(target.as_str()));
    }
    match format!(in alloc; "{uri}") {
        Ok(target) => Ok(CowStr::Owned(target)),
        Err(_) => Err(NoMemory),
    }
}
