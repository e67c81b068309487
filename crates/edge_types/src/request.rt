//! A reader's request, as far as templates can ask for it.

ghost use Rattle.std.specs.Prelude.{◌≡◌, ℕ, List, Some, slice_get, IfOk, OnOk};
ghost use Rattle.edge_types.specs.Request.{empty_request, field_of, heading_word, line_name, place_of, request_fields, request_saying};

use crate::halves::find_byte;
use crate::no_memory::NoMemory;
use crate::shared_bytes::SharedBytes;
use std::alloc::Global;

/// A header field of a reader's request that templates can ask for.
#[derive(Clone, Copy, Debug, Drop, PartialEq, Eq)]
pub enum RequestField {
    Host,
    Cookie,
    Referer,
    UserAgent,
    AcceptLanguage,
}

impl RequestField {
    /// All of them, in the order in which a case text has their lines.
    pub const ALL: [RequestField; 5] = [
        RequestField::Host,
        RequestField::Cookie,
        RequestField::Referer,
        RequestField::UserAgent,
        RequestField::AcceptLanguage,
    ];

    /// Its place in `ALL`. Takes no memory.
    pub fn place(self) -> usize
        ensures place { result ≡ place_of self }
        ensures there { slice_get request_fields result ≡ Some self }
    {
        self as usize
    }

    /// The name of its lines in a request's head, in lower case. Takes no memory.
    ///
    /// Source: RFC 9110; of `Cookie` RFC 6265.
    pub fn line_name(self) -> &'static [u8]
        ensures { result.now ≡ line_name self }
    {
        match self {
            RequestField::Host => b"host".as_slice(),
            RequestField::Cookie => b"cookie".as_slice(),
            RequestField::Referer => b"referer".as_slice(),
            RequestField::UserAgent => b"user-agent".as_slice(),
            RequestField::AcceptLanguage => b"accept-language".as_slice(),
        }
    }

    /// The word at the front of its line in a case text. Takes no memory.
    ///
    /// Our profile.
    pub fn heading_word(self) -> &'static [u8]
        ensures { result.now ≡ heading_word self }
    {
        match self {
            RequestField::Host => b"host ".as_slice(),
            RequestField::Cookie => b"cookie ".as_slice(),
            RequestField::Referer => b"referer ".as_slice(),
            RequestField::UserAgent => b"agent ".as_slice(),
            RequestField::AcceptLanguage => b"language ".as_slice(),
        }
    }
}

/// What says the value of each field of a request, such as the head of an HTTP request.
pub trait SaysFields {
    ghost use Rattle.edge_types.specs.declared.request.RequestField.{RequestField};

    ghost says: { Self → RequestField → List ℕ };

    /// The value of a field; an absent one is empty.
    fn said(&self, alloc: Global, field: RequestField) -> Result<SharedBytes, NoMemory>
        ensures { IfOk result (λ value. value ≡ says self.now field) };
}

/// The fields of a reader's request; an absent one is empty. Their values have several owners, so that a page may hold
/// a part of one at many places.
#[derive(Drop, PartialEq, Eq)]
pub struct Request {
    /// The `Host` field.
    pub host: SharedBytes,
    /// The `Cookie` field, several lines joined by `; `.
    pub cookie: SharedBytes,
    /// The `Referer` field.
    pub referer: SharedBytes,
    /// The `User-Agent` field.
    pub user_agent: SharedBytes,
    /// The `Accept-Language` field.
    pub accept_language: SharedBytes,
    /// The query string, without its `?`.
    pub query: SharedBytes,
}

impl Request {
    /// A request without fields and without a query. Takes no memory.
    pub fn empty() -> Request
        ensures { result ≡ empty_request }
    {
        Request {
            host: SharedBytes::new(),
            cookie: SharedBytes::new(),
            referer: SharedBytes::new(),
            user_agent: SharedBytes::new(),
            accept_language: SharedBytes::new(),
            query: SharedBytes::new(),
        }
    }

    /// The request that a source says, with this query.
    pub fn said_by<S: SaysFields>(
        alloc: Global,
        source: &S,
        query: SharedBytes,
    ) -> Result<Request, NoMemory>
        ensures { IfOk result (λ request. request ≡ request_saying (S.says source.now) query) }
    {
        let mut request = Request::empty();
        request.query = query;
        request.take_fields(alloc, source)?;
        Ok(request)
    }

    // Takes the value of each field from what says it.
    fn take_fields<S: SaysFields>(&mut self, alloc: Global, source: &S) -> Result<(), NoMemory>
        ensures { OnOk result (self.new ≡ request_saying (S.says source.now) self.old.query) }
    {
        self.host = source.said(alloc, RequestField::Host)?;
        self.cookie = source.said(alloc, RequestField::Cookie)?;
        self.referer = source.said(alloc, RequestField::Referer)?;
        self.user_agent = source.said(alloc, RequestField::UserAgent)?;
        self.accept_language = source.said(alloc, RequestField::AcceptLanguage)?;
        Ok(())
    }

    /// Lends the value of a field. Takes no memory.
    pub fn field(&self, field: RequestField) -> &SharedBytes
        ensures { result.now ≡ field_of self.now field }
    {
        match field {
            RequestField::Host => &self.host,
            RequestField::Cookie => &self.cookie,
            RequestField::Referer => &self.referer,
            RequestField::UserAgent => &self.user_agent,
            RequestField::AcceptLanguage => &self.accept_language,
        }
    }

    /// A request with the same fields: a second owner of each.
    pub fn copy(&self, alloc: Global) -> Result<Request, NoMemory>
        ensures { IfOk result (λ copy. copy ≡ self.now) }
    {
        Request::said_by(alloc, self, self.query.share()?)
    }
}

impl SaysFields for Request {
    ghost says = { field_of };

    fn said(&self, _alloc: Global, field: RequestField) -> Result<SharedBytes, NoMemory> {
        self.field(field).share()
    }
}

ghost use Rattle.edge_types.specs.Query.{query_of};

// The byte before a query string.
const QUERY_MARK: u8 = b'?';
// The byte before a fragment identifier.
const FRAGMENT_MARK: u8 = b'#';

/// The query string of a target or URL: of the text before its first `#`, what follows the first
/// `?`; empty without one. Takes no memory.
pub fn query_of(text: &[u8]) -> &[u8]
    ensures { result.now ≡ query_of text.now }
{
    let before = &text[..place_or_len(FRAGMENT_MARK, text)];
    let mark = place_or_len(QUERY_MARK, before);
    if mark < before.len() {
        &before[mark + 1..]
    } else {
        &[]
    }
}

ghost use Rattle.std.specs.Prelude.{◌==◌, ◌≤◌, length};
ghost use Rattle.std.specs.List.{position_or_len};

// The place of the first such byte, or the length if there is none.
fn place_or_len(byte: u8, text: &[u8]) -> usize
    ensures first { result ≡ position_or_len (λ b. b == byte) text.now }
    ensures within { result ≤ length text.now }
{
    match find_byte(byte, text) {
        Some(at) => at,
        None => text.len(),
    }
}
