//! What a log knows of a request.

ghost use Rattle.std.specs.Prelude.{◌≡◌};
ghost use Rattle.access_log.specs.Faults.{name_of};

use edge_types::PageFault;
use fetch_outcomes::FetchFault;
use std::net::IpAddr;

/// The version of HTTP in which a request came.
#[derive(Clone, Copy, Debug, Drop, PartialEq, Eq)]
pub enum Version {
    /// HTTP/1.0.
    Http10,
    /// HTTP/1.1.
    Http11,
}

/// Why a request wasn't answered with a page as it should be.
#[derive(Clone, Copy, Debug, Drop, PartialEq, Eq)]
pub enum Reason {
    /// The page has this fault.
    Page(PageFault),
    /// HTTP can't carry the status or the content type that the page's origin sent.
    Unsendable,
    /// The status is the one that the page's origin sent.
    OriginStatus,
    /// The head doesn't ask for a page.
    Unreadable,
    /// The method isn't served.
    Method,
    /// The request has passed the edge before.
    Loop,
    /// There was no memory, or no thread, for the page.
    NoRoom,
}

impl Reason {
    /// The reason's name. Takes no memory.
    pub fn name(self) -> &'static str
        ensures { result.now ≡ name_of self }
    {
        match self {
            Reason::Page(fault) => fault.name(),
            Reason::Unsendable => "Unsendable",
            Reason::OriginStatus => "OriginStatus",
            Reason::Unreadable => "Unreadable",
            Reason::Method => "Method",
            Reason::Loop => "Loop",
            Reason::NoRoom => "NoRoom",
        }
    }
}

/// A reason, and what it is about.
#[derive(Drop)]
pub struct Fault {
    /// The reason.
    pub reason: Reason,
    /// The URL of the page or of the fragment that it is about; empty if it is about none.
    pub url: Vec<u8>,
    /// What is wrong with what is at this URL, such as where and why it is no template; empty if nothing more is known.
    pub message: Vec<u8>,
    /// Why the fetch of this URL got no answer, if it got none and that is known.
    pub cause: Option<FetchFault>,
}

/// A request, and how it was answered. A text for which there is no memory is empty.
#[derive(Drop)]
pub struct RequestRecord {
    /// The client's address, where it is known.
    pub client: Option<IpAddr>,
    /// The method.
    pub method: Vec<u8>,
    /// The target, as the request has it.
    pub target: Vec<u8>,
    /// The version of HTTP.
    pub version: Version,
    /// The URL of the page; if none was assembled, the target of the request.
    pub url: Vec<u8>,
    /// The status of the response.
    pub status: u16,
    /// The bytes of its body.
    pub body: u64,
    /// The answers that the page asked the source for, its own among them; 0 for a refusal.
    pub answers: u64,
    /// Those of them that were stored.
    pub hits: u64,
    /// Those that came by a fetch which another page had begun.
    pub joined: u64,
    /// Those that were stored, and stood in for one that failed or would have come too late.
    pub bridged: u64,
    /// Those that didn't come.
    pub failed: u64,
    /// The microseconds from the request's head until its response has been written, or its connection has ended.
    pub micros: u64,
    /// The field `referer`; empty if absent.
    pub referer: Vec<u8>,
    /// The field `user-agent`; empty if absent.
    pub agent: Vec<u8>,
    /// Why the request wasn't answered with a page as it should be, where it wasn't.
    pub fault: Option<Fault>,
}
