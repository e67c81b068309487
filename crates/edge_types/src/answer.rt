//! What origins answer. Clauses see an `Answer` as its URL and its reply.

ghost use Rattle.std.specs.Prelude.{◌≡◌, ◌↔◌, IsSome, IfSome, IfOk};

use crate::control::Control;
use crate::head::Head;
use crate::no_memory::NoMemory;
use crate::octets::Octets;
use crate::page_url::PageUrl;
use crate::shared_bytes::SharedBytes;
use std::marker::Model;

/// The longest body where no other limit is set, in bytes.
pub const MAX_BODY: usize = 262_144;

/// The longest body that a limit may allow, in bytes.
pub const LARGEST_BODY: usize = 16_777_216;

/// The result of fetching a URL.
#[derive(Drop, PartialEq, Eq)]
pub enum Reply {
    /// Nothing could be fetched.
    Failed,
    /// An origin answered.
    Got {
        /// What the head says to a reader.
        head: Head,
        /// What the origin asks of the edge.
        control: Control,
        /// The body, whole.
        body: SharedBytes,
    },
}

/// A URL and the result of fetching it, within the limits of the edge.
#[derive(Drop)]
pub struct Answer {
    url: PageUrl,
    reply: Reply,
}

impl Model for Answer {
    ghost use Rattle.edge_types.specs.Answered.{Answered, IsWithinLimits};

    ghost Value = { Answered };

    ghost view = { λ a. record { url = a.url; reply = a.reply } };

    ghost invariant = { λ a. IsWithinLimits a.reply };
}

impl Answer {
    ghost use Rattle.edge_types.specs.Answered.{IsAcceptable, IsWithinLimits, failed, got, succeeded, processed, processed_as_fragment, body_of};
    ghost use Rattle.edge_types.specs.Head.{head_of};

    /// The answer of a URL that could not be fetched. Takes no memory.
    pub fn failed(url: PageUrl) -> Answer
        ensures { result ≡ failed url }
    {
        Answer {
            url,
            reply: Reply::Failed,
        }
    }

    /// The answer of a URL with this status, content type and body, and nothing else in its head. Takes no memory.
    ///
    /// `None` where `of_head` says so, or if the body is longer than `MAX_BODY` bytes.
    pub fn got(
        url: PageUrl,
        status: u16,
        content_type: Octets,
        control: Control,
        body: SharedBytes,
    ) -> Option<Answer>
        ensures limits { IsSome result ↔ IsAcceptable MAX_BODY (head_of status content_type) body }
        ensures value { IfSome result (λ answer. answer ≡ got url (head_of status content_type) control body) }
    {
        if MAX_BODY < body.len() {
            return None;
        }
        Answer::of_head(url, Head::of(status, content_type), control, body)
    }

    /// The answer of a URL with this head and body. Takes no memory.
    ///
    /// `None` if the edge doesn't accept the head (`Head::is_acceptable`), or the body is longer than
    /// `LARGEST_BODY` bytes; the arguments are dropped then.
    pub fn of_head(url: PageUrl, head: Head, control: Control, body: SharedBytes) -> Option<Answer>
        ensures limits { IsSome result ↔ IsAcceptable LARGEST_BODY head body }
        ensures value { IfSome result (λ answer. answer ≡ got url head control body) }
    {
        if !head.is_acceptable() || LARGEST_BODY < body.len() {
            return None;
        }
        Some(Answer {
            url,
            reply: Reply::Got {
                head,
                control,
                body,
            },
        })
    }

    /// The URL that was asked. Takes no memory.
    pub fn url(&self) -> &PageUrl
        ensures { result.now ≡ self.now.url }
    {
        &self.url
    }

    /// The result of fetching it. Takes no memory.
    pub fn reply(&self) -> &Reply
        ensures value { result.now ≡ self.now.reply }
        ensures limits { IsWithinLimits result.now }
    {
        &self.reply
    }

    /// The body; a failure has none. Takes no memory.
    pub fn body(&self) -> &[u8]
        ensures { result.now ≡ body_of self.now.reply }
    {
        match &self.reply {
            Reply::Failed => &[],
            Reply::Got { body, .. } => body.as_bytes(),
        }
    }

    /// A second owner of the body; a failure has none.
    pub fn share_body(&self) -> Result<SharedBytes, NoMemory>
        ensures { IfOk result (λ body. body ≡ body_of self.now.reply) }
    {
        match &self.reply {
            Reply::Failed => Ok(SharedBytes::new()),
            Reply::Got { body, .. } => body.share(),
        }
    }

    /// Whether the fetch gave a resource: an answer of status 200 to 299. Takes no memory.
    pub fn succeeded(&self) -> bool
        ensures { result ≡ succeeded self.now.reply }
    {
        match &self.reply {
            Reply::Failed => false,
            Reply::Got { head, .. } => head.is_success(),
        }
    }

    /// Whether the body is an ESI template, to be processed where it is a page's: its control asks for it, and
    /// the fetch succeeded or its control asks the same of errors. Takes no memory.
    pub fn processed(&self) -> bool
        ensures { result ≡ processed self.now.reply }
    {
        match &self.reply {
            Reply::Failed => false,
            Reply::Got { head, control, .. } => control.esi
                && (head.is_success() || control.errors),
        }
    }

    /// Whether the body is an ESI template, to be processed where it is a fragment's: the fetch succeeded and
    /// its control asks for it. Takes no memory.
    pub fn processed_as_fragment(&self) -> bool
        ensures { result ≡ processed_as_fragment self.now.reply }
    {
        match &self.reply {
            Reply::Failed => false,
            Reply::Got { head, control, .. } => head.is_success() && control.esi,
        }
    }
}
