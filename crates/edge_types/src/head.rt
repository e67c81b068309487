//! What the head of an answer says, and that of a page.

ghost use Rattle.std.specs.Prelude.{◌≡◌, ◌↔◌, ◌≤◌, IsTrue, IfOk};
ghost use Rattle.edge_types.specs.Head.{HeadLimits, IsContentType, head_of, is_success};

use crate::head_fields::HeadFields;
use crate::no_memory::NoMemory;
use crate::octets::Octets;
use std::alloc::Global;

/// The smallest status of an answer.
pub const MIN_STATUS: u16 = 200;
/// The largest status of an answer.
pub const MAX_STATUS: u16 = 599;
/// The longest content type, in bytes.
pub const MAX_CONTENT_TYPE: usize = 256;

/// What an origin says to a page's reader beside the body. Its source makes it and the response writes it; the layers
/// between carry it, and ask it for the status at most.
#[derive(Drop, PartialEq, Eq)]
pub struct Head {
    /// The HTTP status.
    pub status: u16,
    /// The `Content-Type` field; empty if absent.
    pub content_type: Octets,
    /// Further fields for the page's reader, in the order in which he gets them.
    pub fields: HeadFields,
}

impl Head {
    /// A head that says this and no more. Takes no memory.
    pub fn of(status: u16, content_type: Octets) -> Head
        ensures { result ≡ head_of status content_type }
    {
        Head {
            status,
            content_type,
            fields: HeadFields::none(),
        }
    }

    /// Copies the head; its fields get one more owner.
    pub fn copy(&self, alloc: Global) -> Result<Head, NoMemory>
        ensures { IfOk result (λ copy. copy ≡ self.now) }
    {
        Ok(Head {
            status: self.status,
            content_type: self.content_type.copy(alloc)?,
            fields: self.fields.share()?,
        })
    }

    /// Whether the edge accepts an answer with this head: the status is `MIN_STATUS` to `MAX_STATUS`, the content type
    /// is one, and so are the fields. Takes no memory.
    pub fn is_acceptable(&self) -> bool
        ensures { IsTrue result ↔ HeadLimits self.now }
    {
        self.has_status()
            && is_content_type(self.content_type.as_bytes())
            && self.fields.are_acceptable()
    }

    /// Whether an answer may have the status: it is `MIN_STATUS` to `MAX_STATUS`. Takes no memory.
    pub fn has_status(&self) -> bool
        ensures { IsTrue result ↔ (200 ≤ self.now.status) × (self.now.status ≤ 599) }
    {
        (MIN_STATUS..=MAX_STATUS).contains(&self.status)
    }

    /// Whether the status is one of success, 200 to 299. Takes no memory.
    pub fn is_success(&self) -> bool
        ensures { result ≡ is_success self.now.status }
    {
        200 <= self.status && self.status <= 299
    }
}

/// Whether an answer may have this content type: it has at most `MAX_CONTENT_TYPE` bytes, each of them printable ASCII
/// or a space. Takes no memory.
pub fn is_content_type(text: &[u8]) -> bool
    ensures { IsTrue result ↔ IsContentType text.now }
{
    text.len() <= MAX_CONTENT_TYPE && text.iter().all(|b| 0x20 <= *b && *b <= 0x7e)
}
