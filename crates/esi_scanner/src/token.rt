//! The tokens of a text.

use crate::element_name::ElementName;
use crate::tag::Tag;

/// Where a token is: the places of its first byte and of the first byte after it.
#[derive(Clone, Copy, Debug, Drop, PartialEq, Eq)]
pub struct Span {
    pub start: usize,
    pub end: usize,
}

/// What a token is.
#[derive(Drop)]
pub enum Kind {
    /// Bytes in which no other token begins; the text itself is lent from the input by the span.
    Text,
    /// An opening tag of any element but `remove`.
    Open(Tag),
    /// A closing tag.
    Close(ElementName),
    /// A whole `remove` element, with all that it removes.
    Remove,
    /// `<!--esi`, without the byte of white space after it.
    BlockStart,
    /// `-->`, at the end of a block.
    BlockEnd,
}

/// A token of a text.
#[derive(Drop)]
pub struct Token {
    pub span: Span,
    pub kind: Kind,
}
