//! The tokens of a text: which of its bytes are text, and which are tags of the ESI language.
//!
//! `scan` is the only way in. Clauses see tokens as plain data: an attribute list is a list of names with their decoded
//! values, and a byte string is a list of bytes. `specs/Spelling.antt` says which tokens spell a text and where a text
//! has its fault, `specs/Scan.antt` how both are computed, and `laws` that the two agree.
#![tactic(auto)]

mod attribute;
mod attributes;
mod bytes;
mod element_name;
mod entity;
mod fault;
pub mod laws;
mod opener;
mod problem;
mod remove;
mod scanner;
mod tag;
mod token;

pub use attribute::{Attribute, AttributeName, KnownAttribute};
pub use attributes::Attributes;
pub use element_name::ElementName;
pub use fault::ScanFault;
pub use problem::{Problem, Trouble, trouble_at};
pub use scanner::scan;
pub use tag::Tag;
pub use token::{Kind, Span, Token};
