//! The values that every layer of the edge speaks of: URLs, answers, requests, tables and outcomes; and the small readers
//! of bytes that several layers share: white space, blanks, tokens, decimal numbers, and the first place of a byte.
#![tactic(auto)]

mod answer;
mod blanks;
mod compare;
mod control;
mod decimal;
mod halves;
mod head;
mod head_fields;
pub mod laws;
mod no_memory;
mod octets;
mod outcome;
mod page_body;
mod page_url;
mod request;
mod shared_answer;
mod shared_bytes;
mod table;
mod token;
mod white_space;

pub use answer::{Answer, LARGEST_BODY, MAX_BODY, Reply};
pub use blanks::{is_blank, skip_blanks, trimmed};
pub use control::Control;
pub use decimal::decimal_of;
pub use halves::{around, find_byte};
pub use head::{Head, MAX_CONTENT_TYPE, MAX_STATUS, MIN_STATUS, is_content_type};
pub use head_fields::{HeadField, HeadFields, MAX_FIELDS};
pub use no_memory::NoMemory;
pub use octets::Octets;
pub use outcome::{Outcome, PageFault};
pub use page_body::PageBody;
pub use page_url::{MAX_TEXT, MAX_URL, PageUrl};
pub use request::{Request, RequestField, SaysFields, query_of};
pub use shared_answer::SharedAnswer;
pub use shared_bytes::SharedBytes;
pub use table::{InsertFault, Table};
pub use token::is_token;
pub use white_space::{after_ws, is_ws, ws_len};
