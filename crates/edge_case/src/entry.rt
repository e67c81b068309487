//! Answers as they are written, and the answers that they denote.
ghost use Rattle.std.specs.Prelude.{◌≡◌};
ghost use Rattle.std.specs.Option.{option_map};
ghost use Rattle.edge_case.specs.Reading.{got_line_of, body_at, failed_at, got_at, entry_at, lent_got_line, lent_entry};
ghost use Rattle.edge_types.specs.Halves.{lent_pair};

use crate::line::{SPACE, after_word, field_at, line_at};
use crate::number::number_of;
use edge_types::around;

/// An answer as it is written.
#[derive(Clone, Copy, Drop)]
pub(crate) enum Entry<'a> {
    /// The URL could not be fetched.
    Failed(&'a [u8]),
    /// An origin answered.
    Got(Got<'a>),
}

/// What an origin answered, as it is written.
#[derive(Clone, Copy, Drop)]
pub(crate) struct Got<'a> {
    pub(crate) status: u32,
    pub(crate) url: &'a [u8],
    pub(crate) content_type: Option<&'a [u8]>,
    pub(crate) control: Option<&'a [u8]>,
    pub(crate) body: &'a [u8],
}

// The status, the length and the URL of the first line of what was got.
#[tactic(auto, unfolding(crate::specs::Reading::got_line_of))]
fn got_line_of(line: &[u8]) -> Option<(u32, u32, &[u8])>
    ensures { option_map lent_got_line result ≡ got_line_of line.now }
{
    let (status, rest) = around(SPACE, line)?;
    let status = number_of(status)?;
    let (len, url) = around(SPACE, rest)?;
    let len = number_of(len)?;
    Some((status, len, url))
}

// A body of this many bytes, and what follows the line feed after it.
#[tactic(auto, unfolding(crate::specs::Reading::body_at))]
fn body_at(len: usize, text: &[u8]) -> Option<(&[u8], &[u8])>
    ensures { option_map lent_pair result ≡ body_at len text.now }
{
    if text.len() < len {
        return None;
    }
    let (body, rest) = text.split_at(len);
    Some((body, after_word(b"\n", rest)?))
}

// A failure, and what follows it.
#[tactic(auto, unfolding(crate::specs::Reading::failed_at))]
fn failed_at(text: &[u8]) -> Option<(Entry<'_>, &[u8])>
    ensures { option_map lent_entry result ≡ failed_at text.now }
{
    let (url, rest) = line_at(b"failed ", text)?;
    Some((Entry::Failed(url), rest))
}

// What was fetched, and what follows it.
#[tactic(auto, unfolding(crate::specs::Reading::got_at))]
fn got_at(text: &[u8]) -> Option<(Entry<'_>, &[u8])>
    ensures { option_map lent_entry result ≡ got_at text.now }
{
    let (line, text) = line_at(b"answer ", text)?;
    let (status, len, url) = got_line_of(line)?;
    let (content_type, text) = field_at(b"type ", text)?;
    let (control, text) = field_at(b"control ", text)?;
    let start = after_word(b"body\n", text)?;
    let (body, rest) = body_at(len as usize, start)?;
    let got = Got {
        status,
        url,
        content_type,
        control,
        body,
    };
    Some((Entry::Got(got), rest))
}

/// An answer, and what follows it.
#[tactic(auto, unfolding(crate::specs::Reading::entry_at))]
pub(crate) fn entry_at(text: &[u8]) -> Option<(Entry<'_>, &[u8])>
    ensures { option_map lent_entry result ≡ entry_at text.now }
{
    match failed_at(text) {
        Some(found) => Some(found),
        None => got_at(text),
    }
}
