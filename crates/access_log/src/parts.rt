//! The parts of lines.

ghost use Rattle.std.specs.Prelude.{◌≡◌, ◌++◌, decimal, string_bytes, IfOk, OnOk};
ghost use Rattle.access_log.specs.Escapes.{log_escaped};
ghost use Rattle.access_log.specs.Lines as spec;
ghost use Rattle.access_log.specs.Text.{IsPrintable};

use crate::escape::{IN_JSON, IN_LOG, push_escaped};
use crate::record::Version;
use crate::text::OpenLine;
use itoa::Buffer;
use std::alloc::{AllocError, Global};
use std::net::IpAddr;

/// Appends a number.
pub(crate) fn push_number(line: &mut OpenLine, number: u64) -> Result<(), AllocError>
    ensures { OnOk result (line.new ≡ line.old ++ decimal number) }
{
    let mut buffer = Buffer::new();
    line.push(buffer.format(number).as_bytes())
}

/// Appends a text of a client, as it stands between quotes, and a space.
pub(crate) fn push_field(line: &mut OpenLine, text: &[u8]) -> Result<(), AllocError>
    ensures { OnOk result (line.new ≡ line.old ++ spec.field (log_escaped text.now)) }
{
    push_escaped(line, IN_LOG, text)?;
    line.push(b" ")
}

/// Appends a number and a space.
pub(crate) fn push_number_field(line: &mut OpenLine, number: u64) -> Result<(), AllocError>
    ensures { OnOk result (line.new ≡ line.old ++ spec.field (decimal number)) }
{
    push_number(line, number)?;
    line.push(b" ")
}

/// The text, or a dash for one that is empty.
pub(crate) fn or_dash(text: &[u8]) -> &[u8]
    ensures { result.now ≡ spec.or_dash text.now }
{
    if text.is_empty() {
        b"-".as_slice()
    } else {
        text
    }
}

/// Appends a text between quotes, or a dash for one that is empty.
pub(crate) fn push_quoted(line: &mut OpenLine, text: &[u8]) -> Result<(), AllocError>
    ensures { OnOk result (line.new ≡ line.old ++ spec.quoted text.now) }
{
    line.push(b"\"")?;
    push_escaped(line, IN_LOG, or_dash(text))?;
    line.push(b"\"")
}

/// The text of a client's address, or a dash where it isn't known.
pub(crate) fn client_text(alloc: Global, client: Option<IpAddr>) -> Result<String, AllocError>
    ensures { IfOk result (λ text. string_bytes text ≡ spec.client_text client) }
{
    match client {
        Some(address) => format!(in alloc; "{address}"),
        None => String::from_str(alloc, "-"),
    }
}

/// The version of HTTP, as a request line has it.
pub(crate) fn version_text(version: Version) -> &'static [u8]
    ensures { result.now ≡ spec.version_text version }
{
    match version {
        Version::Http10 => b"HTTP/1.0".as_slice(),
        Version::Http11 => b"HTTP/1.1".as_slice(),
    }
}

/// Appends a member of a JSON object whose value is a text, and a comma before it.
#[tactic(auto, unfolding(crate::specs::Lines::text_member))]
pub(crate) fn push_text_member(
    line: &mut OpenLine,
    name: &[u8],
    text: &[u8],
) -> Result<(), AllocError>
    requires { IsPrintable name.now }
    ensures { OnOk result (line.new ≡ line.old ++ spec.text_member name.now text.now) }
{
    push_name(line, name)?;
    line.push(b"\"")?;
    push_escaped(line, IN_JSON, text)?;
    line.push(b"\"")
}

/// The same of a number.
pub(crate) fn push_number_member(
    line: &mut OpenLine,
    name: &[u8],
    number: u64,
) -> Result<(), AllocError>
    requires { IsPrintable name.now }
    ensures { OnOk result (line.new ≡ line.old ++ spec.number_member name.now number) }
{
    push_name(line, name)?;
    push_number(line, number)
}

fn push_name(line: &mut OpenLine, name: &[u8]) -> Result<(), AllocError>
    requires { IsPrintable name.now }
    ensures { OnOk result (line.new ≡ line.old ++ spec.member_name name.now) }
{
    line.push(b",\"")?;
    line.push(name)?;
    line.push(b"\":")
}
