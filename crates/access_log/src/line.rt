//! The lines of the log.

ghost use Rattle.std.specs.Prelude.{◌≡◌, ◌++◌, IfOk, OnOk};
ghost use Rattle.std.specs.Option.{option_copied};
ghost use Rattle.access_log.specs.Lines as spec;
ghost use Rattle.access_log.specs.Text.{IsLine, IsPrintable};

use crate::clock::{date_of, push_internet_time, push_log_time};
use crate::escape::{IN_JSON, IN_LOG, push_escaped};
use crate::format::LogFormat;
use crate::parts::{
    client_text, or_dash, push_field, push_number, push_number_field, push_number_member,
    push_quoted, push_text_member, version_text,
};
use crate::record::{Fault, RequestRecord};
use crate::text::{LogLine, OpenLine};
use fetch_outcomes::FetchFault;
use std::alloc::{AllocError, Global};
use std::net::IpAddr;

// Most lines have fewer bytes, and are made without a move.
const USUAL_BYTES: usize = 512;

/// The line of a request that was reported in this second since 1970.
///
/// Texts that a client sent stand in it so that they can't end their quotes, and its one line feed is at its end.
///
/// The only refusal is out of memory.
///
/// Source: Apache HTTP Server, "Log Files", "Combined Log Format"; RFC 8259; our profile.
pub fn line_of(
    alloc: Global,
    format: LogFormat,
    second: u64,
    request: &RequestRecord,
) -> Result<LogLine, AllocError>
    ensures line { IfOk result (λ line. spec.IsLineOf format second request.now line) }
    ensures ascii { IfOk result IsLine }
{
    let date = date_of(second);
    dated_line(alloc, format, second, &date, request)
}

fn dated_line(
    alloc: Global,
    format: LogFormat,
    second: u64,
    date: &[u8; 29],
    request: &RequestRecord,
) -> Result<LogLine, AllocError>
    requires { IsPrintable date.now }
    ensures line { IfOk result (λ line. line ≡ spec.ended (spec.line format second date.now request.now)) }
    ensures ascii { IfOk result IsLine }
{
    let mut line = OpenLine::with_capacity(alloc, USUAL_BYTES)?;
    match format {
        LogFormat::Line => {
            push_plain_line(&mut line, second, request)?;
            line.end()
        }
        LogFormat::Combined => {
            push_combined_line(alloc, &mut line, date, request)?;
            line.end()
        }
        LogFormat::Json => {
            push_json_line(alloc, &mut line, date, request)?;
            line.end()
        }
    }
}

/// The line that says in this second since 1970 how many lines were lost since the one before.
///
/// The only refusal is out of memory.
///
/// Source: our profile.
pub fn report_of(
    alloc: Global,
    format: LogFormat,
    second: u64,
    lost: u64,
) -> Result<LogLine, AllocError>
    ensures line { IfOk result (λ line. spec.IsReportOf format second lost line) }
    ensures ascii { IfOk result IsLine }
{
    let date = date_of(second);
    dated_report(alloc, format, second, &date, lost)
}

fn dated_report(
    alloc: Global,
    format: LogFormat,
    second: u64,
    date: &[u8; 29],
    lost: u64,
) -> Result<LogLine, AllocError>
    requires { IsPrintable date.now }
    ensures line { IfOk result (λ line. line ≡ spec.ended (spec.report format second date.now lost)) }
    ensures ascii { IfOk result IsLine }
{
    let mut line = OpenLine::new(alloc);
    match format {
        LogFormat::Line => {
            push_plain_report(&mut line, second, lost)?;
            line.end()
        }
        LogFormat::Combined => {
            push_combined_report(alloc, &mut line, date, lost)?;
            line.end()
        }
        LogFormat::Json => {
            push_json_report(&mut line, date, lost)?;
            line.end()
        }
    }
}

fn push_plain_line(
    line: &mut OpenLine,
    second: u64,
    request: &RequestRecord,
) -> Result<(), AllocError>
    ensures { OnOk result (line.new ≡ line.old ++ spec.plain_line second request.now) }
{
    push_asked_fields(line, second, request)?;
    push_answer_fields(line, request)
}

fn push_asked_fields(
    line: &mut OpenLine,
    second: u64,
    request: &RequestRecord,
) -> Result<(), AllocError>
    ensures { OnOk result (line.new ≡ line.old ++ spec.asked_fields second request.now) }
{
    push_number_field(line, second)?;
    push_field(line, or_dash(request.method.as_slice()))?;
    push_field(line, or_dash(request.url.as_slice()))
}

fn push_answer_fields(line: &mut OpenLine, request: &RequestRecord) -> Result<(), AllocError>
    ensures { OnOk result (line.new ≡ line.old ++ spec.answer_fields request.now) }
{
    push_number_field(line, u64::from(request.status))?;
    push_number_field(line, request.body)?;
    push_number_field(line, request.answers)?;
    push_number(line, request.micros)
}

fn push_request_line(line: &mut OpenLine, request: &RequestRecord) -> Result<(), AllocError>
    ensures { OnOk result (line.new ≡ line.old ++ spec.request_line request.now) }
{
    line.push(b"\"")?;
    push_escaped(line, IN_LOG, or_dash(request.method.as_slice()))?;
    line.push(b" ")?;
    push_escaped(line, IN_LOG, or_dash(request.target.as_slice()))?;
    line.push(b" ")?;
    line.push(version_text(request.version))?;
    line.push(b"\" ")
}

fn push_combined_line(
    alloc: Global,
    line: &mut OpenLine,
    date: &[u8; 29],
    request: &RequestRecord,
) -> Result<(), AllocError>
    requires { IsPrintable date.now }
    ensures { OnOk result (line.new ≡ line.old ++ spec.combined_line date.now request.now) }
{
    push_log_head(alloc, line, date, request.client)?;
    push_request_line(line, request)?;
    push_log_end(line, request)
}

#[tactic(auto, unfolding(crate::specs::Lines::log_head))]
fn push_log_head(
    alloc: Global,
    line: &mut OpenLine,
    date: &[u8; 29],
    client: Option<IpAddr>,
) -> Result<(), AllocError>
    requires { IsPrintable date.now }
    ensures { OnOk result (line.new ≡ line.old ++ spec.log_head date.now client) }
{
    let client = client_text(alloc, client)?;
    push_escaped(line, IN_LOG, client.as_bytes())?;
    line.push(b" - - [")?;
    push_log_time(line, date)?;
    line.push(b"] ")
}

fn push_log_end(line: &mut OpenLine, request: &RequestRecord) -> Result<(), AllocError>
    ensures { OnOk result (line.new ≡ line.old ++ spec.log_end request.now) }
{
    push_number_field(line, u64::from(request.status))?;
    push_number_field(line, request.body)?;
    push_quoted(line, request.referer.as_slice())?;
    line.push(b" ")?;
    push_quoted(line, request.agent.as_slice())
}

fn push_json_line(
    alloc: Global,
    line: &mut OpenLine,
    date: &[u8; 29],
    request: &RequestRecord,
) -> Result<(), AllocError>
    requires { IsPrintable date.now }
    ensures { OnOk result (line.new ≡ line.old ++ spec.json_line date.now request.now) }
{
    push_time_member(line, date)?;
    push_asked_members(alloc, line, request)?;
    push_answer_members(line, request)?;
    push_way_members(line, request)?;
    push_fault_member(line, request.fault.as_ref())?;
    line.push(b"}")
}

#[tactic(auto, unfolding(crate::specs::Lines::time_member))]
fn push_time_member(line: &mut OpenLine, date: &[u8; 29]) -> Result<(), AllocError>
    requires { IsPrintable date.now }
    ensures { OnOk result (line.new ≡ line.old ++ spec.time_member date.now) }
{
    line.push(b"{\"time\":\"")?;
    push_internet_time(line, date)?;
    line.push(b"\"")
}

#[tactic(auto, unfolding(crate::specs::Lines::asked_members))]
fn push_asked_members(
    alloc: Global,
    line: &mut OpenLine,
    request: &RequestRecord,
) -> Result<(), AllocError>
    ensures { OnOk result (line.new ≡ line.old ++ spec.asked_members request.now) }
{
    let client = client_text(alloc, request.client)?;
    push_text_member(line, b"client", client.as_bytes())?;
    push_text_member(line, b"method", request.method.as_slice())?;
    push_text_member(line, b"url", request.url.as_slice())
}

#[tactic(auto, unfolding(crate::specs::Lines::answer_members))]
fn push_answer_members(line: &mut OpenLine, request: &RequestRecord) -> Result<(), AllocError>
    ensures { OnOk result (line.new ≡ line.old ++ spec.answer_members request.now) }
{
    push_number_member(line, b"status", u64::from(request.status))?;
    push_number_member(line, b"bytes", request.body)?;
    push_number_member(line, b"microseconds", request.micros)?;
    push_number_member(line, b"answers", request.answers)
}

#[tactic(auto, unfolding(crate::specs::Lines::way_members))]
fn push_way_members(line: &mut OpenLine, request: &RequestRecord) -> Result<(), AllocError>
    ensures { OnOk result (line.new ≡ line.old ++ spec.way_members request.now) }
{
    push_number_member(line, b"hits", request.hits)?;
    push_number_member(line, b"joined", request.joined)?;
    push_number_member(line, b"bridged", request.bridged)?;
    push_number_member(line, b"failed", request.failed)
}

#[tactic(auto, unfolding(crate::specs::Lines::fault_member))]
fn push_fault_member(line: &mut OpenLine, fault: Option<&Fault>) -> Result<(), AllocError>
    ensures { OnOk result (line.new ≡ line.old ++ spec.fault_member (option_copied fault.entry)) }
{
    let Some(fault) = fault else {
        return Ok(());
    };
    line.push(b",\"fault\":\"")?;
    line.push(fault.reason.name().as_bytes())?;
    push_part(line, fault.url.as_slice())?;
    push_part(line, fault.message.as_slice())?;
    push_cause(line, fault.cause)?;
    line.push(b"\"")
}

fn push_part(line: &mut OpenLine, text: &[u8]) -> Result<(), AllocError>
    ensures { OnOk result (line.new ≡ line.old ++ spec.text_part text.now) }
{
    if text.is_empty() {
        return Ok(());
    }
    line.push(b" ")?;
    push_escaped(line, IN_JSON, text)
}

fn push_cause(line: &mut OpenLine, cause: Option<FetchFault>) -> Result<(), AllocError>
    ensures { OnOk result (line.new ≡ line.old ++ spec.cause_part cause) }
{
    let Some(cause) = cause else {
        return Ok(());
    };
    line.push(b": ")?;
    line.push(cause.name().as_bytes())
}

fn push_plain_report(line: &mut OpenLine, second: u64, lost: u64) -> Result<(), AllocError>
    ensures { OnOk result (line.new ≡ line.old ++ spec.plain_report second lost) }
{
    push_number_field(line, second)?;
    line.push(b"LOST ")?;
    push_number(line, lost)?;
    line.push(b" 0 0 0 0")
}

fn push_combined_report(
    alloc: Global,
    line: &mut OpenLine,
    date: &[u8; 29],
    lost: u64,
) -> Result<(), AllocError>
    requires { IsPrintable date.now }
    ensures { OnOk result (line.new ≡ line.old ++ spec.combined_report date.now lost) }
{
    push_log_head(alloc, line, date, None)?;
    line.push(b"\"-\" 0 0 \"-\" \"")?;
    push_number(line, lost)?;
    line.push(b" lines lost\"")
}

fn push_json_report(line: &mut OpenLine, date: &[u8; 29], lost: u64) -> Result<(), AllocError>
    requires { IsPrintable date.now }
    ensures { OnOk result (line.new ≡ line.old ++ spec.json_report date.now lost) }
{
    push_time_member(line, date)?;
    push_number_member(line, b"lost", lost)?;
    line.push(b"}")
}
