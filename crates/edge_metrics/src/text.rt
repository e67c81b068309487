//! The text in which a monitoring system reads what a server counts.

ghost use Rattle.std.specs.Prelude.{◌≡◌, ◌++◌, IfOk, OnOk};
ghost use Rattle.edge_metrics.specs.Text as spec;

use crate::cache_text::push_cache;
use crate::connection_text::push_connections;
use crate::durations::Durations;
use crate::fetch_text::{push_fetches, push_strays, push_without_origin};
use crate::lines::{push_head, push_number, push_sample};
use crate::measured::Measured;
use crate::process_text::{push_lost_lines, push_resident};
use crate::statuses::Statuses;
use fetch_outcomes::OriginTally;
use std::alloc::{AllocError, Global};

/// The text of what was measured, with the fetches from these origins.
///
/// The only refusal is out of memory.
///
/// Source: Prometheus, "Exposition formats", "Text-based format", version 0.0.4; the names are our profile.
pub fn text_of(
    alloc: Global,
    measured: &Measured,
    origins: &[OriginTally],
) -> Result<Vec<u8>, AllocError>
    ensures { IfOk result (λ text. text.items ≡ spec.text measured.now origins.now) }
{
    let mut text = Vec::new(alloc);
    push_requests(&mut text, &measured.requests.statuses)?;
    push_sent(&mut text, measured.requests.bytes)?;
    push_durations(&mut text, &measured.requests.durations)?;
    push_connections(&mut text, &measured.connections)?;
    push_cache(&mut text, &measured.cache)?;
    push_fetches(&mut text, origins)?;
    push_without_origin(&mut text, measured.without_origin)?;
    push_strays(&mut text, origins)?;
    push_lost_lines(&mut text, measured.lost_lines)?;
    push_resident(&mut text, measured.resident)?;
    Ok(text)
}

#[tactic(auto, unfolding(crate::specs::Text::requests))]
fn push_requests(text: &mut Vec<u8>, counts: &Statuses) -> Result<(), AllocError>
    ensures { OnOk result (text.new.items ≡ text.old.items ++ spec.requests counts.now) }
{
    push_requests_head(text)?;
    push_statuses(text, counts)
}

#[tactic(auto, unfolding(crate::specs::Text::requests_head))]
fn push_requests_head(text: &mut Vec<u8>) -> Result<(), AllocError>
    ensures { OnOk result (text.new.items ≡ text.old.items ++ spec.requests_head) }
{
    push_head(
        text,
        b"esi_edge_requests_total",
        b"Requests answered, by status.",
        b"counter",
    )
}

#[tactic(auto, unfolding(crate::specs::Text::statuses))]
fn push_statuses(text: &mut Vec<u8>, counts: &Statuses) -> Result<(), AllocError>
    ensures { OnOk result (text.new.items ≡ text.old.items ++ spec.statuses counts.now) }
{
    push_sample(
        text,
        b"esi_edge_requests_total{status=\"1xx\"}",
        counts.informational,
    )?;
    push_sample(
        text,
        b"esi_edge_requests_total{status=\"2xx\"}",
        counts.successful,
    )?;
    push_sample(
        text,
        b"esi_edge_requests_total{status=\"3xx\"}",
        counts.redirection,
    )?;
    push_sample(
        text,
        b"esi_edge_requests_total{status=\"4xx\"}",
        counts.client_error,
    )?;
    push_sample(
        text,
        b"esi_edge_requests_total{status=\"5xx\"}",
        counts.server_error,
    )
}

#[tactic(auto, unfolding(crate::specs::Text::sent))]
fn push_sent(text: &mut Vec<u8>, bytes: u64) -> Result<(), AllocError>
    ensures { OnOk result (text.new.items ≡ text.old.items ++ spec.sent bytes) }
{
    push_head(
        text,
        b"esi_edge_sent_bytes_total",
        b"Bytes of the bodies of responses.",
        b"counter",
    )?;
    push_sample(text, b"esi_edge_sent_bytes_total", bytes)
}

#[tactic(auto, unfolding(crate::specs::Text::durations))]
fn push_durations(text: &mut Vec<u8>, counts: &Durations) -> Result<(), AllocError>
    ensures { OnOk result (text.new.items ≡ text.old.items ++ spec.durations counts.now) }
{
    push_durations_head(text)?;
    push_short(text, counts)?;
    push_long(text, counts)?;
    push_totals(text, counts)
}

#[tactic(auto, unfolding(crate::specs::Text::durations_head))]
fn push_durations_head(text: &mut Vec<u8>) -> Result<(), AllocError>
    ensures { OnOk result (text.new.items ≡ text.old.items ++ spec.durations_head) }
{
    push_head(
        text,
        b"esi_edge_request_seconds",
        b"Seconds from request to response.",
        b"histogram",
    )
}

// The requests that took no longer than so many seconds.
#[tactic(auto, unfolding(crate::specs::Text::short))]
fn push_short(text: &mut Vec<u8>, counts: &Durations) -> Result<(), AllocError>
    ensures { OnOk result (text.new.items ≡ text.old.items ++ spec.short counts.now) }
{
    push_sample(
        text,
        b"esi_edge_request_seconds_bucket{le=\"0.001\"}",
        counts.millis_1,
    )?;
    push_sample(
        text,
        b"esi_edge_request_seconds_bucket{le=\"0.005\"}",
        counts.millis_5,
    )?;
    push_sample(
        text,
        b"esi_edge_request_seconds_bucket{le=\"0.01\"}",
        counts.millis_10,
    )?;
    push_sample(
        text,
        b"esi_edge_request_seconds_bucket{le=\"0.05\"}",
        counts.millis_50,
    )?;
    push_sample(
        text,
        b"esi_edge_request_seconds_bucket{le=\"0.1\"}",
        counts.millis_100,
    )
}

#[tactic(auto, unfolding(crate::specs::Text::long))]
fn push_long(text: &mut Vec<u8>, counts: &Durations) -> Result<(), AllocError>
    ensures { OnOk result (text.new.items ≡ text.old.items ++ spec.long counts.now) }
{
    push_sample(
        text,
        b"esi_edge_request_seconds_bucket{le=\"0.5\"}",
        counts.millis_500,
    )?;
    push_sample(
        text,
        b"esi_edge_request_seconds_bucket{le=\"1\"}",
        counts.millis_1000,
    )?;
    push_sample(
        text,
        b"esi_edge_request_seconds_bucket{le=\"5\"}",
        counts.millis_5000,
    )?;
    push_sample(
        text,
        b"esi_edge_request_seconds_bucket{le=\"10\"}",
        counts.millis_10000,
    )?;
    push_sample(
        text,
        b"esi_edge_request_seconds_bucket{le=\"+Inf\"}",
        counts.all,
    )
}

#[tactic(auto, unfolding(crate::specs::Text::totals))]
fn push_totals(text: &mut Vec<u8>, counts: &Durations) -> Result<(), AllocError>
    ensures { OnOk result (text.new.items ≡ text.old.items ++ spec.totals counts.now) }
{
    text.extend_from_slice(b"esi_edge_request_seconds_sum ")?;
    push_number(text, counts.micros)?;
    text.extend_from_slice(b"e-6\n")?;
    push_sample(text, b"esi_edge_request_seconds_count", counts.all)
}
