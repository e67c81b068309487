//! What the options of `serve` ask of a server.
ghost use Rattle.std.specs.Prelude.{◌≡◌, MatchOption};
ghost use Rattle.edge_setup.specs.Said.{number_of, value_of};
ghost use Rattle.edge_setup.specs.declared.number.Number.TheVariants as number;
ghost use Rattle.edge_parts.specs.ServerOptions.{ahead_for, AreAskedBy, AreBodyLimits, AreBounds, AreClientsOf, AreFetchesOf, ArePagesOf, IsUnbounded, bytes_of, crowd_of, fetch_millis, idle_of, limit_of, nanos_of, queue_for};

use crate::server_options::{Fetches, ServerOptions};
use edge_connections::{Capacity, Limits};
use edge_setup::{Number, Numbers, Setup};
use fetch_workers::Assembling;
use origin_http::BodyLimits;
use origins::Bounds;
use std::time::Duration;

// A limit of this many milliseconds; 0 means no limit.
fn limit_of(millis: u32) -> Option<Duration>
    ensures { nanos_of result ≡ limit_of millis }
{
    if millis == 0 {
        None
    } else {
        Some(Duration::from_millis(u64::from(millis)))
    }
}

// The milliseconds that a fetch may take: no more than its page may; 0 means no limit.
fn fetch_millis(timeout: u32, page: u32) -> u32
    ensures { result ≡ fetch_millis timeout page }
{
    if page == 0 {
        timeout
    } else if timeout == 0 {
        page
    } else {
        timeout.min(page)
    }
}

// How long a connection is kept for a further request, in seconds; 0 means that none is kept.
fn idle_of(seconds: u32) -> Option<Duration>
    ensures { nanos_of result ≡ idle_of seconds }
{
    if seconds == 0 {
        None
    } else {
        Some(Duration::from_secs(u64::from(seconds)))
    }
}

// How many bytes a page may have; 0 means any number.
fn bytes_of(count: u32) -> usize
    ensures { result ≡ bytes_of count }
{
    if count == 0 {
        usize::MAX
    } else {
        count as usize
    }
}

// How many slots posts may open ahead: they are of the whole page, and a fetch without a slot begins late.
fn ahead_of(numbers: &Numbers) -> u16
    ensures { result ≡ ahead_for (number_of numbers.now number.Fetches) (value_of numbers.now number.Ahead) }
{
    match numbers.said(Number::Ahead) {
        Some(ahead) => ahead as u16,
        None if numbers.u16_of(Number::Fetches) == 1 => 16,
        None => 256,
    }
}

// How many fetches may wait for an address: where no number says how many, as many as connections may be open.
fn queue_of(numbers: &Numbers) -> u32
    ensures { result ≡ queue_for (number_of numbers.now number.Connections) (value_of numbers.now number.OriginQueue) }
{
    match numbers.said(Number::OriginQueue) {
        Some(most) => most as u32,
        None => numbers.u32_of(Number::Connections),
    }
}

// When an address may be asked: 0 fetches in flight mean that there is no bound, and a rest is in milliseconds.
fn bounds_of(numbers: &Numbers) -> Option<Bounds>
    ensures { MatchOption result (IsUnbounded numbers.now) (AreBounds numbers.now) }
{
    let fetches = numbers.u32_of(Number::OriginFetches);
    let rest = numbers.u64_of(Number::OriginRest);
    if fetches == 0 && rest == 0 {
        return None;
    }
    Some(Bounds {
        most_in_flight: if fetches == 0 { None } else { Some(fetches) },
        most_waiting: queue_of(numbers),
        rest: rest * 1_000,
    })
}

// How many may wait for a fetch that another page has begun: where each of them holds a thread, no more than may fetch at
// once.
fn crowd_of(numbers: &Numbers) -> Option<u32>
    ensures { result ≡ crowd_of (number_of numbers.now number.Fetches) (number_of numbers.now number.OriginFetches) }
{
    let most = numbers.u32_of(Number::OriginFetches);
    if numbers.u16_of(Number::Fetches) == 1 && most > 0 {
        Some(most)
    } else {
        None
    }
}

// How long the bodies of answers may be.
fn bodies_of(numbers: &Numbers) -> BodyLimits
    ensures { AreBodyLimits numbers.now result }
{
    BodyLimits {
        body: numbers.u32_of(Number::BodyBytes) as usize,
        template: numbers.u32_of(Number::TemplateBytes) as usize,
    }
}

// How origins are asked.
fn fetches_of(numbers: &Numbers) -> Fetches
    ensures { AreFetchesOf numbers.now result }
{
    let timeout = numbers.u32_of(Number::Timeout);
    let page = numbers.u32_of(Number::PageTimeout);
    Fetches {
        limit: limit_of(fetch_millis(timeout, page)),
        idle: numbers.u16_of(Number::OriginKeepAlive),
        bounds: bounds_of(numbers),
        crowd: crowd_of(numbers),
        lookup: numbers.u32_of(Number::OriginLookup),
        url_rest: numbers.u32_of(Number::UrlRest),
        bodies: bodies_of(numbers),
    }
}

// How pages are assembled.
fn pages_of(numbers: &Numbers) -> Assembling
    ensures { ArePagesOf numbers.now result }
{
    let workers = numbers.u8_of(Number::Workers);
    let levels = numbers.u8_of(Number::Levels);
    Assembling::new(ahead_of(numbers), workers, levels)
        .with_fetches(numbers.u16_of(Number::Fetches))
        .with_most_bytes(bytes_of(numbers.u32_of(Number::PageBytes)))
}

// How long a client may take.
fn clients_of(numbers: &Numbers) -> Limits
    ensures { AreClientsOf numbers.now result }
{
    let client = limit_of(numbers.u32_of(Number::ClientTimeout));
    Limits {
        request: client,
        response: client,
        idle: idle_of(numbers.u32_of(Number::KeepAlive)),
    }
}

/// What a setup asks of its server.
pub fn options_of(setup: Setup) -> ServerOptions
    ensures { AreAskedBy setup result }
{
    let Setup {
        addresses,
        origins,
        numbers,
        flags,
        log,
        name,
        forwarded,
        admin_hosts,
        pass_fields,
        send_fields,
        private,
    } = setup;
    ServerOptions {
        addresses,
        origins,
        fetches: fetches_of(&numbers),
        name,
        clients: clients_of(&numbers),
        pages: pages_of(&numbers),
        page: limit_of(numbers.u32_of(Number::PageTimeout)),
        capacity: usize::from(numbers.u16_of(Number::Capacity)),
        at_once: Capacity {
            threads: numbers.u16_of(Number::Threads),
            connections: numbers.u32_of(Number::Connections),
        },
        accept: numbers.said(Number::Accept).unwrap_or(u64::MAX),
        flags,
        log,
        forwarded,
        admin_hosts,
        pass_fields,
        send_fields,
        private,
    }
}
