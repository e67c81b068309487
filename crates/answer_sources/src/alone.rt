//! A fetch by itself, of a source that makes several at once.

ghost use Rattle.std.specs.Prelude.{◌≡◌, IfOk, IfSome};
ghost use Rattle.std.specs.Arc.{arc_value};

use crate::concurrent_source::{Arrival, ConcurrentSource};
use crate::given::Given;
use edge_types::{Answer, NoMemory, PageUrl};
use std::alloc::Global;
use std::sync::{Arc, Wait};

/// Begins a fetch, and waits in this thread for its answer; then, for as long as others wait for what it has begun.
/// Nothing if the source has lost the fetch.
///
/// `NoMemory` if an allocation fails.
pub fn fetch_alone<R, S>(source: &S, rt: &R, alloc: Global, url: &PageUrl) -> Arrival
where
    R: Wait,
    S: ConcurrentSource<R>,
    ensures given { IfOk result (λ found. IfSome found (λ given. S.gives source.now url.now (arc_value given.answer))) }
    ensures named { IfOk result (λ found. IfSome found (λ given. (arc_value given.answer).url ≡ url.now)) }
{
    let mut in_flight = source.nothing_in_flight(rt, alloc);
    let came = begun_and_awaited(source, rt, alloc, &mut in_flight, url);
    let_go(source, rt, alloc, &mut in_flight);
    source.give_up(rt, alloc, in_flight);
    match came? {
        Some(given) if given.answer.url() == url => Ok(Some(given)),
        _ => Ok(None),
    }
}

/// The same; a failed answer if the source has lost the fetch.
pub fn fetch_or_fail<R, S>(
    source: &S,
    rt: &R,
    alloc: Global,
    url: &PageUrl,
) -> Result<Given, NoMemory>
where
    R: Wait,
    S: ConcurrentSource<R>,
    ensures { IfOk result (λ given. (arc_value given.answer).url ≡ url.now) }
{
    match fetch_alone(source, rt, alloc, url)? {
        Some(given) => Ok(given),
        None => Ok(Given::fetched(Arc::new(alloc, Answer::failed(url.share()?))?)),
    }
}

// What comes first, once this was begun too; nothing if no fetch is in flight any longer.
fn begun_and_awaited<R, S>(
    source: &S,
    rt: &R,
    alloc: Global,
    in_flight: &mut S::InFlight,
    url: &PageUrl,
) -> Arrival
where
    R: Wait,
    S: ConcurrentSource<R>,
    ensures { IfOk result (λ found. IfSome found (λ given.
        S.gives source.now (arc_value given.answer).url (arc_value given.answer))) }
{
    source.begin(rt, alloc, in_flight, url)?;
    for _ in rt.forever() {
        if let Some(given) = source.next(rt, alloc, in_flight)? {
            return Ok(Some(given));
        }
        if source.is_idle(in_flight) {
            return Ok(None);
        }
        source.wait(rt, alloc, in_flight, None)?;
    }
    unreachable!()
}

/// Waits until nobody else waits for what is in flight, or memory runs out.
pub fn let_go<R, S>(source: &S, rt: &R, alloc: Global, in_flight: &mut S::InFlight)
where
    R: Wait,
    S: ConcurrentSource<R>,
{
    for _ in rt.forever() {
        if source.let_go(rt, alloc, in_flight) || source.wait(rt, alloc, in_flight, None).is_err() {
            return;
        }
    }
    unreachable!()
}
