//! From the head of a request to its response.

ghost use Rattle.std.specs.Prelude.{◌≡◌, ◌⊎◌, box_value, IfOk, IfErr, IfSome, MatchOption, Some};
ghost use Rattle.std.specs.Arc.{arc_value};
ghost use Rattle.page_http.specs.Sent.{IsRefusal, Tells, refusal, sent};
ghost use Rattle.hyper_edge.specs.Responses as spec;

use crate::reasons::{reason_of, status_of};
use access_log::Reason;
use answer_sources::{ConcurrentSource, OneByOne, Source, WayCounts};
use edge_server::{Begun, Gone, Responded, Told};
use edge_types::{NoMemory, PageUrl, Request};
use fetch_workers::{AssembleFault, Assembled, Assembling, Ended, OwedFetches, PageInProgress};
use http::Response;
use page_http::{EdgeBody, Field, HeadFault, answer_head, refusal_of, response_of};
use std::alloc::Global;
use std::sync::Wait;
use std::thread::Threads;

/// The response to the head of a request: the page that it asks for, assembled from answers of the
/// source.
///
/// `method`, `target` and `fields` are as in `answer_head`. Any method other than `GET` gets 405, a
/// head that doesn't ask for a page 400. Without enough memory the response is 503; a page's fault is 502. Where
/// no thread can be started that is to fetch for the page, it is assembled by this one. The source is asked for one
/// answer at a time by each thread.
///
/// The only refusal is running out of memory for the response itself.
///
/// Source: RFC 9110, "Status Codes"; our profile.
pub fn respond<R, S>(
    rt: &R,
    alloc: Global,
    source: &S,
    method: &[u8],
    target: &[u8],
    fields: &[Field<'_>],
    how: Assembling,
) -> Result<Response<EdgeBody>, NoMemory>
where
    R: Wait + Threads + Sync,
    S: Source<R> + Sync,
    ensures { IfOk result (λ response.
        spec.Responds (S.gives source.now) method.now target.now fields.now how.levels (sent response)) }
{
    let head = RequestHead {
        method,
        target,
        fields,
    };
    let responded = respond_with_log(rt, alloc, &OneByOne { source }, &head, how)?;
    Ok(responded.response)
}

/// The head of a request, as `answer_head` reads it.
#[derive(Clone, Copy)]
pub(crate) struct RequestHead<'a> {
    pub(crate) method: &'a [u8],
    pub(crate) target: &'a [u8],
    pub(crate) fields: &'a [Field<'a>],
}

// The response to the head of a request, with the answers that the page asked the source for.
fn respond_with_log<R, S>(
    rt: &R,
    alloc: Global,
    source: &S,
    head: &RequestHead<'_>,
    how: Assembling,
) -> Result<Responded, NoMemory>
where
    R: Wait + Threads + Sync,
    S: ConcurrentSource<R> + Sync,
    ensures { IfOk result (λ responded.
        spec.Responds (S.gives source.now) head.now.method.now head.now.target.now head.now.fields.now how.levels (sent responded.response)) }
{
    if let Some(responded) = tried(rt, alloc, source, head, how)? {
        return Ok(responded);
    }
    let alone = Assembling::new(how.ahead, 1, how.levels).with_most_bytes(how.bytes);
    match tried(rt, alloc, source, head, alone)? {
        Some(responded) => Ok(responded),
        None => no_room(alloc),
    }
}

// The response to the head of a request; `None` where a thread that is wanted for its page can't be started.
fn tried<R, S>(
    rt: &R,
    alloc: Global,
    source: &S,
    head: &RequestHead<'_>,
    how: Assembling,
) -> Result<Option<Responded>, NoMemory>
where
    R: Wait + Threads + Sync,
    S: ConcurrentSource<R> + Sync,
    ensures { IfOk result (λ tried. MatchOption tried (spec.WantsRoom head.now.method.now head.now.fields.now) (λ responded.
        spec.Responds (S.gives source.now) head.now.method.now head.now.target.now head.now.fields.now how.levels (sent responded.response))) }
{
    match answer_head(alloc, head.method, head.target, head.fields) {
        Ok((url, request)) => paged(rt, alloc, source, url, request, how),
        Err(HeadFault::Method) => Ok(Some(refused(alloc, 405, Reason::Method)?)),
        Err(HeadFault::Unreadable) => Ok(Some(refused(alloc, 400, Reason::Unreadable)?)),
        Err(HeadFault::NoMemory) => Ok(Some(no_room(alloc)?)),
    }
}

// What is sent for a page that is asked for: the page, if there is room for it. `None` where a thread that is wanted
// for it can't be started.
fn paged<R, S>(
    rt: &R,
    alloc: Global,
    source: &S,
    url: PageUrl,
    request: Request,
    how: Assembling,
) -> Result<Option<Responded>, NoMemory>
where
    R: Wait + Threads + Sync,
    S: ConcurrentSource<R> + Sync,
    ensures { IfOk result (λ made. IfSome made (λ responded.
        (sent responded.response ≡ refusal 503)
        ⊎ spec.TellsPageAt (S.gives source.now) url request how.levels (sent responded.response))) }
{
    match how.assemble(rt, alloc, source, url, request) {
        Ok(page) => Ok(Some(paged_of(alloc, page)?)),
        Err(AssembleFault::NoThread) => Ok(None),
        Err(AssembleFault::NoMemory | AssembleFault::Torn) => Ok(Some(no_room(alloc)?)),
    }
}

// What is sent for a page that was assembled.
fn paged_of(alloc: Global, page: Assembled) -> Result<Responded, NoMemory>
    ensures { IfOk result (λ responded. Tells (arc_value page.outcome) (sent responded.response)) }
{
    let status = status_of(&page.outcome);
    let response = response_of(alloc, page.outcome)?;
    let reason = reason_of(status, response.status().as_u16());
    Ok(Responded {
        response,
        log: page.log,
        ways: page.ways,
        reason,
        failed_leg: page.failed_leg,
    })
}

/// Begins the response to the head of a request. A page that may have several fetches in flight is to be gone on with, and
/// nothing is fetched for it yet; any other is assembled at once.
pub(crate) fn begin_response<R, S>(
    rt: R,
    alloc: Global,
    source: S,
    head: &RequestHead<'_>,
    how: Assembling,
) -> Result<Begun<PageInProgress<R, S>>, NoMemory>
where
    R: Wait + Threads + Sync + Drop,
    S: ConcurrentSource<R> + Sync + Drop,
    ensures at_once { IfOk result (λ begun. IfOk begun (λ responded.
        spec.Responds (S.gives source) head.now.method.now head.now.target.now head.now.fields.now how.levels (sent responded.response))) }
    ensures page { IfOk result (λ begun. IfErr begun (λ page.
        spec.IsAskedFor head.now.method.now head.now.target.now head.now.fields.now (box_value page.work.under_way).wanted.url (box_value page.work.under_way).wanted.request)) }
    ensures source { IfOk result (λ begun. IfErr begun (λ page. page.work.posted.source ≡ source)) }
    ensures levels { IfOk result (λ begun. IfErr begun (λ page. (box_value page.work.under_way).wanted.levels ≡ how.levels)) }
{
    if how.fetches == 1 {
        return Ok(Ok(respond_with_log(&rt, alloc, &source, head, how)?));
    }
    match answer_head(alloc, head.method, head.target, head.fields) {
        Ok((url, request)) => match how.begin(rt, alloc, source, url, request) {
            Ok(page) => Ok(Err(page)),
            Err(NoMemory) => Ok(Ok(no_room(alloc)?)),
        },
        Err(HeadFault::Method) => Ok(Ok(refused(alloc, 405, Reason::Method)?)),
        Err(HeadFault::Unreadable) => Ok(Ok(refused(alloc, 400, Reason::Unreadable)?)),
        Err(HeadFault::NoMemory) => Ok(Ok(no_room(alloc)?)),
    }
}

/// Goes on with a page as far as it gets without waiting.
pub(crate) fn go_on_with<R, S>(
    alloc: Global,
    page: PageInProgress<R, S>,
) -> Result<Gone<PageInProgress<R, S>, OwedFetches<R, S>>, NoMemory>
where
    R: Wait + Drop,
    S: ConcurrentSource<R> + Drop,
    ensures told { let wanted = (box_value page.work.under_way).wanted in IfOk result (λ went. IfOk went (λ told.
        (sent told.responded.response ≡ refusal 503)
        ⊎ spec.TellsPageAt (S.gives page.work.posted.source) wanted.url wanted.request wanted.levels (sent told.responded.response))) }
    ensures source { IfOk result (λ went. IfErr went (λ left. left.work.posted.source ≡ page.work.posted.source)) }
    ensures wanted { IfOk result (λ went. IfErr went (λ left. (box_value left.work.under_way).wanted ≡ (box_value page.work.under_way).wanted)) }
{
    match page.go_on() {
        Ok(Ended { made, owed }) => match made {
            Ok(page) => {
                let responded = paged_of(alloc, page)?;
                Ok(Ok(Told { responded, owed }))
            }
            Err(_) => {
                let responded = no_room(alloc)?;
                Ok(Ok(Told { responded, owed }))
            }
        },
        Err(page) => Ok(Err(page)),
    }
}

/// A refusal for a reason, which rests on no answer.
pub(crate) fn refused(alloc: Global, status: u16, reason: Reason) -> Result<Responded, NoMemory>
    requires { IsRefusal status }
    ensures sent { IfOk result (λ responded. sent responded.response ≡ refusal status) }
    ensures reason { IfOk result (λ responded. responded.reason ≡ Some reason) }
{
    Ok(Responded {
        response: refusal_of(alloc, status)?,
        log: Vec::new(alloc),
        ways: WayCounts::new(),
        reason: Some(reason),
        failed_leg: None,
    })
}

// The refusal if memory or threads run out for the page.
pub(crate) fn no_room(alloc: Global) -> Result<Responded, NoMemory>
    ensures { IfOk result (λ responded. sent responded.response ≡ refusal 503) }
{
    refused(alloc, 503, Reason::NoRoom)
}
