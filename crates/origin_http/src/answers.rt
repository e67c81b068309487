//! The answers that fetches result in.

ghost use Rattle.std.specs.Prelude.{◌≡◌, None, IsTrue, IfOk, IfErr};
ghost use Rattle.fetch_outcomes.specs.declared.fetch_fault.FetchFault.TheVariants as faults;
ghost use Rattle.origin_http.specs.Fetches.{AnswersLost, HasBody, HasControl, HasHead, IsOverfull, IsRefused, IsTooLong, NamesFault, lost_with};
ghost use Rattle.origin_http.specs.Heads as heads;

use crate::fields::{control_for, head_of};
use crate::head::is_coded;
use crate::head_rules::HeadRules;
use crate::response::Response;
use edge_types::{Answer, NoMemory, PageUrl, SharedBytes};
use fetch_outcomes::{FetchFault, Lost};
use http::response::Parts;
use std::alloc::Global;

/// The answer that a fetch results in, and why it is a failed one, if it is.
#[derive(Drop)]
pub struct Fetched {
    pub answer: Answer,
    pub fault: Option<FetchFault>,
}

impl Fetched {
    // An answer that came.
    fn got(answer: Answer) -> Fetched
        ensures { result ≡ record { answer = answer; fault = None } }
    {
        Fetched {
            answer,
            fault: None,
        }
    }

    // The failed answer of a URL.
    fn failed(url: &PageUrl, fault: FetchFault) -> Result<Fetched, NoMemory>
        ensures { IfOk result (λ fetched. fetched ≡ lost_with fault url.now) }
    {
        Ok(Fetched {
            answer: Answer::failed(url.share()?),
            fault: Some(fault),
        })
    }
}

/// What a fetch results in: a failed answer if it got no response.
pub fn answered(
    alloc: Global,
    url: &PageUrl,
    rules: HeadRules<'_>,
    came: Response,
) -> Result<Fetched, NoMemory>
    ensures url { IfOk result (λ fetched. fetched.answer.url ≡ url.now) }
    ensures fault { IfOk result NamesFault }
    ensures coded { IfOk came (λ page. IsTrue (heads.is_coded page.0.headers) → IfOk result (λ fetched. fetched ≡ lost_with faults.Coded url.now)) }
    ensures status { IfOk came (λ page. IsRefused page.0 → IfOk result (λ fetched. fetched ≡ lost_with faults.Status url.now)) }
    ensures overfull { IfOk came (λ page. IsOverfull rules.entry page.0 → IfOk result (λ fetched. fetched ≡ lost_with faults.Fields url.now)) }
    ensures long { IfOk came (λ page. IsTooLong rules.entry page.0 page.1.items → IfOk result (λ fetched. fetched ≡ lost_with faults.TooLong url.now)) }
    ensures head { IfOk came (λ page. IfOk result (λ fetched. HasHead rules.entry fetched.answer.reply page.0)) }
    ensures control { IfOk came (λ page. IfOk result (λ fetched. HasControl rules.entry fetched.answer.reply page.0)) }
    ensures body { IfOk came (λ page. IfOk result (λ fetched. HasBody rules.entry fetched.answer.reply page.1.items)) }
    ensures lost { IfErr came (λ lost. AnswersLost lost url.now result) }
{
    match came {
        Ok((parts, body)) => answer_of(alloc, url, rules, &parts, body),
        Err(Lost::Fault(fault)) => Fetched::failed(url, fault),
        Err(Lost::NoMemory) => Err(NoMemory),
    }
}

// The answer that a response makes; a failed one if no answer may be like that.
fn answer_of(
    alloc: Global,
    url: &PageUrl,
    rules: HeadRules<'_>,
    parts: &Parts,
    body: Vec<u8>,
) -> Result<Fetched, NoMemory>
    ensures url { IfOk result (λ fetched. fetched.answer.url ≡ url.now) }
    ensures fault { IfOk result NamesFault }
    ensures coded { IsTrue (heads.is_coded parts.now.headers) → IfOk result (λ fetched. fetched ≡ lost_with faults.Coded url.now) }
    ensures status { IsRefused parts.now → IfOk result (λ fetched. fetched ≡ lost_with faults.Status url.now) }
    ensures overfull { IsOverfull rules.entry parts.now → IfOk result (λ fetched. fetched ≡ lost_with faults.Fields url.now) }
    ensures long { IsTooLong rules.entry parts.now body.items → IfOk result (λ fetched. fetched ≡ lost_with faults.TooLong url.now) }
    ensures head { IfOk result (λ fetched. HasHead rules.entry fetched.answer.reply parts.now) }
    ensures control { IfOk result (λ fetched. HasControl rules.entry fetched.answer.reply parts.now) }
    ensures body { IfOk result (λ fetched. HasBody rules.entry fetched.answer.reply body.items) }
{
    if is_coded(&parts.headers) {
        return Fetched::failed(url, FetchFault::Coded);
    }
    let control = control_for(alloc, rules, parts)?;
    let head = head_of(alloc, rules, parts, control)?;
    if !head.has_status() {
        return Fetched::failed(url, FetchFault::Status);
    }
    if !head.fields.are_acceptable() {
        return Fetched::failed(url, FetchFault::Fields);
    }
    match Answer::of_head(url.share()?, head, control, SharedBytes::of(body)?) {
        Some(answer) if rules.limits.allow(&answer) => Ok(Fetched::got(answer)),
        _ => Fetched::failed(url, FetchFault::TooLong),
    }
}
