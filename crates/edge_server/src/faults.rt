//! Why a request wasn't answered with a page as it should be, for who reads the log.

ghost use Rattle.std.specs.Prelude.{◌≡◌, option_map, IfSome};
ghost use Rattle.std.specs.Arc.{arc_value};
ghost use Rattle.std.specs.Option.{option_copied};
ghost use Rattle.access_log.specs.declared.record.Reason.TheVariants as variant;
ghost use Rattle.edge_types.specs.declared.answer.Reply.TheVariants.{Failed};
ghost use Rattle.edge_types.specs.declared.outcome.PageFault.TheVariants.{IncludeFailed};

use crate::journal::{Journal, copy};
use crate::page_service::Responded;
use access_log::{Fault, Reason};
use edge_types::{Answer, PageFault, Reply, SharedBytes};
use fetch_outcomes::FetchFault;
use std::alloc::Global;
use template_check::{Message, check};

/// The reason of a response, with what it is about, and the cause that the journal knows. What there is no memory for is
/// left out.
pub(crate) fn fault_of<R, J: Journal<R>>(
    rt: &R,
    journal: &J,
    alloc: Global,
    responded: &Responded,
) -> Option<Fault>
    ensures { option_map (λ fault. fault.reason) result ≡ responded.now.reason }
{
    let reason = responded.reason?;
    let mut fault = Fault {
        reason,
        url: Vec::new(alloc),
        message: Vec::new(alloc),
        cause: None,
    };
    if let Some(answer) = about(reason, responded) {
        fault.url = copy(alloc, answer.url().as_bytes());
        fault.message = message_of(alloc, reason, answer);
        fault.cause = cause_of(rt, journal, answer);
    }
    Some(fault)
}

// Why the fetch of an answer has failed, where it has and the journal knows.
fn cause_of<R, J: Journal<R>>(rt: &R, journal: &J, answer: &Answer) -> Option<FetchFault>
    ensures { IfSome result (λ _. answer.now.reply ≡ Failed) }
{
    match answer.reply() {
        Reply::Failed => journal.cause_of(rt, answer.url()),
        Reply::Got { .. } => None,
    }
}

// The answer that a reason is about: that of the leg at which the page failed, or the page's own.
fn about(reason: Reason, responded: &Responded) -> Option<&Answer>
    ensures { reason ≡ variant.Page IncludeFailed → option_copied result ≡ option_map arc_value responded.now.failed_leg }
{
    match reason {
        Reason::Page(PageFault::IncludeFailed) => match &responded.failed_leg {
            Some(answer) => Some(&**answer),
            None => None,
        },
        _ => match responded.log.first() {
            Some(page) => Some(&**page),
            None => None,
        },
    }
}

// What is wrong with the answer that a reason is about: the status of a fragment that is no success, or where and why it
// is no template; empty if neither is so.
fn message_of(alloc: Global, reason: Reason, answer: &Answer) -> Vec<u8> {
    let message = match answer.reply() {
        Reply::Failed => None,
        Reply::Got { head, .. }
            if reason == Reason::Page(PageFault::IncludeFailed) && !head.is_success() => {
            let status = head.status;
            format!(in alloc; "status {status}").ok()
        }
        Reply::Got { body, .. } if answer.processed() => invalid(alloc, body),
        Reply::Got { .. } => None,
    };
    match message {
        Some(message) => message.into_bytes(),
        None => Vec::new(alloc),
    }
}

// Where and why a text is no template, as a check of it says, if it is none.
fn invalid(alloc: Global, body: &SharedBytes) -> Option<String> {
    let fault = check(alloc, body).ok().flatten()?;
    let message = Message {
        text: body.as_bytes(),
        fault,
    };
    format!(in alloc; "{message}").ok()
}
