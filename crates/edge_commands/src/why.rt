//! Why the page of a case has a fault: which of the case's templates are invalid, and at which leg the page failed.
ghost use Rattle.std.specs.Prelude.{◌≡◌};

use crate::status::Status;
use edge_case::{Ran, templates_in};
use edge_types::{Answer, NoMemory, Reply};
use std::alloc::AllocGlobal;
use std::io::Eprint;
use template_check::{Message, check};

/// Reports on standard error each invalid template of the case that was run, by URL, line and column, and the leg at which
/// an include failed its page, by the leg's URL.
pub fn explain<R: AllocGlobal + Eprint>(rt: &R, ran: &Ran) -> Status
    ensures { result ≡ Status.PageFault }
{
    // The page's fault is printed already: if the reason can't be found, nothing more is reported.
    match explained(rt, ran) {
        Ok(false) => {
            let _ = eprintln!(rt; "{NO_TEMPLATE}");
        }
        Ok(true) => {}
        Err(NoMemory) => {
            let _ = eprintln!(rt; "no memory to tell why");
        }
    }
    Status::PageFault
}

// What may be wrong if every template is valid, and no leg with an answer failed.
const NO_TEMPLATE: &str =
    "each template of the case can be read: is an answer that is asked missing or no success, or --levels too small?";

// Reports each invalid template and the leg that failed, and returns whether there is one.
fn explained<R: AllocGlobal + Eprint>(rt: &R, ran: &Ran) -> Result<bool, NoMemory> {
    let mut is_told = false;
    for answer in &templates_in(rt.alloc(), &ran.text)? {
        is_told |= explained_of(rt, answer)?;
    }
    if let Some(answer) = &ran.failed_leg {
        explain_leg(rt, answer);
        is_told = true;
    }
    Ok(is_told)
}

// Reports what the answer is of the leg at which the page failed.
fn explain_leg<R: Eprint>(rt: &R, answer: &Answer) {
    let url = url_of(answer);
    // If standard error can't be written, only the status says it.
    let _ = match answer.reply() {
        Reply::Failed => eprintln!(rt; "{url}: the page fails here: there is no answer"),
        Reply::Got { head, .. } if !answer.succeeded() => {
            let status = head.status;
            eprintln!(rt; "{url}: the page fails here: the status is {status}")
        }
        Reply::Got { .. } => eprintln!(rt; "{url}: the page fails here: this is no template"),
    };
}

// Reports why an answer's body isn't a template, if it isn't; returns whether it did.
fn explained_of<R: AllocGlobal + Eprint>(rt: &R, answer: &Answer) -> Result<bool, NoMemory> {
    let body = answer.share_body()?;
    let Some(fault) = check(rt.alloc(), &body)? else {
        return Ok(false);
    };
    let url = url_of(answer);
    let message = Message {
        text: body.as_bytes(),
        fault,
    };
    // If standard error can't be written, only the status says it.
    let _ = eprintln!(rt; "{url}:{message}");
    Ok(true)
}

// The URL of an answer, which is ASCII.
fn url_of(answer: &Answer) -> &str {
    str::from_utf8(answer.url().as_bytes()).unwrap_or("?")
}
