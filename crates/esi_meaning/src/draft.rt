//! The draft of a page: its legs and its text so far. Nothing here is recursive.

ghost use Rattle.std.specs.Prelude.{◌≡◌, ◌+◌, ◌<◌, ◌≤◌, ◌↔◌, IsTrue, IfOk, OnOk, None, Some};
ghost use Rattle.std.specs.Bool.{OnTrue};
ghost use Rattle.std.specs.Arc.{arc_value};
ghost use Rattle.edge_types.specs.Answered.{body_of};
ghost use Rattle.esi_vars.specs.Values.{substituted};
ghost use Rattle.esi_meaning.specs.Ending.{Adds, Ends};
ghost use Rattle.esi_meaning.specs.Meaning.{on_error, unprocessed_run};
ghost use Rattle.esi_meaning.specs.Run.{AsksNobody, gives, tries};

use crate::limits::MAX_LEGS;
use edge_types::{Answer, NoMemory, PageBody, Request, SharedBytes};
use esi_tree::OnError;
use esi_vars::{Part, substitute};
use std::alloc::Global;
use std::sync::Arc;

/// How a run ends.
#[derive(Clone, Copy, Debug, Drop, PartialEq, Eq)]
pub(crate) enum Ending {
    /// Its text is at the end of the output.
    Complete,
    /// It failed, and the output is as it was.
    Failed,
    /// It needs one more leg than a page may try.
    TooManyLegs,
}

/// A page as far as it was evaluated.
#[derive(Drop)]
pub(crate) struct Draft {
    /// How many legs were tried.
    pub(crate) legs: u16,
    /// The text so far.
    pub(crate) body: PageBody,
}

/// Outputs a text as it is.
pub(crate) fn push_text(text: &SharedBytes, draft: &mut Draft) -> Result<Ending, NoMemory>
    requires { draft.old.legs ≤ MAX_LEGS }
    ensures { IfOk result
        (Ends (gives (Some text.now)) draft.old draft.new) }
{
    draft.body.push(text.share()?)?;
    Ok(Ending::Complete)
}

/// Outputs a text with the values of its references.
pub(crate) fn push_values(
    alloc: Global,
    request: &Request,
    parts: &[Part],
    draft: &mut Draft,
) -> Result<Ending, NoMemory>
    requires { draft.old.legs ≤ MAX_LEGS }
    ensures { IfOk result
        (Ends (gives (Some (substituted request.now parts.now))) draft.old draft.new) }
{
    let text = substitute(alloc, request, parts)?;
    draft.body.push(SharedBytes::of(text)?)?;
    Ok(Ending::Complete)
}

/// An include that can't be fetched: nothing, or a failure.
pub(crate) fn on_error(asked: OnError) -> Ending
    ensures { (p : Draft) → p.legs ≤ MAX_LEGS → Ends (on_error asked) p p result }
{
    match asked {
        OnError::Continues => Ending::Complete,
        OnError::Fails => Ending::Failed,
    }
}

/// A leg that fetches nothing and has no text.
pub(crate) fn no_leg(draft: &mut Draft) -> Ending
    requires { draft.old.legs ≤ MAX_LEGS }
    ensures { Ends (tries AsksNobody (gives None)) draft.old draft.new result }
{
    if !count_leg(&mut draft.legs) {
        return Ending::TooManyLegs;
    }
    Ending::Failed
}

/// Counts one more leg, unless the page may try no more.
pub(crate) fn count_leg(legs: &mut u16) -> bool
    ensures room { IsTrue result ↔ (legs.old < MAX_LEGS) }
    ensures counted { OnTrue result (legs.new ≡ legs.old + 1) }
{
    if *legs >= MAX_LEGS {
        return false;
    }
    *legs += 1;
    true
}

/// An answer that isn't processed: its body as it is, if the fetch succeeded.
pub(crate) fn unprocessed(answer: &Arc<Answer>, draft: &mut Draft) -> Result<Ending, NoMemory>
    requires { draft.old.legs ≤ MAX_LEGS }
    ensures { IfOk result
        (Ends (unprocessed_run (arc_value answer.now).reply) draft.old draft.new) }
{
    if !answer.succeeded() {
        return Ok(Ending::Failed);
    }
    push_whole(answer, &mut draft.body)?;
    Ok(Ending::Complete)
}

/// Adds an answer's body at the end of a page's, as it is.
pub(crate) fn push_whole(answer: &Arc<Answer>, page: &mut PageBody) -> Result<(), NoMemory>
    ensures { OnOk result (Adds (body_of (arc_value answer.now).reply) page.old page.new) }
{
    page.push(answer.share_body()?)
}
