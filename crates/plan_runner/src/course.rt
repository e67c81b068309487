//! The course of a page: from its own answer on, to where it waits or is done.
ghost use Rattle.std.specs.Prelude.{◌≡◌, ℕ, List, IfOk};
ghost use Rattle.std.specs.Arc.{arc_value};
ghost use Rattle.answer_board.specs.Board.{log_of};
ghost use Rattle.edge_types.specs.Outcome.{shown};
ghost use Rattle.edge_types.specs.declared.head.Head.{Head};
ghost use Rattle.esi_meaning.specs.Meaning.{text_outcome};
ghost use Rattle.plan_machine.specs.Laws.{IsPage};
ghost use Rattle.plan_machine.specs.Rests.{text_so_far};
ghost use Rattle.esi_tree.specs.Tree.{Elements};
ghost use Rattle.plan_runner.specs.Plain.{plain_outcome};
ghost use Rattle.plan_runner.specs.Running.{IsTemplate, IsRunning, Begins, Comes};

use crate::advance::{Progress, advance};
use crate::leg::Setting;
use crate::machine::{check_len, started};
use crate::step::Reached;
use edge_types::{Answer, NoMemory, Outcome, PageBody, PageFault, PageUrl, Reply};
use esi_vars::Lookups;
use plan_compiler::Form;
use std::alloc::Global;
use std::mem;
use std::sync::Arc;

// The state of a page.
#[derive(Drop)]
pub(crate) enum Came {
    // Its own answer isn't there.
    Unread,
    // It waits at a leg of this level for this URL.
    Waits(u8, PageUrl),
    Done(Outcome),
}

// What the page's own answer results in.
#[derive(Drop)]
pub(crate) enum Begun {
    // It isn't there.
    Missing,
    // It is a template, and the machine is before its first step.
    Running,
    Done(Outcome),
}

// Goes on from the page's own answer.
pub(crate) fn begin_and_go_on(
    setting: &Setting<'_>,
    url: &PageUrl,
    levels: u8,
    progress: &mut Progress,
) -> Result<Came, NoMemory>
    requires fresh { progress.old.steps ≡ 0 }
    ensures { IfOk result (λ came. Comes setting.now.request.now levels url.now setting.now.board.now progress.new came) }
{
    match begin(setting, url, levels, progress)? {
        Begun::Missing => Ok(Came::Unread),
        Begun::Done(outcome) => Ok(Came::Done(outcome)),
        Begun::Running => {
            let came = go_on(setting, url, levels, progress)?;
            Ok(came)
        }
    }
}

// Goes on from where the machine is.
pub(crate) fn go_on(
    setting: &Setting<'_>,
    url: &PageUrl,
    levels: u8,
    progress: &mut Progress,
) -> Result<Came, NoMemory>
    requires running { IsRunning setting.now.request.now levels url.now setting.now.board.now progress.old }
    ensures { IfOk result (λ came. Comes setting.now.request.now levels url.now setting.now.board.now progress.new came) }
{
    match advance(progress, setting)? {
        Reached::Waits(level, missing) => Ok(Came::Waits(level, missing)),
        Reached::TooMany => {
            progress.steps = progress.steps.saturating_add(1);
            Ok(Came::Done(Outcome::Fault(PageFault::TooManyLegs)))
        }
        Reached::End => {
            let outcome = ended(setting, url, progress)?;
            Ok(Came::Done(outcome))
        }
        Reached::Went => unreachable!(),
    }
}

// What the page's own answer results in.
fn begin(
    setting: &Setting<'_>,
    url: &PageUrl,
    levels: u8,
    progress: &mut Progress,
) -> Result<Begun, NoMemory>
    requires fresh { progress.old.steps ≡ 0 }
    ensures { IfOk result (λ begun. Begins setting.now.request.now levels url.now setting.now.board.now progress.old progress.new begun) }
{
    // For the clause: the contract of `filled` tells the prover that the board is sound.
    let _ = setting.board.filled();
    let Some(slot) = setting.board.number(url) else {
        return Ok(Begun::Missing);
    };
    let Some(own) = setting.board.prepared(slot) else {
        return Ok(Begun::Missing);
    };
    match own.form() {
        Form::Plain => {
            let outcome = plain(setting.alloc, own.answer(), setting.most)?;
            Ok(Begun::Done(outcome))
        }
        Form::BadAt(place) => Ok(Begun::Done(Outcome::Fault(PageFault::BadTemplate(*place)))),
        Form::Planned(plan) => {
            let lookups = mem::replace(&mut progress.machine.lookups, Lookups::none());
            progress.machine = started(setting.alloc, slot, plan.len(), levels, lookups)?;
            Ok(Begun::Running)
        }
    }
}

// The outcome of a page that isn't processed; refused if it has more bytes than it may have.
fn plain(alloc: Global, answer: &Arc<Answer>, most: usize) -> Result<Outcome, NoMemory>
    ensures { IfOk result (λ o. shown o ≡ plain_outcome (arc_value answer.now).reply) }
{
    let Reply::Got { head, .. } = answer.reply() else {
        return Ok(Outcome::Fault(PageFault::PageFetch));
    };
    let mut body = PageBody::new(alloc);
    body.push(answer.share_body()?)?;
    check_len(&body, most)?;
    let head = head.copy(alloc)?;
    Ok(Outcome::Page { head, body })
}

// The outcome of a page whose machine has come to its end.
fn ended(setting: &Setting<'_>, url: &PageUrl, progress: &mut Progress) -> Result<Outcome, NoMemory>
    requires template { IsTemplate (log_of setting.now.board.now) url.now }
    ensures shown { IfOk result (λ o. (tree : Elements) (head : Head) → IsPage (log_of setting.now.board.now) url.now tree head
        → shown o ≡ text_outcome head (text_so_far progress.old.machine.failed progress.old.machine.out)) }
    ensures steps { progress.new.steps ≡ progress.old.steps }
    ensures last { progress.new.machine.last ≡ progress.old.machine.last }
{
    if progress.machine.failed {
        return Ok(Outcome::Fault(PageFault::IncludeFailed));
    }
    // For the clause: the contract of `filled` tells the prover that the board is sound.
    let _ = setting.board.filled();
    let Some(own) = setting.board.get(url) else {
        unreachable!()
    };
    let Reply::Got { head, .. } = own.answer().reply() else {
        unreachable!()
    };
    let head = head.copy(setting.alloc)?;
    let body = mem::replace(&mut progress.machine.out, PageBody::new(setting.alloc));
    Ok(Outcome::Page { head, body })
}
