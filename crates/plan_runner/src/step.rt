//! One step of a page.
ghost use Rattle.std.specs.Prelude.{◌≡◌, false, [], ◌∷◌, ◌+◌, ◌≤◌, OnOk, IfOk, length};
ghost use Rattle.answer_board.specs.Board.{State, answer_at, log_of};
ghost use Rattle.edge_types.specs.declared.request.Request.{Request};
ghost use Rattle.edge_types.specs.Pieces.{with_piece, with_pieces};
ghost use Rattle.esi_vars.specs.Values.{value_pieces};
ghost use Rattle.plan_compiler.specs.Bodies.{entries};
ghost use Rattle.plan_compiler.specs.Laws.{skip_of};
ghost use Rattle.plan_compiler.specs.Plan as spec;
ghost use Rattle.plan_compiler.specs.Shown.{step_of};
ghost use Rattle.plan_compiler.specs.Urls.{entries_of};
ghost use Rattle.plan_machine.specs.LastLeg.{leg_as, tried_by};
ghost use Rattle.plan_machine.specs.Machine.{Went, goes, unwound, moved, handled, without_first, doing};
ghost use Rattle.plan_runner.specs.LastLeg.{IsHeldAt, Remembers};
ghost use Rattle.plan_runner.specs.Reached.{with_frame, Reaches};
ghost use Rattle.plan_runner.specs.Shown.{shown_frame, shown_frames, shown_machine, IsPlaced, ArePlaced};
ghost use Rattle.plan_runner.specs.Targets.{acted, found_at};

use crate::frames::Frame;
use crate::handlers::Handlers;
use crate::leg::{Setting, Target, find_target};
use crate::machine::{Machine, give, go_on, unwind};
use edge_types::{NoMemory, PageUrl, SharedBytes};
use esi_meaning::MAX_LEGS;
use esi_tree::Parts;
use esi_vars::push_values;
use plan_compiler::{Form, Leg, Prepared, Step};
use plan_machine::Handler;

// How a step ends.
#[derive(Drop)]
pub(crate) enum Reached {
    // It was made.
    Went,
    // It needs, at this level, a URL whose answer isn't there.
    Waits(u8, PageUrl),
    // It is one more leg than a page may try.
    TooMany,
    // There is no step.
    End,
}

// One step of the frame, which is in this template. If the step isn't made, the frame is put
// back as it was.
pub(crate) fn run(
    machine: &mut Machine,
    setting: &Setting<'_>,
    template: &Prepared,
    frame: Frame,
    step: &Step,
) -> Result<Reached, NoMemory>
    requires short { frame.at + 1 + skip_of (step_of step.now) ≤ usize.MAX }
    requires url { template.now.url ≡ (shown_frame setting.now.board.now frame).url }
    requires inlines { entries_of template.now ≡ entries (shown_frame setting.now.board.now frame).tree }
    ensures reached { IfOk result (λ reached. Reaches
        (doing setting.now.request.now (log_of setting.now.board.now) machine.old.legs machine.old.out (moved (shown_frame setting.now.board.now frame) (frame.at + 1)) (shown_frames setting.now.board.now machine.old.frames) (step_of step.now))
        (with_frame setting.now.board.now frame machine.old) (shown_machine setting.now.board.now machine.new) reached) }
    ensures last { IfOk result (λ reached. Remembers setting.now.board.now (tried_by setting.now.request.now (moved (shown_frame setting.now.board.now frame) (frame.at + 1)) (step_of step.now)) machine.old machine.new reached) }
    ensures placed { OnOk result (IsPlaced setting.now.board.now frame → ArePlaced setting.now.board.now machine.old.frames → ArePlaced setting.now.board.now machine.new.frames) }
{
    match step {
        Step::Text(text) => {
            let text = text.share()?;
            give_next(machine, frame, text, setting.most)?;
        }
        Step::Values(parts) => give_values(machine, setting, frame, parts)?,
        Step::Test { test, skip: by } => {
            let holds = test.holds_by(setting.request, &mut machine.lookups);
            let by = if holds { 0 } else { *by };
            skip(machine, frame, by)?;
        }
        Step::Jump { skip: by } => skip(machine, frame, *by)?,
        Step::Try { skip: by } => guard(machine, frame, *by)?,
        Step::EndTry { skip: by } => unguard(machine, frame, *by)?,
        Step::Leg(source) => return leg(machine, setting, template, frame, source),
    }
    Ok(Reached::Went)
}

// Goes on after this many steps.
fn skip(machine: &mut Machine, mut frame: Frame, by: usize) -> Result<(), NoMemory>
    requires { frame.at + 1 + by ≤ usize.MAX }
    ensures going { OnOk result (machine.new.failed ≡ false) }
    ensures shown { OnOk result ((board : State) → shown_machine board machine.new ≡ goes machine.old.legs machine.old.out (moved (shown_frame board frame) (frame.at + 1 + by) ∷ shown_frames board machine.old.frames)) }
    ensures placed { OnOk result ((board : State) → IsPlaced board frame → ArePlaced board machine.old.frames → ArePlaced board machine.new.frames) }
{
    frame.at += 1 + by;
    go_on(machine, frame)?;
    Ok(())
}

// Adds a handler.
fn guard(machine: &mut Machine, mut frame: Frame, by: usize) -> Result<(), NoMemory>
    requires { frame.at + 1 + by ≤ usize.MAX }
    ensures going { OnOk result (machine.new.failed ≡ false) }
    ensures shown { OnOk result ((board : State) → shown_machine board machine.new ≡ goes machine.old.legs machine.old.out
        (handled (shown_frame board frame) (frame.at + 1) (record { to = frame.at + 1 + by; mark = length machine.old.out } ∷ frame.handlers) ∷ shown_frames board machine.old.frames)) }
    ensures placed { OnOk result ((board : State) → IsPlaced board frame → ArePlaced board machine.old.frames → ArePlaced board machine.new.frames) }
{
    frame.at += 1;
    frame.handlers.push(Handler {
        to: frame.at + by,
        mark: machine.out.mark(),
    })?;
    go_on(machine, frame)?;
    Ok(())
}

// Removes a handler.
fn unguard(machine: &mut Machine, mut frame: Frame, by: usize) -> Result<(), NoMemory>
    requires { frame.at + 1 + by ≤ usize.MAX }
    ensures going { OnOk result (machine.new.failed ≡ false) }
    ensures shown { OnOk result ((board : State) → shown_machine board machine.new ≡ goes machine.old.legs machine.old.out
        (handled (shown_frame board frame) (frame.at + 1 + by) (without_first frame.handlers) ∷ shown_frames board machine.old.frames)) }
    ensures placed { OnOk result ((board : State) → IsPlaced board frame → ArePlaced board machine.old.frames → ArePlaced board machine.new.frames) }
{
    frame.at += 1 + by;
    match frame.handlers.pop() {
        Some(_) | None => {}
    }
    go_on(machine, frame)?;
    Ok(())
}

// A failure in this frame.
fn fail(machine: &mut Machine, mut frame: Frame) -> Result<(), NoMemory>
    requires { frame.at + 1 ≤ usize.MAX }
    ensures shown { OnOk result ((board : State) → shown_machine board machine.new ≡ unwound machine.old.legs machine.old.out (moved (shown_frame board frame) (frame.at + 1) ∷ shown_frames board machine.old.frames)) }
    ensures placed { OnOk result ((board : State) → IsPlaced board frame → ArePlaced board machine.old.frames → ArePlaced board machine.new.frames) }
{
    frame.at += 1;
    machine.frames.push(frame)?;
    unwind(machine)?;
    Ok(())
}

// A frame within this one.
fn open(machine: &mut Machine, mut frame: Frame, inner: Frame) -> Result<(), NoMemory>
    requires { frame.at + 1 ≤ usize.MAX }
    ensures going { OnOk result (machine.new.failed ≡ false) }
    ensures shown { OnOk result ((board : State) → shown_machine board machine.new ≡ goes machine.old.legs machine.old.out (shown_frame board inner ∷ moved (shown_frame board frame) (frame.at + 1) ∷ shown_frames board machine.old.frames)) }
    ensures placed { OnOk result ((board : State) → IsPlaced board inner → IsPlaced board frame → ArePlaced board machine.old.frames → ArePlaced board machine.new.frames) }
{
    frame.at += 1;
    machine.frames.push(frame)?;
    go_on(machine, inner)?;
    Ok(())
}

// Outputs this text, and goes on after the step.
fn give_next(
    machine: &mut Machine,
    mut frame: Frame,
    text: SharedBytes,
    most: usize,
) -> Result<(), NoMemory>
    requires { frame.at + 1 ≤ usize.MAX }
    ensures going { OnOk result (machine.new.failed ≡ false) }
    ensures shown { OnOk result ((board : State) → shown_machine board machine.new ≡ goes machine.old.legs (with_piece machine.old.out text) (moved (shown_frame board frame) (frame.at + 1) ∷ shown_frames board machine.old.frames)) }
    ensures placed { OnOk result ((board : State) → IsPlaced board frame → ArePlaced board machine.old.frames → ArePlaced board machine.new.frames) }
{
    frame.at += 1;
    give(machine, frame, text, most)?;
    Ok(())
}

// Outputs the text with the values of its references, and goes on after the step; refused if the output then has more bytes
// than it may have.
fn give_values(
    machine: &mut Machine,
    setting: &Setting<'_>,
    mut frame: Frame,
    parts: &Parts,
) -> Result<(), NoMemory>
    requires { frame.at + 1 ≤ usize.MAX }
    ensures going { OnOk result (machine.new.failed ≡ false) }
    ensures shown { OnOk result ((board : State) → shown_machine board machine.new ≡ goes machine.old.legs (with_pieces machine.old.out (value_pieces setting.now.request.now [] parts.now)) (moved (shown_frame board frame) (frame.at + 1) ∷ shown_frames board machine.old.frames)) }
    ensures placed { OnOk result ((board : State) → IsPlaced board frame → ArePlaced board machine.old.frames → ArePlaced board machine.new.frames) }
{
    let parts = parts.as_slice();
    push_values(
        setting.alloc,
        setting.request,
        parts,
        &mut machine.out,
        setting.most,
        &mut machine.lookups,
    )?;
    frame.at += 1;
    go_on(machine, frame)?;
    Ok(())
}

// What the answer in the slot with this number results in.
fn enter(
    machine: &mut Machine,
    setting: &Setting<'_>,
    frame: Frame,
    number: usize,
) -> Result<(), NoMemory>
    requires { frame.at + 1 ≤ usize.MAX }
    ensures shown { OnOk result (acted setting.now.request.now (log_of setting.now.board.now) machine.old.legs machine.old.out
        (moved (shown_frame setting.now.board.now frame) (frame.at + 1)) (shown_frames setting.now.board.now machine.old.frames) (found_at (answer_at setting.now.board.now.slots number))
        ≡ Went (shown_machine setting.now.board.now machine.new)) }
    ensures last { OnOk result (IsHeldAt setting.now.board.now machine.new.last (answer_at setting.now.board.now.slots number)) }
    ensures placed { OnOk result (IsPlaced setting.now.board.now frame → ArePlaced setting.now.board.now machine.old.frames → ArePlaced setting.now.board.now machine.new.frames) }
{
    let Some(prepared) = setting.board.prepared(number) else {
        fail(machine, frame)?;
        machine.last = None;
        return Ok(());
    };
    // A page's own answer may be a template under an error; a fragment under an error is none.
    if !prepared.answer().succeeded() {
        fail(machine, frame)?;
        machine.last = Some(number);
        return Ok(());
    }
    match prepared.form() {
        Form::Plain => {
            let body = prepared.answer().share_body()?;
            give_next(machine, frame, body, setting.most)?;
            machine.last = Some(number);
            Ok(())
        }
        Form::BadAt(_) => {
            fail(machine, frame)?;
            machine.last = Some(number);
            Ok(())
        }
        Form::Planned(plan) => {
            let inner = Frame {
                slot: number,
                at: 0,
                end: plan.len(),
                level: frame.level.saturating_sub(1),
                handlers: Handlers::new(setting.alloc),
            };
            open(machine, frame, inner)?;
            machine.last = Some(number);
            Ok(())
        }
    }
}

// A leg.
fn leg(
    machine: &mut Machine,
    setting: &Setting<'_>,
    template: &Prepared,
    frame: Frame,
    source: &Leg,
) -> Result<Reached, NoMemory>
    requires short { frame.at + 1 ≤ usize.MAX }
    requires url { template.now.url ≡ (shown_frame setting.now.board.now frame).url }
    requires inlines { entries_of template.now ≡ entries (shown_frame setting.now.board.now frame).tree }
    ensures reached { IfOk result (λ reached. Reaches
        (doing setting.now.request.now (log_of setting.now.board.now) machine.old.legs machine.old.out (moved (shown_frame setting.now.board.now frame) (frame.at + 1)) (shown_frames setting.now.board.now machine.old.frames) (spec.Leg source.now))
        (with_frame setting.now.board.now frame machine.old) (shown_machine setting.now.board.now machine.new) reached) }
    ensures last { IfOk result (λ reached. Remembers setting.now.board.now (leg_as setting.now.request.now (moved (shown_frame setting.now.board.now frame) (frame.at + 1)) source.now frame.level ∷ []) machine.old machine.new reached) }
    ensures placed { OnOk result (IsPlaced setting.now.board.now frame → ArePlaced setting.now.board.now machine.old.frames → ArePlaced setting.now.board.now machine.new.frames) }
{
    if machine.legs >= MAX_LEGS {
        machine.frames.push(frame)?;
        return Ok(Reached::TooMany);
    }
    match find_target(setting, template, frame.level, source, &mut machine.lookups)? {
        Target::Missing(url) => {
            let level = frame.level;
            machine.frames.push(frame)?;
            Ok(Reached::Waits(level, url))
        }
        Target::Nowhere => {
            machine.legs += 1;
            fail(machine, frame)?;
            machine.last = None;
            Ok(Reached::Went)
        }
        Target::Inside(from, to) => {
            machine.legs += 1;
            let inner = Frame {
                slot: frame.slot,
                at: from,
                end: to,
                level: frame.level.saturating_sub(1),
                handlers: Handlers::new(setting.alloc),
            };
            open(machine, frame, inner)?;
            machine.last = None;
            Ok(Reached::Went)
        }
        Target::Found(number) => {
            machine.legs += 1;
            enter(machine, setting, frame, number)?;
            Ok(Reached::Went)
        }
    }
}
