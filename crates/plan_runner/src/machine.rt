//! How far a page has come.
ghost use Rattle.std.specs.Prelude.{◌≡◌, ◌≤◌, ◌∷◌, [], false, length, OnOk, IfOk};
ghost use Rattle.answer_board.specs.Board.{State};
ghost use Rattle.edge_types.specs.Pieces.{joined, with_piece};
ghost use Rattle.plan_machine.specs.Machine.{settled, goes, unwound};
ghost use Rattle.plan_runner.specs.Shown.{shown_frame, shown_frames, shown_machine, first_frame, IsPlaced, ArePlaced};

use crate::frames::{Frame, Frames};
use crate::handlers::Handlers;
use edge_types::{NoMemory, PageBody, SharedBytes};
use esi_vars::Lookups;
use std::alloc::Global;

#[derive(Drop)]
pub(crate) struct Machine {
    pub(crate) frames: Frames,
    pub(crate) out: PageBody,
    // How many legs were tried.
    pub(crate) legs: u16,
    // The slot whose answer the last of them asked for, once it is known; none if it asked for nothing. It counts where the
    // machine failed, which it does at a leg.
    pub(crate) last: Option<usize>,
    pub(crate) failed: bool,
    // What was looked up for the page.
    pub(crate) lookups: Lookups,
}

// A machine without a page.
pub(crate) fn idle(alloc: Global) -> Machine
    ensures frames { result.frames ≡ [] }
{
    Machine {
        frames: Frames::new(alloc),
        out: PageBody::new(alloc),
        legs: 0,
        last: None,
        failed: false,
        lookups: Lookups::new(alloc),
    }
}

// A machine before its first step, on the plan of the answer in this slot.
pub(crate) fn started(
    alloc: Global,
    slot: usize,
    end: usize,
    level: u8,
    lookups: Lookups,
) -> Result<Machine, NoMemory>
    ensures shown { IfOk result (λ m. (board : State) → shown_machine board m ≡ goes 0 [] (shown_frame board (first_frame slot end level) ∷ [])) }
    ensures placed { IfOk result (λ m. (board : State) → IsPlaced board (first_frame slot end level) → ArePlaced board m.frames) }
{
    let mut machine = Machine {
        frames: Frames::new(alloc),
        out: PageBody::new(alloc),
        legs: 0,
        last: None,
        failed: false,
        lookups,
    };
    let frame = Frame {
        slot,
        at: 0,
        end,
        level,
        handlers: Handlers::new(alloc),
    };
    go_on(&mut machine, frame)?;
    Ok(machine)
}

// Leaves the frames that have reached their end.
fn settle(frames: &mut Frames) -> Result<(), NoMemory>
    ensures shown { OnOk result ((board : State) → shown_frames board frames.new ≡ settled (shown_frames board frames.old)) }
    ensures placed { OnOk result ((board : State) → ArePlaced board frames.old → ArePlaced board frames.new) }
{
    while let Some(top) = frames.pop() {
        if top.at < top.end {
            frames.push(top)?;
            return Ok(());
        }
    }
    Ok(())
}

// Goes on with this frame before the others.
pub(crate) fn go_on(machine: &mut Machine, frame: Frame) -> Result<(), NoMemory>
    ensures going { OnOk result (machine.new.failed ≡ false) }
    ensures shown { OnOk result ((board : State) → shown_machine board machine.new ≡ goes machine.old.legs machine.old.out (shown_frame board frame ∷ shown_frames board machine.old.frames)) }
    ensures placed { OnOk result ((board : State) → IsPlaced board frame → ArePlaced board machine.old.frames → ArePlaced board machine.new.frames) }
{
    machine.frames.push(frame)?;
    machine.failed = false;
    settle(&mut machine.frames)?;
    Ok(())
}

// Goes on at the innermost handler, with the output cut back to its mark.
pub(crate) fn unwind(machine: &mut Machine) -> Result<(), NoMemory>
    ensures shown { OnOk result ((board : State) → shown_machine board machine.new ≡ unwound machine.old.legs machine.old.out (shown_frames board machine.old.frames)) }
    ensures placed { OnOk result ((board : State) → ArePlaced board machine.old.frames → ArePlaced board machine.new.frames) }
{
    while let Some(mut frame) = machine.frames.pop() {
        if let Some(handler) = frame.handlers.pop() {
            frame.at = frame.at.max(handler.to);
            machine.out.cut(handler.mark);
            go_on(machine, frame)?;
            return Ok(());
        }
    }
    machine.failed = true;
    Ok(())
}

// Outputs this text, and goes on with the frame; refused if the output then has more bytes than it may have.
pub(crate) fn give(
    machine: &mut Machine,
    frame: Frame,
    text: SharedBytes,
    most: usize,
) -> Result<(), NoMemory>
    ensures few { OnOk result (length (joined machine.new.out) ≤ most) }
    ensures going { OnOk result (machine.new.failed ≡ false) }
    ensures shown { OnOk result ((board : State) → shown_machine board machine.new ≡ goes machine.old.legs (with_piece machine.old.out text) (shown_frame board frame ∷ shown_frames board machine.old.frames)) }
    ensures placed { OnOk result ((board : State) → IsPlaced board frame → ArePlaced board machine.old.frames → ArePlaced board machine.new.frames) }
{
    machine.out.push(text)?;
    go_on(machine, frame)?;
    check_len(&machine.out, most)
}

// Refused if a body has more bytes than it may have, as if there were no room for it.
pub(crate) fn check_len(body: &PageBody, most: usize) -> Result<(), NoMemory>
    ensures { OnOk result (length (joined body.now) ≤ most) }
{
    if body.len() <= most {
        Ok(())
    } else {
        Err(NoMemory)
    }
}
