//! Slots that are opened ahead: for what a template that has come in may ask for.
ghost use Rattle.std.specs.Prelude.{◌≡◌, ◌≤◌, ◌+◌, length, Some, filter_map, IfOk, slice_get};
ghost use Rattle.edge_types.specs.Answered.{Answered};
ghost use Rattle.esi_meaning.specs.Ahead.{ahead_of};
ghost use Rattle.answer_board.specs.Board.{Slot, KeepsFilled, answer_in, log_of};
ghost use Rattle.answer_board.specs.Sound.{IsBoard};
ghost use Rattle.plan_compiler.specs.Shown.{step_of};
ghost use Rattle.plan_runner.specs.Ahead.{opened, opened_by};
ghost use Rattle.plan_runner.specs.Walk.{asked_by, asked_in, sources_at, passed_by, with_asked};

use answer_board::Board;
use edge_types::{NoMemory, PageUrl, Request};
use esi_vars::Lookups;
use plan_compiler::{Form, Leg, Prepared, Step};
use std::alloc::Global;

// A slot of a page whose answer has come in.
#[derive(Clone, Copy)]
pub(crate) struct FilledSlot<'a> {
    // The page's.
    pub(crate) request: &'a Request,
    pub(crate) levels: u8,
    pub(crate) number: usize,
}

// What slots are opened with: the template, and their depth.
#[derive(Clone, Copy)]
struct Opening<'a> {
    alloc: Global,
    request: &'a Request,
    template: &'a Prepared,
    depth: u8,
}

// Opens slots for the URLs that the answer in this slot may ask for, as many as there is room for, and
// returns the room that is left. If memory runs out, some of them may be open.
pub(crate) fn open_ahead(
    alloc: Global,
    filled: &FilledSlot<'_>,
    board: &mut Board,
    room: u16,
    lookups: &mut Lookups,
) -> Result<u16, NoMemory>
    requires sound { IsBoard board.old }
    ensures opens { (s : Slot) (answer : Answered) → slice_get board.old.slots filled.now.number ≡ Some s → answer_in s.standing ≡ Some answer
        → IfOk result (λ left. record { board = board.new; room = left } ≡ opened_by filled.now.request.now filled.now.levels s.depth answer (record { board = board.old; room = room })) }
    ensures keeps { KeepsFilled board.old board.new }
    ensures log { log_of board.new ≡ log_of board.old }
    ensures sound { IsBoard board.new }
    ensures few { length board.new.slots ≤ length board.old.slots + room }
    ensures fewer { IfOk result (λ left. length board.new.slots + left ≤ length board.old.slots + room) }
{
    let depth = match board.depth(filled.number) {
        Some(depth) if depth < filled.levels => depth + 1,
        Some(_) | None => return Ok(room),
    };
    if room == 0 {
        return Ok(room);
    }
    let Some(prepared) = board.prepared(filled.number) else {
        return Ok(room);
    };
    let template = prepared.share()?;
    let opening = Opening {
        alloc,
        request: filled.request,
        template: &template,
        depth,
    };
    walk(&opening, board, room, lookups)
}

// Opens slots for what the template may ask for, if it is one: its steps in their order, where each test is
// decided, and both ways of each try are entered.
fn walk(
    opening: &Opening<'_>,
    board: &mut Board,
    room: u16,
    lookups: &mut Lookups,
) -> Result<u16, NoMemory>
    requires sound { IsBoard board.old }
    ensures opens { IfOk result (λ left. record { board = board.new; room = left } ≡ opened opening.now.depth (ahead_of opening.now.request.now opening.now.template.now) (record { board = board.old; room = room })) }
    ensures keeps { KeepsFilled board.old board.new }
    ensures log { log_of board.new ≡ log_of board.old }
    ensures sound { IsBoard board.new }
    ensures few { length board.new.slots ≤ length board.old.slots + room }
    ensures fewer { IfOk result (λ left. length board.new.slots + left ≤ length board.old.slots + room) }
{
    let plan = match opening.template.form() {
        Form::Planned(plan) => plan,
        Form::Plain => return Ok(room),
        Form::BadAt(_) => return Ok(room),
    };
    // For the clauses: with the plan's length the prover knows that no place in the plan overflows.
    let _ = plan.len();
    let mut left = room;
    let mut at: usize = 0;
    while left > 0 {
        let Some(step) = plan.step(at) else {
            return Ok(left);
        };
        left = visit(opening, step, board, left, lookups)?;
        at += 1 + passed(opening.request, step, lookups);
    }
    Ok(left)
}

// How many steps the walk skips after this one.
fn passed(request: &Request, step: &Step, lookups: &mut Lookups) -> usize
    ensures { result ≡ passed_by request.now (step_of step.now) }
{
    match step {
        Step::Test { test, skip } => {
            if test.holds_by(request, lookups) {
                0
            } else {
                *skip
            }
        }
        Step::Jump { skip } => *skip,
        _ => 0,
    }
}

// Opens a slot for what this step may ask for, and returns the room that is left.
fn visit(
    opening: &Opening<'_>,
    step: &Step,
    board: &mut Board,
    room: u16,
    lookups: &mut Lookups,
) -> Result<u16, NoMemory>
    requires sound { IsBoard board.old }
    ensures opens { IfOk result (λ left. record { board = board.new; room = left } ≡
        opened opening.now.depth (filter_map (asked_by opening.now.request.now opening.now.template.now) (sources_at (step_of step.now))) (record { board = board.old; room = room })) }
    ensures keeps { KeepsFilled board.old board.new }
    ensures log { log_of board.new ≡ log_of board.old }
    ensures sound { IsBoard board.new }
    ensures few { length board.new.slots ≤ length board.old.slots + room }
    ensures fewer { IfOk result (λ left. length board.new.slots + left ≤ length board.old.slots + room) }
{
    match step {
        Step::Leg(source) => open_leg(opening, source, board, room, lookups),
        _ => Ok(room),
    }
}

// Opens a slot for the URL of a leg, unless it has one or an inline of the template names it.
fn open_leg(
    opening: &Opening<'_>,
    source: &Leg,
    board: &mut Board,
    room: u16,
    lookups: &mut Lookups,
) -> Result<u16, NoMemory>
    requires sound { IsBoard board.old }
    ensures opens { IfOk result (λ left. record { board = board.new; room = left } ≡ with_asked opening.now.depth (asked_by opening.now.request.now opening.now.template.now source.now) (record { board = board.old; room = room })) }
    ensures keeps { KeepsFilled board.old board.new }
    ensures log { log_of board.new ≡ log_of board.old }
    ensures sound { IsBoard board.new }
    ensures few { length board.new.slots ≤ length board.old.slots + room }
    ensures fewer { IfOk result (λ left. length board.new.slots + left ≤ length board.old.slots + room) }
{
    let template = opening.template;
    match source.url(opening.alloc, opening.request, template.url(), lookups)? {
        Some(url) => match template.inline_for(&url) {
            Some(_) => Ok(room),
            None => open_new(opening, &url, board, room),
        },
        None => Ok(room),
    }
}

// Opens a slot for this URL, if it has none and there is room.
fn open_new(
    opening: &Opening<'_>,
    url: &PageUrl,
    board: &mut Board,
    room: u16,
) -> Result<u16, NoMemory>
    requires sound { IsBoard board.old }
    ensures opens { IfOk result (λ left. record { board = board.new; room = left } ≡ with_asked opening.now.depth (Some url.now) (record { board = board.old; room = room })) }
    ensures keeps { KeepsFilled board.old board.new }
    ensures log { log_of board.new ≡ log_of board.old }
    ensures sound { IsBoard board.new }
    ensures few { length board.new.slots ≤ length board.old.slots + room }
    ensures fewer { IfOk result (λ left. length board.new.slots + left ≤ length board.old.slots + room) }
{
    let before = board.len();
    if room > 0 {
        board.open(url, opening.depth)?;
    }
    if board.len() == before {
        return Ok(room);
    }
    Ok(room - 1)
}
