//! What a leg leads to.
ghost use Rattle.std.specs.Prelude.{◌≡◌, IfOk, Some};
ghost use Rattle.edge_types.specs.Table.{answer_of};
ghost use Rattle.answer_board.specs.Board.{log_of};
ghost use Rattle.plan_compiler.specs.Urls.{entries_of};
ghost use Rattle.plan_runner.specs.Targets.{asked_target, resolved_target, target_of, shown_target};

use answer_board::Board;
use edge_types::{NoMemory, PageUrl, Request};
use esi_vars::Lookups;
use plan_compiler::{Leg, Prepared};
use std::alloc::Global;

// What a page is run with.
#[derive(Clone, Copy)]
pub(crate) struct Setting<'a> {
    pub(crate) alloc: Global,
    pub(crate) request: &'a Request,
    pub(crate) board: &'a Board,
    // How many bytes the page may have.
    pub(crate) most: usize,
}

// What a leg leads to.
#[derive(Drop)]
pub(crate) enum Target {
    // It fails.
    Nowhere,
    // An inline of the template: its first step, and the one after its last.
    Inside(usize, usize),
    // A URL whose answer isn't there.
    Missing(PageUrl),
    // The answer in the slot with this number.
    Found(usize),
}

// What a leg leads to at this level, in the template of this answer.
#[tactic(auto, using(crate::proofs::Targets::target_above))]
pub(crate) fn find_target(
    setting: &Setting<'_>,
    template: &Prepared,
    level: u8,
    source: &Leg,
    lookups: &mut Lookups,
) -> Result<Target, NoMemory>
    ensures { IfOk result (λ target. shown_target setting.now.board.now target ≡
        target_of setting.now.request.now (log_of setting.now.board.now) template.now.url (entries_of template.now) source.now level) }
{
    if level == 0 {
        return Ok(Target::Nowhere);
    }
    match source.url(setting.alloc, setting.request, template.url(), lookups)? {
        Some(url) => Ok(named(setting, template, url)),
        None => Ok(Target::Nowhere),
    }
}

// What a leg with this URL leads to.
fn named(setting: &Setting<'_>, template: &Prepared, url: PageUrl) -> Target
    ensures { shown_target setting.now.board.now result ≡
        resolved_target (log_of setting.now.board.now) template.now.url (entries_of template.now) (Some url) }
{
    match template.inline_for(&url) {
        Some(inline) => Target::Inside(inline.first, inline.end),
        None => asked(setting.board, url),
    }
}

// What a leg with this URL, which no inline names, leads to.
fn asked(board: &Board, url: PageUrl) -> Target
    ensures { shown_target board.now result ≡ asked_target url (answer_of (log_of board.now) url) }
{
    // For the clause: the contract of `filled` tells the prover that the board is sound.
    let _ = board.filled();
    match board.number(&url) {
        Some(number) => match board.prepared(number) {
            Some(_) => Target::Found(number),
            None => Target::Missing(url),
        },
        None => Target::Missing(url),
    }
}
