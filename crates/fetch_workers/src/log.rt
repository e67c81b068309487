//! What workers posted, kept apart from the log of the page.

ghost use Rattle.std.specs.Prelude.{◌≡◌, map, IsTrue, IfOk};
ghost use Rattle.std.specs.Arc.{arc_value};
ghost use Rattle.answer_board.specs.Board.{log_of};
ghost use Rattle.fetch_workers.specs.Ways.{counts_of};
ghost use Rattle.fetch_workers.specs.declared.log.Own.{Own};

use answer_sources::{Way, WayCounts, same_answer};
use edge_types::{Answer, NoMemory, SharedAnswer};
use plan_runner::Page;
use std::alloc::Global;
use std::sync::Arc;

// An answer that a worker posted, the way by which it came, and its place in the page's log.
#[derive(Drop)]
pub(crate) struct Own {
    pub(crate) place: usize,
    pub(crate) answer: SharedAnswer,
    pub(crate) way: Way,
}

// Whether these answers, in this order, are the page's log: each once, and no others.
pub(crate) fn is_log_of(page: &Page, own: &[Own]) -> bool
    ensures { IsTrue result → map (λ (o : Own). o.answer) own.now ≡ log_of page.now.board }
{
    if page.posted() != own.len() {
        return false;
    }
    for i in 0..own.len() {
        match page.logged(i) {
            Some(answer) if same_answer(answer, own[i].answer.get()) => {}
            _ => return false,
        }
    }
    true
}

// The answers alone, in their order, and by which ways they came.
pub(crate) fn answers_of(
    alloc: Global,
    own: Vec<Own>,
) -> Result<(Vec<Arc<Answer>>, WayCounts), NoMemory>
    ensures answers { IfOk result (λ (log, ways). map arc_value log.items ≡ map (λ (o : Own). o.answer) own.items) }
    ensures ways { IfOk result (λ (log, ways). ways ≡ counts_of (map (λ (o : Own). o.way) own.items)) }
{
    let mut log = Vec::with_capacity(alloc, own.len())?;
    let mut ways = WayCounts::new();
    for one in own {
        let Own {
            place: _,
            answer,
            way,
        } = one;
        log.push(answer.into_arc())?;
        ways = ways.with(way);
    }
    Ok((log, ways))
}
