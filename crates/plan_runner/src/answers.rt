//! The answers of a page's board.
ghost use Rattle.std.specs.Prelude.{◌≡◌, option_and_then, option_map, slice_get};
ghost use Rattle.std.specs.Arc.{arc_value};
ghost use Rattle.std.specs.Option.{option_copied};
ghost use Rattle.answer_board.specs.Board.{answer_at};

use answer_board::Board;
use edge_types::Answer;
use std::sync::Arc;

// The answer that was filled in with this number, from 0.
pub(crate) fn filled_answer(board: &Board, i: usize) -> Option<&Arc<Answer>>
    ensures { option_map arc_value (option_copied result) ≡ option_and_then (answer_at board.now.slots) (slice_get board.now.filled i) }
{
    match board.filled().get(i) {
        Some(number) => answer_in(board, *number),
        None => None,
    }
}

// The answer in the slot with this number, if it is filled.
pub(crate) fn answer_in(board: &Board, number: usize) -> Option<&Arc<Answer>>
    ensures { option_map arc_value (option_copied result) ≡ answer_at board.now.slots number }
{
    match board.prepared(number) {
        Some(prepared) => Some(prepared.answer()),
        None => None,
    }
}
