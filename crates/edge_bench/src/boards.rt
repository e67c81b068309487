//! Boards: with many slots, each costs no more than with few.

use crate::inputs::{fragment_url, or_io_error};
use crate::timing::{Least, print};
use answer_board::{Board, Receipt};
use edge_types::Answer;
use plan_compiler::Prepared;
use std::alloc::Global;
use std::io;
use std::sync::Arc;
use std::time::{Duration, Instant};

// As many slots as a page with the most legs may have, each with its alternate; and a tenth of them.
const MANY: usize = 1257;

const FEW: usize = 126;
// How many boards of few slots together have about as many as one of many.
const ROUNDS: usize = 10;

const TURNS: u32 = 40;

/// Prints how long a slot takes to be opened, claimed and filled, on a board of many slots and on
/// one of few.
pub fn run(rt: &HostRuntime) -> io::Result<()> {
    let answers = answers(rt.alloc(), MANY)?;
    let many = measured(rt, answers.as_slice(), 1)?;
    let few = measured(rt, answers.get(..FEW).unwrap_or(&[]), ROUNDS)?;
    print(
        rt,
        "boards: 1,257 slots of one beside 1,260 of ten",
        many,
        few,
        MANY,
    )
}

// Failed answers of this many URLs, made ready.
fn answers(alloc: Global, count: usize) -> io::Result<Vec<Prepared>> {
    let mut answers = Vec::with_capacity(alloc, count)?;
    for i in 0..count {
        answers.push(failed(alloc, i)?)?;
    }
    Ok(answers)
}

fn failed(alloc: Global, number: usize) -> io::Result<Prepared> {
    let answer = Answer::failed(fragment_url(alloc, number)?);
    or_io_error(Prepared::of(alloc, Arc::new(alloc, answer)?))
}

// The quickest of several turns of this many boards.
fn measured(rt: &HostRuntime, answers: &[Prepared], rounds: usize) -> io::Result<Duration> {
    let mut least = Least::new();
    for _ in 0..TURNS {
        let begun = Instant::now(rt)?;
        boards(rt.alloc(), answers, rounds)?;
        least.note(rt, begun)?;
    }
    Ok(least.get())
}

fn boards(alloc: Global, answers: &[Prepared], rounds: usize) -> io::Result<()> {
    for _ in 0..rounds {
        board(alloc, answers)?;
    }
    Ok(())
}

// A board with a slot for each answer; all are claimed and filled, and the board is dropped.
fn board(alloc: Global, answers: &[Prepared]) -> io::Result<()> {
    let mut board = Board::new(alloc);
    for answer in answers.iter() {
        or_io_error(board.open(answer.url(), 1))?;
    }
    for answer in answers.iter() {
        land(&mut board, or_io_error(answer.share())?)?;
    }
    Ok(())
}

// Claims the next slot, which has the URL of this answer, and fills it.
fn land(board: &mut Board, answer: Prepared) -> io::Result<()> {
    let Some(ticket) = board.claim() else {
        return Err(io::Error::from(io::ErrorKind::InvalidInput));
    };
    match ticket.answered(answer) {
        Ok(receipt) => fill(board, receipt),
        Err((ticket, _)) => {
            ticket.give_up();
            Err(io::Error::from(io::ErrorKind::InvalidInput))
        }
    }
}

fn fill(board: &mut Board, receipt: Receipt) -> io::Result<()> {
    match board.fill(receipt) {
        Ok(_) => Ok(()),
        Err((_, receipt)) => {
            receipt.give_up();
            Err(io::Error::from(io::ErrorKind::InvalidInput))
        }
    }
}
