//! What no page does with a board: receipts of another board, answers of another URL, and each call on its
//! own. A board is lent: whoever holds one pays in its proof for each way out.

use super::url_of;
use answer_board::{Board, FillFault, Receipt};
use edge_types::{Answer, NoMemory, PageUrl};
use plan_compiler::Prepared;
use std::alloc::Global;
use std::fmt::Write;
use std::process::Abort;
use std::str;
use std::sync::Arc;
use std::test::Fail;

fn failed(alloc: Global, url: &PageUrl) -> Result<Prepared, NoMemory> {
    Prepared::of(alloc, Arc::new(alloc, Answer::failed(url.share()?))?)
}

// The receipt of a board's next ticket, for a failed answer; `None` if there is no ticket.
fn next(alloc: Global, board: &mut Board) -> Option<Receipt> {
    let ticket = board.claim()?;
    let ticket = match failed(alloc, ticket.url()) {
        Ok(prepared) => match ticket.answered(prepared) {
            Ok(receipt) => return Some(receipt),
            Err((ticket, _)) => ticket,
        },
        Err(NoMemory) => ticket,
    };
    ticket.give_up();
    None
}

// The number that a fill returns, or its fault; the receipt is given up then.
fn filled(board: &mut Board, receipt: Option<Receipt>) -> Result<usize, Option<FillFault>> {
    match receipt {
        Some(receipt) => match board.fill(receipt) {
            Ok(number) => Ok(number),
            Err((fault, receipt)) => {
                receipt.give_up();
                Err(Some(fault))
            }
        },
        None => Err(None),
    }
}

// Claims a slot and fills it with a failed answer.
fn fetch(alloc: Global, board: &mut Board) -> Option<usize> {
    let receipt = next(alloc, board);
    filled(board, receipt).ok()
}

// Opens slots, with a bar between two: a URL, a depth, and the number that the slot has to get.
fn open(rt: &impl Abort, alloc: Global, board: &mut Board, slots: &str) -> Result<(), NoMemory> {
    for slot in slots.split('|') {
        let (text, rest) = slot.split_once(' ').unwrap_or((slot, ""));
        let (depth, number) = rest.split_once(' ').unwrap_or(("", ""));
        let url = url_of(rt, alloc, text)?;
        let number = number.parse::<usize>().ok();
        let opened = board.open(&url, depth.parse::<u8>().unwrap_or(0))?;
        assert!(rt;
            Some(opened) == number && board.number(&url) == number,
            "{slot}"
        );
    }
    Ok(())
}

// Checks the slots, each by its depth and, if it is filled, the URL of its answer; then the numbers of
// the filled ones.
fn is_told(rt: &impl Abort, alloc: Global, board: &Board, wanted: &str) -> Result<(), NoMemory> {
    let mut line = String::new(alloc);
    for number in 0..board.len() {
        let url = match board.prepared(number) {
            Some(prepared) => str::from_utf8(prepared.url().as_bytes()).unwrap_or("?"),
            None => "",
        };
        write!(line, "{}{url};", board.depth(number).unwrap_or(0))?;
    }
    for number in board.filled() {
        write!(line, " {number}")?;
    }
    assert!(rt; line.as_str() == wanted, "{wanted}");
    Ok(())
}

// A URL is opened once, and a filled slot stays; slots are claimed in order and filled in any.
fn fill_in_any_order(rt: &impl Abort, alloc: Global, board: &mut Board) -> Result<(), NoMemory> {
    let names =
        "http://a.test/x 1 0|http://a.test/y 2 1|http://a.test/x 3 0|http://A.test:80/./x#f 4 0";
    open(rt, alloc, board, names)?;
    is_told(rt, alloc, board, "1;2;")?;
    assert!(rt; fetch(alloc, board) == Some(0));
    open(rt, alloc, board, "http://a.test/x 3 0|http://a.test/z 3 2")?;
    is_told(rt, alloc, board, "1http://a.test/x;2;3; 0")?;
    let url = url_of(rt, alloc, "http://a.test/x")?;
    assert!(rt; matches!(board.get(&url), Some(it) if it.url().as_bytes() == url.as_bytes()));
    let first = next(alloc, board);
    let second = next(alloc, board);
    let numbers = (filled(board, second), filled(board, first));
    assert!(rt; numbers == (Ok(2), Ok(1)));
    assert!(rt; fetch(alloc, board).is_none());
    assert!(rt; board.filled() == [0, 2, 1].as_slice());
    Ok(())
}

// An answer of another URL is handed back with the ticket.
fn refuse(rt: &impl Abort, alloc: Global, board: &mut Board) -> Result<(), NoMemory> {
    open(rt, alloc, board, "http://a.test/v 1 3")?;
    let other = failed(alloc, &url_of(rt, alloc, "http://a.test/w")?)?;
    let Some(ticket) = board.claim() else {
        panic!(rt; "a ticket");
    };
    match ticket.answered(other) {
        Ok(receipt) => {
            receipt.give_up();
            panic!(rt; "an answer of another URL");
        }
        Err((ticket, other)) => {
            assert!(rt; ticket.url().as_bytes() == b"http://a.test/v".as_slice());
            assert!(rt; other.answer().url().as_bytes() == b"http://a.test/w".as_slice());
            ticket.give_up();
        }
    }
    assert!(rt; fetch(alloc, board).is_none());
    Ok(())
}

#[test]
fn a_board_of_a_few_slots(rt: HostRuntime) -> Result<(), Fail> {
    let mut board = Board::new(rt.alloc());
    fill_in_any_order(&rt, rt.alloc(), &mut board)?;
    Ok(refuse(&rt, rt.alloc(), &mut board)?)
}

// Offers the receipt of a board's next ticket to another board, and then fills it into its own: what the
// other board returns, and what its own does.
fn offered(
    alloc: Global,
    own: &mut Board,
    other: &mut Board,
) -> Option<(FillFault, Option<usize>)> {
    match other.fill(next(alloc, own)?) {
        Ok(_) => None,
        Err((fault, back)) => Some((fault, filled(own, Some(back)).ok())),
    }
}

// In the second board the slot with a receipt's number is filled, unclaimed, or of another URL. A receipt is
// accepted if that very number and URL are claimed there: the slot's own receipt then comes too late.
fn offer_all(
    rt: &impl Abort,
    alloc: Global,
    first: &mut Board,
    second: &mut Board,
) -> Result<(), NoMemory> {
    let slots = "http://a.test/0 1 0|http://a.test/1 1 1|http://a.test/2 1 2|http://a.test/3 1 3";
    open(rt, alloc, first, slots)?;
    let slots = "http://a.test/0 1 0|http://a.test/1 1 1|http://a.test/z 1 2|http://a.test/3 1 3";
    open(rt, alloc, second, slots)?;
    assert!(rt; fetch(alloc, second) == Some(0));
    assert!(rt; offered(alloc, first, second) == Some((FillFault::Filled, Some(0))));
    assert!(rt; offered(alloc, first, second) == Some((FillFault::NotClaimed, Some(1))));
    assert!(rt; offered(alloc, first, second) == Some((FillFault::Stranger, Some(2))));
    let told = "1http://a.test/0;1http://a.test/1;1http://a.test/2;1; 0 1 2";
    is_told(rt, alloc, first, told)?;
    is_told(rt, alloc, second, "1http://a.test/0;1;1;1; 0")?;
    assert!(rt; fetch(alloc, second) == Some(1) && fetch(alloc, second) == Some(2));
    let strange = next(alloc, first);
    let own = next(alloc, second);
    let fills = (filled(second, strange), filled(second, own));
    assert!(rt; fills == (Ok(3), Err(Some(FillFault::Filled))));
    assert!(rt; second.filled() == [0, 1, 2, 3].as_slice());
    Ok(())
}

#[test]
fn receipts_of_another_board(rt: HostRuntime) -> Result<(), Fail> {
    let mut first = Board::new(rt.alloc());
    let mut second = Board::new(rt.alloc());
    Ok(offer_all(&rt, rt.alloc(), &mut first, &mut second)?)
}

// Opens as many slots as a page can have, of URLs that differ late, and fills each.
fn fill_many(rt: &impl Abort, alloc: Global, board: &mut Board) -> Result<(), NoMemory> {
    let mut slot = String::new(alloc);
    for i in 0..1257usize {
        slot.clear();
        write!(
            slot,
            "http://a.test/long/long/long/long/long/long/long/{i} 1 {i}"
        )?;
        open(rt, alloc, board, slot.as_str())?;
    }
    for i in 0..1257usize {
        assert!(rt; fetch(alloc, board) == Some(i));
    }
    assert!(rt; fetch(alloc, board).is_none() && board.filled().len() == 1257);
    Ok(())
}

#[test]
fn a_board_of_many_slots(rt: HostRuntime) -> Result<(), Fail> {
    let mut board = Board::new(rt.alloc());
    Ok(fill_many(&rt, rt.alloc(), &mut board)?)
}
