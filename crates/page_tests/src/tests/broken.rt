//! A page for which an allocation fails. Here memory is ample, so the page reaches its end; outside the
//! gate, `tools/refuse_page_growths` makes each allocation of this test fail in turn, and looks at what the
//! test then reports. And what the faults of posts say.

use super::answer;
use answer_board::Receipt;
use edge_types::{NoMemory, PageUrl, Request};
use plan_compiler::Prepared;
use plan_runner::{Page, PageError, PostFault, State};
use std::alloc::Global;
use std::sync::Arc;
use std::test::Fail;

const PAGE: &str =
    "<esi:try><esi:attempt><esi:include src='/x'/><esi:include src='/y'/></esi:attempt><esi:except>E</esi:except></esi:try><esi:include src='/z'/>";

// What is reported of a page that is broken as it should be.
const BROKEN: &str = "the page is broken";

// A page with room for one slot ahead, so that posts and advances open slots.
fn page(alloc: Global) -> Result<Page, Fail> {
    let url = PageUrl::parse(alloc, b"http://a.test/p")?.ok_or("a URL")?;
    Ok(Page::accept(alloc, url, Request::empty(), 1, 4)?)
}

// The page, or a fragment of one byte, made ready.
fn prepared(alloc: Global, url: &PageUrl) -> Result<Option<Prepared>, NoMemory> {
    let is_page = url.as_bytes().ends_with(b"/p");
    let body = if is_page { PAGE } else { "1" };
    match answer(alloc, url.share()?, 200, is_page, body)? {
        Some(answer) => Ok(Some(Prepared::of(alloc, Arc::new(alloc, answer)?)?)),
        None => Ok(None),
    }
}

// The receipt of the next ticket; the ticket is given up if there is none.
fn next_receipt(alloc: Global, page: &mut Page) -> Result<Receipt, Fail> {
    let Some(ticket) = page.claim() else {
        return Err("a slot".into());
    };
    let ticket = match prepared(alloc, ticket.url()) {
        Ok(Some(prepared)) => match ticket.answered(prepared) {
            Ok(receipt) => return Ok(receipt),
            Err((ticket, _)) => ticket,
        },
        Ok(None) => ticket,
        Err(NoMemory) => {
            ticket.give_up();
            return Err(NoMemory.into());
        }
    };
    ticket.give_up();
    Err("an answer".into())
}

// Posts the next answer; false if an allocation failed, and the answer is in all the same.
fn is_posted(alloc: Global, page: &mut Page) -> Result<bool, Fail> {
    let receipt = next_receipt(alloc, page)?;
    let before = page.posted();
    match page.post(receipt) {
        Ok(()) => Ok(true),
        Err(PostFault::NoMemory) => {
            if page.posted() == before {
                return Err("the answer isn't in".into());
            }
            Ok(false)
        }
        Err(
            PostFault::Stranger(receipt)
            | PostFault::NotClaimed(receipt)
            | PostFault::Filled(receipt)
            | PostFault::Broken(receipt),
        ) => {
            receipt.give_up();
            Err("a post was refused".into())
        }
    }
}

// Goes on to the page's end; false if an allocation failed in a call of the page.
fn is_finished(alloc: Global, page: &mut Page) -> Result<bool, Fail> {
    for _ in 0..6 {
        match page.advance() {
            Ok(State::Done(_)) => return Ok(true),
            Ok(State::Waiting(_)) => {}
            Err(PageError::NoMemory) => return Ok(false),
            Err(PageError::Broken) => return Err("broken before a refusal".into()),
        }
        if !is_posted(alloc, page)? {
            return Ok(false);
        }
    }
    Err("no end".into())
}

// A broken page gives no ticket, doesn't advance, and hands a receipt back.
fn told_of_broken(page: &mut Page, receipt: Receipt) -> &'static str {
    let is_refused = match page.post(receipt) {
        Err(PostFault::Broken(receipt)) => {
            receipt.give_up();
            true
        }
        Err(
            PostFault::Stranger(receipt)
            | PostFault::NotClaimed(receipt)
            | PostFault::Filled(receipt),
        ) => {
            receipt.give_up();
            false
        }
        Ok(()) => false,
        Err(PostFault::NoMemory) => false,
    };
    let stays = matches!(page.advance(), Err(PageError::Broken));
    if let Some(ticket) = page.claim() {
        ticket.give_up();
        return "a page that was refused a growth gives a ticket";
    }
    if is_refused && stays {
        BROKEN
    } else {
        "a page that was refused a growth goes on"
    }
}

// Goes on to the page's end; another page's receipt is kept for one that breaks.
fn finishes(alloc: Global, page: &mut Page, other: &mut Page) -> Result<(), Fail> {
    let receipt = next_receipt(alloc, other)?;
    match is_finished(alloc, page) {
        Ok(false) => Err(told_of_broken(page, receipt).into()),
        Ok(true) => Ok(receipt.give_up()),
        Err(fail) => {
            receipt.give_up();
            Err(fail)
        }
    }
}

#[test]
fn a_page_that_is_refused_a_growth_is_broken(rt: HostRuntime) -> Result<(), Fail> {
    let alloc = rt.alloc();
    let mut one = page(alloc)?;
    let mut other = page(alloc)?;
    finishes(alloc, &mut one, &mut other)
}

// The receipt of a page that is given up.
fn receipt(alloc: Global) -> Result<Receipt, Fail> {
    let mut page = page(alloc)?;
    next_receipt(alloc, &mut page)
}

fn words_of(alloc: Global, fault: &PostFault) -> Result<String, NoMemory> {
    Ok(format!(in alloc; "{fault}")?)
}

// Whether the fault says this; its receipt is given up.
fn says(alloc: Global, fault: PostFault, wanted: &str) -> Result<bool, NoMemory> {
    let words = words_of(alloc, &fault);
    match fault {
        PostFault::Stranger(receipt)
        | PostFault::NotClaimed(receipt)
        | PostFault::Filled(receipt)
        | PostFault::Broken(receipt) => receipt.give_up(),
        PostFault::NoMemory => {}
    }
    Ok(words?.as_str() == wanted)
}

#[test]
fn each_fault_of_a_post_says_what_to_do(rt: HostRuntime) -> Result<(), Fail> {
    let alloc = rt.alloc();
    let stranger = "no slot has this number and URL: post to the page that gave the ticket";
    assert!(rt; says(alloc, PostFault::Stranger(receipt(alloc)?), stranger)?);
    let unclaimed = "nobody has claimed the slot: claim it first";
    assert!(rt; says(alloc, PostFault::NotClaimed(receipt(alloc)?), unclaimed)?);
    let filled = "the slot has its answer: give the receipt up";
    assert!(rt; says(alloc, PostFault::Filled(receipt(alloc)?), filled)?);
    let broken = "the page ran out of memory before: give the receipt up, and accept the page anew";
    assert!(rt; says(alloc, PostFault::Broken(receipt(alloc)?), broken)?);
    let no_memory = "out of memory: accept the page anew with more of it";
    assert!(rt; says(alloc, PostFault::NoMemory, no_memory)?);
    Ok(())
}
