//! A shard of the cache: calls, and what each returns.
ghost use Rattle.std.specs.Prelude.{◌≡◌};
ghost use Rattle.std.specs.Arc.{arc_value};

use crate::row::{Line, number, pair};
use crate::values::{answer, url};
use edge_types::{Answer, PageUrl};
use fragment_cache::{Begun, Flight, MAX_CAPACITY, Picked, Shard};
use std::alloc::Global;
use std::str;
use std::sync::Arc;
use surrogate_headers::{control, own_device};

/// A row is the capacity of a new shard, and calls with `; ` between:
///
/// ```text
/// begin PATH NOW             the answer that is there, or who is to fetch it
/// look PATH NOW              the answer that is there, if any
/// bridging PATH NOW          the answer that would bridge a failing origin, if any
/// waiting PATH               how many wait for the flight that is under way, if one is
/// land FLIGHT NOW TOLD       the answer for those who wait for the flight
/// pick FLIGHT                the answer for one of those who joined it
/// ```
///
/// A flight is named by how many left before it, and an answer by its body. An origin's answer is `failed`, or the
/// status, the body and the value of the field `Surrogate-Control`. The path `#` is the number of the next flight. The
/// result of a call with `-` before it is left out.
pub fn play(alloc: Global, row: &[u8], line: &mut Line) -> Option<()> {
    let (capacity, calls) = pair(row);
    let calls = str::from_utf8(calls).ok()?;
    let mut desk = new_desk(alloc, number(capacity)?)?;
    for call in calls.split("; ") {
        play_call(alloc, &mut desk, call, line)?;
    }
    Some(())
}

fn new_desk(alloc: Global, capacity: usize) -> Option<Desk> {
    if capacity < 1 || MAX_CAPACITY < capacity {
        return None;
    }
    Some(Desk {
        shard: Shard::new(alloc, capacity).ok()?,
        held: Vec::new(alloc),
        led: 0,
    })
}

// The desk is lent: whoever holds one pays in its proof for each way out.
fn play_call(alloc: Global, desk: &mut Desk, call: &str, line: &mut Line) -> Option<()> {
    if let Some(call) = call.strip_prefix('-') {
        return desk.call(alloc, call.as_bytes(), &mut Line::new(alloc));
    }
    line.space();
    desk.call(alloc, call.as_bytes(), line)?;
    line.push(";");
    Some(())
}

// A flight that a leader holds, by its number, with its ready made failed answer. It lands in a shard of its own when
// it is dropped.
struct Held {
    number: u64,
    flight: Flight,
    ready: Arc<Answer>,
    spare: Shard,
    ghost named: { (arc_value ready).url ≡ flight.url },
}

impl Drop for Held {
    fn drop(self) {
        let Held {
            number: _,
            flight,
            ready,
            mut spare,
        } = self;
        spare.land(flight, ready, 0);
    }
}

impl Held {
    // Lands with the origin's answer, or with the failed answer.
    fn land(self, shard: &mut Shard, told: Option<Arc<Answer>>, now: u64) -> Arc<Answer> {
        let Held {
            number: _,
            flight,
            ready,
            spare: _,
        } = self;
        match told {
            Some(told) if *told.url() == *flight.url() => shard.land(flight, told, now),
            _ => shard.land(flight, ready, now),
        }
    }
}

// A shard, what its leaders hold, and how many of them there were: a flight is named by how many left before it, which
// is what a join returns.
#[derive(Drop)]
struct Desk {
    shard: Shard,
    held: Vec<Held>,
    led: u64,
}

impl Desk {
    fn call(&mut self, alloc: Global, call: &[u8], line: &mut Line) -> Option<()> {
        let (name, words) = pair(call);
        let (first, rest) = pair(words);
        match name {
            b"begin" => {
                let url = self.url(alloc, first)?;
                self.begin(alloc, &url, number(rest)?, line)
            }
            b"look" => {
                let url = self.url(alloc, first)?;
                self.look(&url, number(rest)?, line)
            }
            b"bridging" => {
                let url = self.url(alloc, first)?;
                push_found(line, self.shard.bridging(&url, number(rest)?).ok()?);
                Some(())
            }
            b"waiting" => {
                let url = self.url(alloc, first)?;
                self.waiting(&url, line);
                Some(())
            }
            b"land" => self.land(alloc, number(first)?, rest, line),
            b"pick" => self.pick(number(first)?, line),
            _ => None,
        }
    }

    fn url(&self, alloc: Global, path: &[u8]) -> Option<PageUrl> {
        let path = str::from_utf8(path).ok()?;
        let text = if path == "#" {
            format!(in alloc; "http://a.test/{}", self.led)
        } else {
            format!(in alloc; "http://a.test/{path}")
        };
        url(alloc, text.ok()?.as_bytes())
    }

    fn begin(&mut self, alloc: Global, url: &PageUrl, now: u64, line: &mut Line) -> Option<()> {
        let spare = Shard::new(alloc, 1).ok()?;
        match self.shard.begin(url, now) {
            Begun::Hit(answer) => push_body(line, "hit ", &answer),
            Begun::Join(number) => push_number(line, "join ", number),
            Begun::Lead(flight, ready) => {
                let number = self.led;
                push_number(line, "lead ", number);
                self.led = number.wrapping_add(1);
                let held = Held {
                    number,
                    flight,
                    ready,
                    spare,
                };
                self.held.push(held).ok()?;
            }
            Begun::Bypass => line.push("bypass"),
        }
        Some(())
    }

    fn look(&mut self, url: &PageUrl, now: u64, line: &mut Line) -> Option<()> {
        push_found(line, self.shard.look(url, now).ok()?);
        Some(())
    }

    fn waiting(&self, url: &PageUrl, line: &mut Line) {
        match self.shard.under_way(url) {
            Some(number) => push_number(line, "waiting ", u64::from(self.shard.pick_ups(number))),
            None => line.push("none flies"),
        }
    }

    fn land(&mut self, alloc: Global, number: u64, words: &[u8], line: &mut Line) -> Option<()> {
        let (now, told) = pair(words);
        let now = crate::row::number(now)?;
        let at = self.held.iter().position(|held| held.number == number)?;
        let told = told_answer(alloc, self.held[at].flight.url(), told)?;
        let held = self.held.swap_remove(at);
        push_body(line, "gives ", &held.land(&mut self.shard, told, now));
        Some(())
    }

    fn pick(&mut self, number: u64, line: &mut Line) -> Option<()> {
        match self.shard.pick(number) {
            Picked::Here(answer) => push_body(line, "here ", &answer),
            Picked::Flying => line.push("flying"),
            Picked::Unknown => line.push("unknown"),
        }
        Some(())
    }
}

// What an origin answered for a URL: an answer, or none if the origin failed.
fn told_answer(alloc: Global, url: &PageUrl, told: &[u8]) -> Option<Option<Arc<Answer>>> {
    if told == b"failed".as_slice() {
        return Some(None);
    }
    let (status, rest) = pair(told);
    let status = number(status)?;
    let (body, asked) = pair(rest);
    let control = control(asked, own_device());
    Some(Some(answer(alloc, url, status, control, body)?))
}

fn push_number(line: &mut Line, word: &str, number: u64) {
    line.push(word);
    line.display(&number);
}

fn push_found(line: &mut Line, found: Option<Arc<Answer>>) {
    match found {
        Some(answer) => push_body(line, "hit ", &answer),
        None => line.push("nothing"),
    }
}

fn push_body(line: &mut Line, word: &str, answer: &Answer) {
    line.push(word);
    line.show(if answer.body().is_empty() {
        b"failed"
    } else {
        answer.body()
    });
}
