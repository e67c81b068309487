//! Lists of events, as the command line writes them.
ghost use Rattle.std.specs.Prelude.{◌≡◌, None, Some, IfOk, if◌then◌else◌};
ghost use Rattle.std.specs.Option.{option_map};
ghost use Rattle.edge_case.specs.Order.{place_of, event_of, events_of, after_item};

use crate::line::COMMA;
use edge_types::{NoMemory, around, decimal_of};
use plan_runner::Event;
use std::alloc::Global;

// The most digits of a place.
const PLACE_DIGITS: usize = 4;

// The largest number with this many digits.
const MAX_PLACE: u64 = 9_999;

// The place that the digits write.
#[tactic(auto, unfolding(crate::specs::Order::place_of))]
fn place_of(digits: &[u8]) -> Option<usize>
    ensures { result ≡ place_of digits.now }
{
    if digits.len() > PLACE_DIGITS {
        return None;
    }
    let place = decimal_of(digits, MAX_PLACE)?;
    Some(place as usize)
}

// The event that an item denotes.
#[tactic(auto, unfolding(crate::specs::Order::event_of))]
fn event_of(item: &[u8]) -> Option<Event>
    ensures { result ≡ event_of item.now }
{
    match item {
        b"c" => Some(Event::Claim),
        b"a" => Some(Event::Advance),
        [b'p', digits @ ..] => Some(Event::Post(place_of(digits)?)),
        _ => None,
    }
}

// Adds the event that an item denotes. False if it denotes none.
fn add_item(events: &mut Vec<Event>, item: &[u8]) -> Result<bool, NoMemory>
    ensures { IfOk result (λ added. after_item events.old.items (event_of item.now) ≡ (if added then Some events.new.items else None)) }
{
    let Some(event) = event_of(item) else {
        return Ok(false);
    };
    events.push(event)?;
    Ok(true)
}

/// The events that a text lists: items with commas between them, `c` for a claim, `a` for an
/// advance, and `p` with one to four digits for a post of the ticket at this place. `None` if the
/// text isn't such a list; the empty text isn't one.
///
/// Our profile.
pub fn read_events(alloc: Global, text: &[u8]) -> Result<Option<Vec<Event>>, NoMemory>
    ensures { IfOk result (λ found. option_map (λ events. events.items) found ≡ events_of text.now) }
{
    let mut events = Vec::new(alloc);
    let mut rest = text;
    while let Some((item, after)) = around(COMMA, rest) {
        if !add_item(&mut events, item)? {
            return Ok(None);
        }
        rest = after;
    }
    if add_item(&mut events, rest)? {
        Ok(Some(events))
    } else {
        Ok(None)
    }
}
