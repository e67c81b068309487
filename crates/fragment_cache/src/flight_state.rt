//! A flight as a shard keeps it.

use edge_types::{PageUrl, SharedAnswer};
use std::marker::Model;

/// The most pick-ups that a flight can have.
pub const MAX_PICKS: u16 = u16::MAX;

// A flight: its URL, the answer with which it landed (none while it is under way), the pick-ups left.
#[derive(Drop)]
pub(crate) struct FlightState {
    url: PageUrl,
    landed: Option<SharedAnswer>,
    picks: u16,
}

impl Model for FlightState {
    ghost use Rattle.fragment_cache.specs.Machine as machine;

    ghost Value = { machine.FlightState };

    ghost view = { λ f. record { url = f.url; landed = f.landed; picks = f.picks } };
}

impl FlightState {
    ghost use Rattle.std.specs.Prelude.{◌≡◌, ◌<◌};
    ghost use Rattle.std.specs.Option.{option_copied};
    ghost use Rattle.fragment_cache.specs.Machine.{departed, one_more, one_fewer, landed_with};

    // A flight that has just left.
    pub(crate) fn departed(url: PageUrl) -> FlightState
        ensures { result ≡ departed url }
    {
        FlightState {
            url,
            landed: None,
            picks: 0,
        }
    }

    pub(crate) fn picks(&self) -> u16
        ensures { result ≡ self.now.picks }
    {
        self.picks
    }

    pub(crate) fn landed(&self) -> Option<&SharedAnswer>
        ensures { option_copied result ≡ self.now.landed }
    {
        self.landed.as_ref()
    }

    pub(crate) fn join(&mut self)
        requires { self.old.picks < MAX_PICKS }
        ensures { self.new ≡ one_more self.old }
    {
        self.picks += 1;
    }

    pub(crate) fn pick(&mut self)
        requires { 0 < self.old.picks }
        ensures { self.new ≡ one_fewer self.old }
    {
        self.picks -= 1;
    }

    pub(crate) fn land(&mut self, answer: SharedAnswer)
        ensures { self.new ≡ landed_with answer self.old }
    {
        self.landed = Some(answer);
    }
}
