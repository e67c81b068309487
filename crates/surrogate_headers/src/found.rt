//! What was found so far among a value's directives.

ghost use Rattle.std.specs.Prelude.{◌≡◌, ℕ, List, []};
ghost use Rattle.std.specs.Option.{option_or};
ghost use Rattle.surrogate_headers.specs.Directive.{shown_target};
ghost use Rattle.surrogate_headers.specs.Found as spec;

use crate::directive::{Asks, Target};
use crate::parameter::Age;
use edge_types::Control;

/// How a directive concerns a device: aimed at it, or at no device in particular.
#[derive(Clone, Copy, Drop)]
pub(crate) enum Aim {
    Here,
    Anywhere,
}

/// How a target concerns a device; `None` if it is another device's.
pub(crate) fn aim_of(target: Target<'_>, device: &[u8]) -> Option<Aim>
    ensures { result ≡ spec.aim_of (shown_target target.entry) device.now }
{
    match target {
        Target::Every => Some(Aim::Anywhere),
        Target::Device(token) if token == device => Some(Aim::Here),
        Target::Device(_) => None,
    }
}

// The first values of one name.
#[derive(Clone, Copy, Drop)]
struct Choice<T> {
    aimed: Option<T>,
    unaimed: Option<T>,
}

impl<T: Copy> Choice<T> {
    fn none() -> Choice<T>
        ensures { result ≡ spec.no_choice }
    {
        Choice {
            aimed: None,
            unaimed: None,
        }
    }

    // The first of each kind is kept.
    fn offered(self, aim: Aim, value: T) -> Choice<T>
        ensures { result ≡ spec.offered self aim value }
    {
        match aim {
            Aim::Here => Choice {
                aimed: self.aimed.or(Some(value)),
                unaimed: self.unaimed,
            },
            Aim::Anywhere => Choice {
                aimed: self.aimed,
                unaimed: self.unaimed.or(Some(value)),
            },
        }
    }

    fn made(self) -> Option<T>
        ensures { result ≡ option_or self.aimed self.unaimed }
    {
        self.aimed.or(self.unaimed)
    }
}

/// What the directives so far ask.
#[derive(Clone, Copy, Drop)]
pub(crate) struct Found {
    no_store: bool,
    age: Choice<Age>,
    esi: Choice<bool>,
}

impl Found {
    pub(crate) fn nothing() -> Found
        ensures { result ≡ spec.nothing }
    {
        Found {
            no_store: false,
            age: Choice::none(),
            esi: Choice::none(),
        }
    }

    /// Records what one more directive asks that concerns the device.
    pub(crate) fn note(&mut self, asks: Asks, aim: Aim)
        ensures { self.new ≡ spec.noted self.old asks aim }
    {
        match asks {
            Asks::NoStore => self.no_store = true,
            Asks::MaxAge(age) => self.age = self.age.offered(aim, age),
            Asks::Content(esi) => self.esi = self.esi.offered(aim, esi),
        }
    }

    /// What is asked if no more directives follow.
    #[tactic(auto, unfolding(crate::specs::Found::settled))]
    pub(crate) fn control(&self) -> Control
        ensures { (device : List ℕ) → result ≡ spec.settled self.now device [] }
    {
        let age = self.age.made();
        Control {
            no_store: self.no_store,
            max_age: age.map(|age| age.seconds),
            extension: age.map_or(0, |age| age.extension),
            esi: self.esi.made().unwrap_or(false),
            errors: false,
        }
    }
}
