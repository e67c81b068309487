//! Values that were looked up in long fields, so that none is searched for again.

ghost use Rattle.std.specs.Prelude.{◌≡◌, ◌≤◌, ◌+◌, Some, None, IfSome, unwrap_or};
ghost use Rattle.esi_vars.specs.Lookups.{StandsIn};
ghost use Rattle.esi_vars.specs.Shown.{said};
ghost use Rattle.esi_vars.specs.Values.{value_in};

use crate::agent::agent_value;
use crate::cookie::cookie_value;
use crate::language::language_value;
use crate::looked_up::LookedUp;
use crate::query::query_value;
use edge_types::{NoMemory, Octets, SharedBytes};
use std::alloc::Global;
use std::marker::Model;

/// From how many bytes on what is looked up in a field is remembered. A shorter one is searched in less time than
/// remembering takes.
///
/// Our profile.
pub const LONG_FIELD: usize = 1024;

/// The most values that are remembered.
///
/// Our profile.
pub const MAX_LOOKUPS: usize = 32;

/// A variable that has parts, which keys name.
#[derive(Clone, Copy, PartialEq, Eq)]
pub(crate) enum Keyed {
    Language,
    Cookie,
    Agent,
    Query,
}

impl Keyed {
    // The part of a field that a key names.
    fn value_in<'a>(self, key: &[u8], field: &'a [u8]) -> LookedUp<'a>
        ensures { said result ≡ value_in self key.now field.now }
    {
        match self {
            Keyed::Language => LookedUp::Name(language_value(key, field)),
            Keyed::Cookie => cookie_value(key, field),
            Keyed::Agent => agent_value(key, field),
            Keyed::Query => query_value(key, field),
        }
    }
}

// Where a value is.
#[derive(Clone, Copy)]
enum Place {
    // It is a name of the language's own, or nothing.
    Name(&'static [u8]),
    // It stands in its field, from here to there.
    Part(usize, usize),
}

// A variable, a key and a field, and where the value is.
#[derive(Drop)]
struct Known {
    variable: Keyed,
    key: Octets,
    field: SharedBytes,
    place: Place,
}

impl Model for Known {
    ghost use Rattle.std.specs.Prelude.{List, ℕ};

    ghost Value = { List ℕ };

    ghost use Rattle.esi_vars.specs.Lookups.{StandsIn};
    ghost use Rattle.esi_vars.specs.Values.{value_in};

    ghost view = { λ k. value_in k.variable k.key k.field };

    ghost invariant = { λ k. StandsIn k.place (value_in k.variable k.key k.field) k.field };
}

impl Known {
    // The value, if it is that of this variable, key and field.
    fn value_for<'a>(&self, variable: Keyed, key: &[u8], field: &'a [u8]) -> Option<LookedUp<'a>>
        ensures { IfSome result (λ found. said found ≡ value_in variable key.now field.now) }
    {
        if self.variable != variable
            || self.key.as_bytes() != key
            || self.field.as_bytes() != field
        {
            return None;
        }
        match self.place {
            Place::Name(name) => Some(LookedUp::Name(name)),
            Place::Part(from, to) => Some(LookedUp::Part(&field[from..to], from)),
        }
    }
}

// Where a value is that was found in this field; `None` if it doesn't stand where it is likely to.
fn place_of(found: LookedUp<'_>, field: &[u8]) -> Option<Place>
    ensures { IfSome result (λ place. StandsIn place (said found.entry) field.now) }
{
    match found {
        LookedUp::Name(name) => Some(Place::Name(name)),
        LookedUp::Part(value, from) => {
            let to = from.checked_add(value.len())?;
            if field.get(from..to)? != value {
                return None;
            }
            Some(Place::Part(from, to))
        }
    }
}

// Values that are known, and what takes the memory for more.
#[derive(Drop)]
struct Memory {
    alloc: Global,
    known: Vec<Known>,
}

impl Model for Memory {
    ghost use Rattle.std.specs.Prelude.{ℕ, ◌≤◌, length};
    ghost use Rattle.esi_vars.specs.declared.lookups.TheConstants.{MAX_LOOKUPS};

    ghost Value = { ℕ };

    ghost view = { λ m. length m.known.items };

    ghost invariant = { λ m. length m.known.items ≤ MAX_LOOKUPS };
}

impl Memory {
    // How many values are known.
    fn count(&self) -> usize
        ensures value { result ≡ self.now }
        ensures few { result ≤ MAX_LOOKUPS }
    {
        self.known.len()
    }

    // The value, if it is known.
    fn value_for<'a>(&self, variable: Keyed, key: &[u8], field: &'a [u8]) -> Option<LookedUp<'a>>
        ensures { IfSome result (λ found. said found ≡ value_in variable key.now field.now) }
    {
        for known in &self.known {
            let found = known.value_for(variable, key, field);
            if found.is_some() {
                return found;
            }
        }
        None
    }

    // Remembers a value, if there is room for it.
    fn remember(
        &mut self,
        variable: Keyed,
        key: &[u8],
        field: &SharedBytes,
        found: LookedUp<'_>,
    ) -> Result<(), NoMemory>
        requires { said found ≡ value_in variable key.now field.now }
        ensures { (self.old ≤ self.new) × (self.new ≤ self.old + 1) }
    {
        let Some(place) = place_of(found, field.as_bytes()) else {
            return Ok(());
        };
        if self.known.len() >= MAX_LOOKUPS {
            return Ok(());
        }
        let known = Known {
            variable,
            key: Octets::copy_of(self.alloc, key)?,
            field: field.share()?,
            place,
        };
        self.known.push(known)?;
        Ok(())
    }
}

/// What was looked up in long fields of requests, for those who look up more. Clauses see how many values it knows, if it
/// remembers any: which these are changes no value.
#[derive(Drop)]
pub struct Lookups {
    memory: Option<Memory>,
}

impl Lookups {
    /// No values, and none will be remembered. Takes no memory.
    pub fn none() -> Lookups
        ensures { result.memory ≡ None }
    {
        Lookups { memory: None }
    }

    /// No values yet. Takes no memory; each value that is remembered does.
    pub fn new(alloc: Global) -> Lookups
        ensures { result.memory ≡ Some 0 }
    {
        let memory = Memory {
            alloc,
            known: Vec::new(alloc),
        };
        Lookups {
            memory: Some(memory),
        }
    }

    /// How many values it knows. Takes no memory.
    pub fn count(&self) -> usize
        ensures value { result ≡ unwrap_or self.now.memory 0 }
        ensures few { result ≤ MAX_LOOKUPS }
    {
        match &self.memory {
            Some(memory) => memory.count(),
            None => 0,
        }
    }

    /// The part of a field that a key names. It is searched for only if it isn't known.
    pub(crate) fn value<'a>(
        &mut self,
        variable: Keyed,
        key: &[u8],
        field: &'a SharedBytes,
    ) -> LookedUp<'a>
        ensures { said result ≡ value_in variable key.now field.now }
    {
        let bytes = field.as_bytes();
        let memory = match &mut self.memory {
            Some(memory) if bytes.len() >= LONG_FIELD => memory,
            _ => return variable.value_in(key, bytes),
        };
        if let Some(found) = memory.value_for(variable, key, bytes) {
            return found;
        }
        let found = variable.value_in(key, bytes);
        // What can't be remembered is searched for again.
        match memory.remember(variable, key, field, found) {
            Ok(()) | Err(NoMemory) => found,
        }
    }
}
