//! What the options without a value say.
ghost use Rattle.std.specs.Prelude.{◌≡◌, ◌∷◌, ◌++◌, [], map, IfOk, OnOk};
ghost use Rattle.clap.specs.Words.{found_of, rows_of};
ghost use Rattle.edge_setup.specs.Options.{all_flags_said};
ghost use Rattle.edge_setup.specs.Said.{is_asked, SaysFlags};

use crate::flag::Flag;
use clap::ArgMatches;
use std::alloc::{AllocError, Global};

/// Which of the options without a value are set.
#[derive(Drop)]
pub struct Flags {
    // Of each, in the order of `Flag::ALL`.
    values: Vec<bool>,
}

impl Flags {
    /// What the matches say.
    pub(crate) fn of(alloc: Global, matches: &ArgMatches<'_>) -> Result<Flags, AllocError>
        ensures { IfOk result (SaysFlags (rows_of (found_of matches.now))) }
    {
        let values = Flags::values_of(alloc, matches)?;
        Ok(Flags { values })
    }

    // What each option says, in their order.
    fn values_of(alloc: Global, matches: &ArgMatches<'_>) -> Result<Vec<bool>, AllocError>
        ensures { IfOk result (λ values. values.items ≡ all_flags_said (rows_of (found_of matches.now))) }
    {
        let mut values = Vec::new(alloc);
        for flag in Flag::ALL {
            push(&mut values, flag.is_set(matches))?;
        }
        Ok(values)
    }

    /// Whether this one is set.
    pub fn has(&self, flag: Flag) -> bool
        ensures { result ≡ is_asked self.now flag }
    {
        match self.values.get(flag.place()) {
            Some(value) => *value,
            None => false,
        }
    }
}

fn push(values: &mut Vec<bool>, value: bool) -> Result<(), AllocError>
    ensures { OnOk result (values.new.items ≡ values.old.items ++ value ∷ []) }
{
    match values.push(value) {
        Ok(()) => Ok(()),
        Err(_) => Err(AllocError),
    }
}
