//! The numbers that the options say.
ghost use Rattle.std.specs.Prelude.{◌≡◌, ◌≤◌, ◌∷◌, ◌++◌, [], map, IfSome, IsSome, MatchResult, OnOk, Some, true};
ghost use Rattle.clap.specs.Words.{found_of, rows_of};
ghost use Rattle.edge_setup.specs.Numbers.{all_said, fits, numbers, row_of, all_fit};

use crate::number::Number;
use crate::setup::{Named, SetupFault};
use clap::ArgMatches;
use std::alloc::{AllocError, Global};

/// What the options that take a number say: each a number within its limits, or nothing where it has no default.
#[derive(Drop)]
pub struct Numbers {
    // Of each, in the order of `Number::ALL`.
    values: Vec<Option<u64>>,
    ghost fit: { all_fit numbers values.items ≡ true },
}

impl Numbers {
    ghost use Rattle.edge_setup.specs.Said.{number_of, value_at, value_of, SaysNumbers};
    ghost use Rattle.edge_setup.specs.Words.{IsRefusedNumber};

    /// What the matches say, or the first option whose word is no number within its limits.
    pub(crate) fn of(alloc: Global, matches: &ArgMatches<'_>) -> Result<Numbers, SetupFault>
        ensures { let rows = rows_of (found_of matches.now) in
            MatchResult result (SaysNumbers rows) (IsRefusedNumber rows) }
    {
        let values = Numbers::values_of(alloc, matches)?;
        Ok(Numbers { values })
    }

    // What each option says, in their order.
    fn values_of(alloc: Global, matches: &ArgMatches<'_>) -> Result<Vec<Option<u64>>, SetupFault>
        ensures { let rows = rows_of (found_of matches.now) in
            MatchResult result (λ values. all_said rows numbers ≡ map Some values.items) (IsRefusedNumber rows) }
    {
        let mut values = Vec::new(alloc);
        for number in Number::ALL {
            match number.said(matches) {
                Some(value) => push(&mut values, value)?,
                None => return Err(SetupFault::Wrong(Named::Number(number))),
            }
        }
        Ok(values)
    }

    /// What an option says: none only where it has no default.
    pub fn said(&self, number: Number) -> Option<u64>
        ensures value { result ≡ value_of self.now number }
        ensures fit { fits (row_of number) result ≡ true }
        ensures few { IfSome result (λ n. n ≤ (row_of number).most) }
    {
        self.at(number.place())
    }

    // What the option at a place says.
    fn at(&self, place: usize) -> Option<u64>
        ensures { result ≡ value_at self.now place }
    {
        match self.values.get(place) {
            Some(value) => *value,
            None => None,
        }
    }

    /// The number of an option that has a default.
    pub fn u64_of(&self, number: Number) -> u64
        requires { IsSome (row_of number).default }
        ensures value { result ≡ number_of self.now number }
        ensures some { (row_of number).least ≤ result }
        ensures few { result ≤ (row_of number).most }
    {
        self.said(number).unwrap_or(0)
    }

    /// The same of an option that takes at most 4,294,967,295.
    pub fn u32_of(&self, number: Number) -> u32
        requires there { IsSome (row_of number).default }
        requires small { (row_of number).most ≤ 4294967295 }
        ensures value { result ≡ number_of self.now number }
        ensures some { (row_of number).least ≤ result }
        ensures few { result ≤ (row_of number).most }
    {
        self.u64_of(number) as u32
    }

    /// The same of an option that takes at most 65,535.
    pub fn u16_of(&self, number: Number) -> u16
        requires there { IsSome (row_of number).default }
        requires small { (row_of number).most ≤ 65535 }
        ensures value { result ≡ number_of self.now number }
        ensures some { (row_of number).least ≤ result }
        ensures few { result ≤ (row_of number).most }
    {
        self.u64_of(number) as u16
    }

    /// The same of an option that takes at most 255.
    pub fn u8_of(&self, number: Number) -> u8
        requires there { IsSome (row_of number).default }
        requires small { (row_of number).most ≤ 255 }
        ensures value { result ≡ number_of self.now number }
        ensures some { (row_of number).least ≤ result }
        ensures few { result ≤ (row_of number).most }
    {
        self.u64_of(number) as u8
    }
}

fn push(values: &mut Vec<Option<u64>>, value: Option<u64>) -> Result<(), AllocError>
    ensures { OnOk result (values.new.items ≡ values.old.items ++ value ∷ []) }
{
    match values.push(value) {
        Ok(()) => Ok(()),
        Err(_) => Err(AllocError),
    }
}
