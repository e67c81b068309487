//! Reads tests. Each reader gives what it read and what follows it, or where it stops.

ghost use Rattle.std.specs.Prelude.{◌≡◌, suc, IfOk, option_map};
ghost use Rattle.esi_expr.specs.Reading as spec;
ghost use Rattle.esi_expr.specs.Shown.{Finds, FindsTest, test_of, conj_of, neg_of};

use crate::expr::{Conjunction, Expr, Negation, Operand};
use crate::part::{after_sign, after_ws, comparison_at, operand_at};
use crate::stop::{Halt, Stop, Wanted};
use edge_types::NoMemory;
use std::alloc::Global;

/// The most `(` and `!` around an operand, counted together.
///
/// Our profile.
pub const NESTING_LIMIT: u8 = 32;

// An operand, which is wanted here.
fn wanted_at(alloc: Global, text: &[u8]) -> Result<(Operand, &[u8]), Halt>
    ensures { Finds (λ operand. operand) result (spec.wanted_at text.now) }
{
    match operand_at(alloc, text)? {
        Some(found) => Ok(found),
        None => Err(Halt::Stopped(Stop {
            wanted: Wanted::Operand,
            rest: after_ws(text),
        })),
    }
}

// An operand, alone or compared.
#[tactic(auto, unfolding(crate::specs::Reading::plain_at))]
fn plain_at(alloc: Global, text: &[u8]) -> Result<(Negation, &[u8]), Halt>
    ensures { Finds neg_of result (spec.plain_at text.now) }
{
    let (left, rest) = wanted_at(alloc, text)?;
    let Some((by, behind)) = comparison_at(rest) else {
        return Ok((Negation::Filled(left), rest));
    };
    let (right, rest) = wanted_at(alloc, behind)?;
    Ok((Negation::Compared(left, by, right), rest))
}

// Negations with `&` between them.
#[cycle(reading)]
fn conjunction_at(alloc: Global, nesting: u8, text: &[u8]) -> Result<(Conjunction, &[u8]), Halt>
    ensures { Finds conj_of result (spec.conj_with (spec.neg_at nesting) text.now) }
{
    let (first, mut rest) = negation_at(alloc, nesting, text)?;
    let mut more = Vec::new(alloc);
    while let Some(behind) = after_sign(b'&', rest) {
        let (next, after) = negation_at(alloc, nesting, behind)?;
        more.push(next)?;
        rest = after;
    }
    Ok((Conjunction::of(first, more), rest))
}

// Conjunctions with bars between them.
#[cycle(reading)]
fn test_at(alloc: Global, nesting: u8, text: &[u8]) -> Result<(Expr, &[u8]), Halt>
    ensures { Finds test_of result (spec.test_with (spec.neg_at nesting) text.now) }
{
    let (first, mut rest) = conjunction_at(alloc, nesting, text)?;
    let mut more = Vec::new(alloc);
    while let Some(behind) = after_sign(b'|', rest) {
        let (next, after) = conjunction_at(alloc, nesting, behind)?;
        more.push(next)?;
        rest = after;
    }
    Ok((Expr::of(first, more), rest))
}

// A negation with at most this many `!` and `(` around an operand.
#[cycle(reading)]
#[tactic(auto, using(crate::proofs::Fuel::above), unfolding(crate::specs::Reading::neg_at))]
fn negation_at(alloc: Global, nesting: u8, text: &[u8]) -> Result<(Negation, &[u8]), Halt>
    ensures { Finds neg_of result (spec.neg_at nesting text.now) }
{
    if nesting == 0 {
        plain_at(alloc, text)
    } else {
        nested_at(alloc, nesting - 1, text)
    }
}

// A negation with at most this many after its first `!` or `(`.
#[cycle(reading)]
#[tactic(auto, unfolding(crate::specs::Reading::neg_at))]
fn nested_at(alloc: Global, nesting: u8, text: &[u8]) -> Result<(Negation, &[u8]), Halt>
    ensures { Finds neg_of result (spec.neg_at (suc nesting) text.now) }
{
    if let Some(rest) = after_sign(b'!', text) {
        not_at(alloc, nesting, rest)
    } else if let Some(rest) = after_sign(b'(', text) {
        group_at(alloc, nesting, rest)
    } else {
        plain_at(alloc, text)
    }
}

// What follows `!`.
#[cycle(reading)]
fn not_at(alloc: Global, nesting: u8, text: &[u8]) -> Result<(Negation, &[u8]), Halt>
    ensures { Finds neg_of result (spec.not_with (spec.neg_at nesting) text.now) }
{
    let (inner, rest) = negation_at(alloc, nesting, text)?;
    Ok((Negation::Not(Box::new(alloc, inner)?), rest))
}

// What follows `(`.
#[cycle(reading)]
fn group_at(alloc: Global, nesting: u8, text: &[u8]) -> Result<(Negation, &[u8]), Halt>
    ensures { Finds neg_of result (spec.group_with (spec.neg_at nesting) text.now) }
{
    let (inner, rest) = test_at(alloc, nesting, text)?;
    match after_sign(b')', rest) {
        Some(behind) => Ok((Negation::Group(Box::new(alloc, inner)?), behind)),
        None => Err(Halt::Stopped(Stop {
            wanted: Wanted::Closing,
            rest: after_ws(rest),
        })),
    }
}

/// Reads the test that a text is, or says where its reading stops.
///
/// At most `NESTING_LIMIT` `(` and `!` may be around an operand, and a number has at most `DIGIT_LIMIT` digits.
///
/// Source: ESI Language Specification 1.0, "Expressions" and "Operators"; the spelling of operands and the limits are
/// our profile.
pub fn read(alloc: Global, text: &[u8]) -> Result<Expr, Halt>
    ensures { FindsTest result (spec.reading text.now) }
{
    let (found, rest) = test_at(alloc, NESTING_LIMIT, text)?;
    let rest = after_ws(rest);
    if rest.is_empty() {
        Ok(found)
    } else {
        Err(Halt::Stopped(Stop {
            wanted: Wanted::Operator,
            rest,
        }))
    }
}

/// The test that a text is, as `read` reads it; `None` where it is none.
///
/// `NoMemory` where an allocation fails; no test is made then.
#[tactic(auto, unfolding(crate::specs::Reading::read_test))]
pub fn parse(alloc: Global, text: &[u8]) -> Result<Option<Expr>, NoMemory>
    ensures { IfOk result (λ found. option_map test_of found ≡ spec.read_test text.now) }
{
    match read(alloc, text) {
        Ok(test) => Ok(Some(test)),
        Err(Halt::Stopped(_)) => Ok(None),
        Err(Halt::NoMemory) => Err(NoMemory),
    }
}
