//! The values of references for a request.

ghost use Rattle.std.specs.Prelude.{◌≡◌, IfOk};
ghost use Rattle.std.specs.Option.{option_copied};
ghost use Rattle.esi_vars.specs.Shown.{said};
ghost use Rattle.esi_vars.specs.Values.{value_of, raw_value, whole_value, asked_of, keyed_value};

use crate::looked_up::LookedUp;
use crate::lookups::{Keyed, Lookups};
use crate::reference::{Reference, Variable};
use edge_types::{NoMemory, Octets, Request, SharedBytes};
use std::alloc::Global;

/// The bytes that a reference denotes: what the request says, else the default, else nothing.
///
/// Lent from the request, the reference or a constant. Takes no memory.
///
/// Source: ESI Language Specification 1.0, "Variables"; how parts of a field are found is our profile.
pub fn value<'a>(request: &'a Request, reference: &'a Reference) -> &'a [u8]
    ensures { result.now ≡ value_of request.now reference.now }
{
    value_by(request, reference, &mut Lookups::none())
}

/// The bytes that a reference denotes, as `value` says. What these lookups know isn't searched for again, and what they
/// don't know they may remember.
///
/// Source: ESI Language Specification 1.0, "Variables"; what is remembered is our profile.
#[tactic(auto, unfolding(crate::specs::Values::value_of))]
pub fn value_by<'a>(
    request: &'a Request,
    reference: &'a Reference,
    lookups: &mut Lookups,
) -> &'a [u8]
    ensures { result.now ≡ value_of request.now reference.now }
{
    let said = raw_value(request, &reference.variable, &reference.key, lookups).value();
    if !said.is_empty() {
        return said;
    }
    match &reference.default {
        Some(default) => default.as_bytes(),
        None => b"",
    }
}

/// The bytes that a reference denotes, as `value_by` says, for one more owner: a part of the request's field or of the
/// reference, of which nothing is copied.
///
/// `NoMemory` if an owner can't be made.
///
/// Source: ESI Language Specification 1.0, "Variables"; how parts of a field are found is our profile.
#[tactic(auto, unfolding(crate::specs::Values::value_of))]
pub fn shared_value(
    alloc: Global,
    request: &Request,
    reference: &Reference,
    lookups: &mut Lookups,
) -> Result<SharedBytes, NoMemory>
    ensures { IfOk result (λ value. value ≡ value_of request.now reference.now) }
{
    let said = raw_value(request, &reference.variable, &reference.key, lookups);
    if !said.value().is_empty() {
        return shared(alloc, request, &reference.variable, said);
    }
    match &reference.default {
        Some(default) => default.share(),
        None => Ok(SharedBytes::new()),
    }
}

// A value as a part of the field in which it stands. One that doesn't, as a name of the language's own, is copied.
fn shared(
    alloc: Global,
    request: &Request,
    variable: &Variable,
    found: LookedUp<'_>,
) -> Result<SharedBytes, NoMemory>
    ensures { IfOk result (λ value. value ≡ said found.entry) }
{
    let part = match (found, field_of(request, variable)) {
        (LookedUp::Part(value, place), Some(field)) => field.part_at(place, value)?,
        _ => None,
    };
    match part {
        Some(part) => Ok(part),
        None => SharedBytes::copy_of(alloc, found.value()),
    }
}

// What a variable asks of the request, if it asks for anything.
fn field_of<'a>(request: &'a Request, variable: &Variable) -> Option<&'a SharedBytes>
    ensures { option_copied result ≡ asked_of request.now variable.now }
{
    match variable {
        Variable::QueryString => Some(&request.query),
        _ => Some(request.field(variable.field()?)),
    }
}

// What the request says, before any default is considered.
fn raw_value<'a>(
    request: &'a Request,
    variable: &Variable,
    key: &Option<Octets>,
    lookups: &mut Lookups,
) -> LookedUp<'a>
    ensures { said result ≡ raw_value request.now variable.now key.now }
{
    match key {
        None => LookedUp::Part(whole_value(request, variable), 0),
        Some(key) => keyed_value(request, variable, key.as_bytes(), lookups),
    }
}

// A variable without a key.
fn whole_value<'a>(request: &'a Request, variable: &Variable) -> &'a [u8]
    ensures { result.now ≡ whole_value request.now variable.now }
{
    match field_of(request, variable) {
        Some(field) => field.as_bytes(),
        None => b"",
    }
}

// The part of a variable that a key names.
fn keyed_value<'a>(
    request: &'a Request,
    variable: &Variable,
    key: &[u8],
    lookups: &mut Lookups,
) -> LookedUp<'a>
    ensures { said result ≡ keyed_value request.now variable.now key.now }
{
    match variable {
        Variable::HttpAcceptLanguage => {
            lookups.value(Keyed::Language, key, &request.accept_language)
        }
        Variable::HttpCookie => lookups.value(Keyed::Cookie, key, &request.cookie),
        Variable::HttpUserAgent => lookups.value(Keyed::Agent, key, &request.user_agent),
        Variable::QueryString => lookups.value(Keyed::Query, key, &request.query),
        // No other variable has parts.
        _ => LookedUp::Name(b""),
    }
}
