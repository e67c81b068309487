//! References to variables. Clauses see the records of their fields, byte strings as lists.

ghost use Rattle.std.specs.Prelude.{◌≡◌, IfOk};
ghost use Rattle.std.specs.Option.{option_copied};
ghost use Rattle.esi_vars.specs.Reference.{variable_of, field_asked, variable_names};
ghost use Rattle.esi_vars.specs.Reading.{reference_at, reference_of};
ghost use Rattle.esi_vars.specs.Shown.{shown_reference, shown_written};

use crate::written::{Written, written_at};
use edge_types::{NoMemory, Octets, RequestField, SharedBytes};
use std::alloc::Global;

/// What a reference asks for in the request.
#[derive(Drop)]
pub enum Variable {
    /// The `Accept-Language` field.
    HttpAcceptLanguage,
    /// The `Cookie` field.
    HttpCookie,
    /// The `Host` field.
    HttpHost,
    /// The `Referer` field.
    HttpReferer,
    /// The `User-Agent` field.
    HttpUserAgent,
    /// The query string.
    QueryString,
    /// A variable with another name, which has no value.
    Unknown(Octets),
}

impl Variable {
    /// The header field that it asks for, if it asks for one. Takes no memory.
    ///
    /// Source: ESI Language Specification 1.0, "Variables".
    pub fn field(&self) -> Option<RequestField>
        ensures { result ≡ field_asked self.now }
    {
        match self {
            Variable::HttpAcceptLanguage => Some(RequestField::AcceptLanguage),
            Variable::HttpCookie => Some(RequestField::Cookie),
            Variable::HttpHost => Some(RequestField::Host),
            Variable::HttpReferer => Some(RequestField::Referer),
            Variable::HttpUserAgent => Some(RequestField::UserAgent),
            Variable::QueryString | Variable::Unknown(_) => None,
        }
    }

    /// The names of all variables, as a message lists them. Takes no memory.
    pub fn names() -> &'static str
        ensures { result.now ≡ variable_names }
    {
        "HTTP_ACCEPT_LANGUAGE, HTTP_COOKIE, HTTP_HOST, HTTP_REFERER, HTTP_USER_AGENT and QUERY_STRING"
    }
}

/// A reference to a variable: `$(NAME)`, `$(NAME{key})`, `$(NAME|default)` or `$(NAME{key}|default)`.
#[derive(Drop)]
pub struct Reference {
    /// The variable.
    pub variable: Variable,
    /// The part of the variable that is asked for, without quotes.
    pub key: Option<Octets>,
    /// What replaces an empty value, without quotes; a page may hold it at many places.
    pub default: Option<SharedBytes>,
}

/// The reference at the front of a text, and what follows it; `None` if none begins there.
///
/// `NoMemory` if an allocation fails; no reference is made then.
///
/// Source: ESI Language Specification 1.0, "Variables"; the spelling of keys and defaults is our profile.
#[tactic(auto, unfolding(crate::specs::Reading::reference_at))]
pub fn reference_at(alloc: Global, text: &[u8]) -> Result<Option<(Reference, &[u8])>, NoMemory>
    ensures { IfOk result (λ found. shown_reference found ≡ reference_at text.now) }
{
    let Some((written, rest)) = written_at(text) else {
        return Ok(None);
    };
    Ok(Some((owned(alloc, written)?, rest)))
}

/// Copies the bytes of a reference out of its text.
pub(crate) fn owned(alloc: Global, written: Written<'_>) -> Result<Reference, NoMemory>
    ensures { IfOk result (λ r. r ≡ reference_of (shown_written written.entry)) }
{
    Ok(Reference {
        variable: variable_of(alloc, written.name)?,
        key: copied(alloc, written.key)?,
        default: copied_once(alloc, written.default)?,
    })
}

#[tactic(auto, unfolding(crate::specs::Reference::variable_of))]
fn variable_of(alloc: Global, name: &[u8]) -> Result<Variable, NoMemory>
    ensures { IfOk result (λ v. v ≡ variable_of name.now) }
{
    if name == b"HTTP_ACCEPT_LANGUAGE".as_slice() {
        Ok(Variable::HttpAcceptLanguage)
    } else if name == b"HTTP_COOKIE".as_slice() {
        Ok(Variable::HttpCookie)
    } else if name == b"HTTP_HOST".as_slice() {
        Ok(Variable::HttpHost)
    } else if name == b"HTTP_REFERER".as_slice() {
        Ok(Variable::HttpReferer)
    } else if name == b"HTTP_USER_AGENT".as_slice() {
        Ok(Variable::HttpUserAgent)
    } else if name == b"QUERY_STRING".as_slice() {
        Ok(Variable::QueryString)
    } else {
        Ok(Variable::Unknown(Octets::copy_of(alloc, name)?))
    }
}

// A copy of the bytes, if there are any.
fn copied(alloc: Global, bytes: Option<&[u8]>) -> Result<Option<Octets>, NoMemory>
    ensures { IfOk result (λ copy. copy ≡ option_copied bytes.entry) }
{
    match bytes {
        Some(bytes) => Ok(Some(Octets::copy_of(alloc, bytes)?)),
        None => Ok(None),
    }
}

// A copy of the bytes for several owners, if there are any.
fn copied_once(alloc: Global, bytes: Option<&[u8]>) -> Result<Option<SharedBytes>, NoMemory>
    ensures { IfOk result (λ copy. copy ≡ option_copied bytes.entry) }
{
    match bytes {
        Some(bytes) => Ok(Some(SharedBytes::copy_of(alloc, bytes)?)),
        None => Ok(None),
    }
}
