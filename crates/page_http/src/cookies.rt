//! The cookies of a request that have certain names.
ghost use Rattle.std.specs.Prelude.{◌≡◌, IfOk};
ghost use Rattle.page_http.specs.Cookies as spec;

use crate::field::{Field, joined_values};
use edge_types::{NoMemory, around, trimmed};
use std::alloc::{AllocError, Global};

/// Those cookies of a request with these lines whose name is one of `names`, as they came, in their order, joined by `; `.
/// Empty if there is none.
///
/// In `names` commas stand between the names, and blanks may stand around each. Names are compared byte for byte. Several
/// lines of `Cookie` count as one. The name of a cookie is what is before its first `=`, without the blanks around it; what
/// has no `=` is no cookie.
///
/// `NoMemory` if an allocation fails. Takes no memory where there is no line of `Cookie`.
///
/// Source: RFC 6265, "The Cookie Header"; RFC 9113, "Compressing the Cookie Header Field".
pub fn cookies_named(alloc: Global, names: &[u8], fields: &[Field<'_>]) -> Result<Vec<u8>, NoMemory>
    ensures { IfOk result (λ cookies. cookies.items ≡ spec.cookies_named names.now fields.now) }
{
    let line = joined_values(alloc, b"cookie", b"; ", fields)?;
    Ok(named_in(alloc, names, line.as_slice())?)
}

// Those cookies of a line of `Cookie` that have one of these names.
fn named_in(alloc: Global, names: &[u8], line: &[u8]) -> Result<Vec<u8>, AllocError>
    ensures { IfOk result (λ cookies. cookies.items ≡ spec.named_in names.now line.now) }
{
    let cookies = line
        .split(|byte| *byte == b';')
        .map(|cookie| trimmed(cookie))
        .filter(|cookie| has_name(names, cookie));
    bstr::join(alloc, b"; ", cookies)
}

// Whether it is a cookie that has one of these names.
#[tactic(auto, unfolding(crate::specs::Cookies::has_name))]
fn has_name(names: &[u8], cookie: &[u8]) -> bool
    ensures { result ≡ spec.has_name names.now cookie.now }
{
    match around(b'=', cookie) {
        Some((name, _)) => is_member(names, trimmed(name)),
        None => false,
    }
}

/// Whether a name is a member of a list, in which commas stand between the names, and blanks may stand around each.
pub(crate) fn is_member(names: &[u8], name: &[u8]) -> bool
    ensures { result ≡ spec.is_member names.now name.now }
{
    names
        .split(|byte| *byte == b',')
        .any(|member| trimmed(member) == name)
}
