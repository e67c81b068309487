//! Sources of includes in which a reader may choose the host or the folder.

ghost use Rattle.std.specs.Prelude.{◌≡◌, IfOk};
ghost use Rattle.std.specs.List.{list_any};
ghost use Rattle.template_check.specs.Chosen as spec;

use crate::warning::Warning;
use edge_types::{NoMemory, Octets, SharedBytes};
use esi_vars::{Part, Reference, Variable, parts};
use std::alloc::Global;

// Whether a reader writes what an agent's field says under a key: a version may be `..`, and the other values are
// names that the standard gives.
fn is_written_agent(key: &Option<Octets>) -> bool
    ensures { result ≡ spec.is_written_agent key.now }
{
    match key {
        Some(key) => key.as_bytes() == b"version".as_slice(),
        None => true,
    }
}

// Whether the value of a reference may be bytes that a reader writes.
fn is_written(reference: &Reference) -> bool
    ensures { result ≡ spec.is_written reference.now.variable reference.now.key }
{
    match &reference.variable {
        Variable::HttpCookie | Variable::QueryString => true,
        Variable::HttpUserAgent => is_written_agent(&reference.key),
        Variable::Unknown(_) => false,
        // Any other is a field, of which no part is bytes that a reader writes.
        _ => reference.key.is_none(),
    }
}

// Whether the host and the path of a URL end in a text.
fn ends_path(text: &[u8]) -> bool
    ensures { result ≡ list_any spec.is_end text.now }
{
    text.iter().any(|byte| matches!(*byte, b'?' | b'#'))
}

// Whether a reader writes bytes before the first `?` or `#` in the parts of a source.
fn is_chosen(parts: &[Part]) -> bool
    ensures { result ≡ spec.is_chosen parts.now }
{
    for part in parts {
        match part {
            Part::Reference(reference) => {
                if is_written(reference) {
                    return true;
                }
            }
            Part::Text(text) => {
                if ends_path(text.as_bytes()) {
                    return false;
                }
            }
        }
    }
    false
}

/// The warning about a source whose host or folder a reader may choose.
pub(crate) fn source_warning(alloc: Global, source: &[u8]) -> Result<Option<Warning>, NoMemory>
    ensures { IfOk result (λ found. found ≡ spec.source_warning source.now) }
{
    let source = SharedBytes::copy_of(alloc, source)?;
    let parts = parts(alloc, &source)?;
    if is_chosen(parts.as_slice()) {
        Ok(Some(Warning::ChosenSource))
    } else {
        Ok(None)
    }
}
