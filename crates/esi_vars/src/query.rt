//! The query string of a request.

ghost use Rattle.std.specs.Prelude.{◌≡◌};
ghost use Rattle.esi_vars.specs.Field as spec;
ghost use Rattle.esi_vars.specs.Shown.{said};

use crate::field::{first_part, from_name, halves};
use crate::looked_up::LookedUp;
use memchr::memmem::Finder;

/// The value of the first part of a query with this name, or nothing.
pub(crate) fn query_value<'a>(name: &[u8], field: &'a [u8]) -> LookedUp<'a>
    ensures { said result ≡ spec.query_value name.now field.now }
{
    let finder = Finder::new(name);
    let mut rest = Some(field);
    while let Some(text) = rest {
        let Some(text) = from_name(b'&', &finder, text) else {
            break;
        };
        let (part, after) = first_part(b'&', text);
        let (found, value) = halves(b'=', part);
        if found == name {
            return LookedUp::behind(value, field, text, name.len() + 1);
        }
        rest = after;
    }
    LookedUp::Name(b"")
}
