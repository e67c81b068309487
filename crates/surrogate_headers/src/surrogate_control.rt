//! What an origin asks of the edge.

ghost use Rattle.std.specs.Prelude.{◌≡◌, ℕ, List, ◌∷◌};
ghost use Rattle.surrogate_headers.specs.Control.{control_of, directives_among};
ghost use Rattle.surrogate_headers.specs.Found.{settled};

use crate::directive::directive_of;
use crate::found::{Found, aim_of};
use crate::parts::Parts;
use edge_types::{Control, trimmed};

/// Reads what the value of a `Surrogate-Control` header asks of a device.
///
/// `value` is the raw value of the field, `device` the raw token of the device; ages are seconds.
/// The value is cut into directives at each comma outside quotes; a quote that isn't closed reaches
/// to the end. A malformed directive, an unknown one and one that is aimed at another device are
/// skipped. Of several with one name the first that is aimed at this device counts, else the
/// first that is aimed at none. More seconds than `MAX_SECONDS` count as that many.
///
/// Takes no memory.
///
/// Source: Edge Architecture Specification 1.0, "Surrogate-Control Header"; which of several
/// counts, white space and the largest number: our profile.
pub fn control(value: &[u8], device: &[u8]) -> Control
    ensures { result ≡ control_of value.now device.now }
{
    let mut found = Found::nothing();
    for part in Parts::of(value) {
        note_part(&mut found, part, device);
    }
    found.control()
}

// Records one more part, so that only those after it are still to be read.
fn note_part(found: &mut Found, part: &[u8], device: &[u8])
    ensures { (parts : List (List ℕ))
        → settled found.new device.now (directives_among parts)
        ≡ settled found.old device.now (directives_among (part.now ∷ parts)) }
{
    let Some(directive) = directive_of(trimmed(part)) else {
        return;
    };
    let Some(aim) = aim_of(directive.target, device) else {
        return;
    };
    found.note(directive.asks, aim);
}
