//! Lists in one text, with commas between their elements.

ghost use Rattle.std.specs.Prelude.{◌≡◌, map, IfOk};
ghost use Rattle.edge_setup.specs.Lists as spec;

use edge_types::trimmed;
use std::alloc::{AllocError, Global};

/// Whether a byte stands between two elements.
pub(crate) fn is_comma(byte: u8) -> bool
    ensures { result ≡ spec.is_comma byte }
{
    byte == b','
}

/// The elements of a text, without the blanks around each.
pub(crate) fn members_of(alloc: Global, text: &[u8]) -> Result<Vec<&[u8]>, AllocError>
    ensures { IfOk result (λ members. map (λ member. member.now) members.items ≡ spec.members text.now) }
{
    text.split(|byte| is_comma(*byte))
        .map(|member| trimmed(member))
        .collect(alloc)
}
