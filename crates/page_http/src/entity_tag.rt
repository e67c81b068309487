//! The entity tags of bodies.

ghost use Rattle.std.specs.Prelude.{◌≡◌, IfOk};
ghost use Rattle.page_http.specs.EntityTag as spec;

use crate::body::EdgeBody;
use edge_types::NoMemory;
use std::alloc::Global;

/// The strong entity tag of what is left of a body: in quotes the SHA-256 digest of its bytes.
///
/// `NoMemory` if an allocation fails.
///
/// Source: RFC 9110, "ETag"; FIPS 180-4, "SHA-256".
pub fn entity_tag_of(alloc: Global, body: &EdgeBody) -> Result<Vec<u8>, NoMemory>
    ensures { IfOk result (λ tag. tag.items ≡ spec.entity_tag body.now) }
{
    let digest = body.digest()?;
    let digits = hex::encode(alloc, digest)?;
    let mut tag = Vec::new(alloc);
    tag.extend_from_slice(b"\"")?;
    tag.extend_from_slice(digits.as_bytes())?;
    tag.extend_from_slice(b"\"")?;
    Ok(tag)
}
