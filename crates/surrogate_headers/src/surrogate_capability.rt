//! What the edge says to an origin that it can do.

ghost use Rattle.std.specs.Prelude.{◌≡◌, IfOk, IsTrue};
ghost use Rattle.edge_types.specs.Token.{is_token};
ghost use Rattle.surrogate_headers.specs.Capability.{capability_of};

use edge_types::NoMemory;
use std::alloc::Global;

// The two specifications that a device supports, as the value of its token.
const CAPABILITIES: &[u8] = b"=\"Surrogate/1.0 ESI/1.0\"";

/// Writes the value of `Surrogate-Capability` for a device.
///
/// It is the device's token, then `="Surrogate/1.0 ESI/1.0"`. `edge_types::is_token` tests whether a name can be a
/// device's. The only refusal is out of memory, which leaves nothing behind.
///
/// Source: Edge Architecture Specification 1.0, "Surrogate-Capability Request Header".
pub fn capability(alloc: Global, device: &[u8]) -> Result<Vec<u8>, NoMemory>
    requires { IsTrue (is_token device.now) }
    ensures { IfOk result (λ value. value.items ≡ capability_of device.now) }
{
    let mut value = device.to_vec(alloc)?;
    value.extend_from_slice(CAPABILITIES)?;
    Ok(value)
}
