//! The device that this edge is: the token by which origins aim at it, and the field by which it says
//! what it can do.

ghost use Rattle.std.specs.Prelude.{◌≡◌, codes};
ghost use Rattle.surrogate_headers.specs.Capability.{capability_of, own_device};

/// Returns the token of this edge, for which it reads `Surrogate-Control`.
///
/// Takes no memory.
///
/// Our profile.
pub fn own_device() -> &'static [u8]
    ensures { result.now ≡ own_device }
{
    b"edge1"
}

/// Returns the field by which this edge says to origins what it can do: its name in lower case, and
/// its value, which is what `capability` writes for the edge's own token.
///
/// Takes no memory.
///
/// Source: Edge Architecture Specification 1.0, "Surrogate-Capability Request Header".
pub fn own_capability() -> (&'static str, &'static str)
    ensures name { result.0.now ≡ codes "surrogate-capability" }
    ensures value { result.1.now ≡ capability_of own_device }
{
    ("surrogate-capability", "edge1=\"Surrogate/1.0 ESI/1.0\"")
}
