//! Tokens, which name fields and devices.

ghost use Rattle.std.specs.Prelude.{◌≡◌};
ghost use Rattle.edge_types.specs.Token as spec;

// The bytes of a token other than letters and digits.
const TOKEN_MARKS: &[u8] = b"!#$%&'*+-.^_`|~";

#[tactic(auto, unfolding(crate::specs::Token::is_token_byte))]
fn is_token_byte(byte: u8) -> bool
    ensures { result ≡ spec.is_token_byte byte }
{
    byte.is_ascii_alphanumeric() || TOKEN_MARKS.contains(&byte)
}

/// Whether a text is a token: one or more letters, digits and bytes of ``!#$%&'*+-.^_`|~``. Takes no memory.
///
/// Source: RFC 9110, "Tokens"; Edge Architecture Specification 1.0, "Surrogate-Capability Request Header".
#[tactic(auto, unfolding(crate::specs::Token::is_token))]
pub fn is_token(text: &[u8]) -> bool
    ensures { result ≡ spec.is_token text.now }
{
    !text.is_empty() && text.iter().all(|byte| is_token_byte(*byte))
}
