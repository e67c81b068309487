//! Numbers as lines write them.
ghost use Rattle.std.specs.Prelude.{◌≡◌};
ghost use Rattle.edge_case.specs.Reading.{has_needless_zero, number_of};

use edge_types::decimal_of;

/// The most digits of a number: the longest body needs them; a status needs fewer.
pub(crate) const MAX_DIGITS: usize = 6;

// The largest number with this many digits.
const MAX_NUMBER: u64 = 999_999;

fn has_needless_zero(text: &[u8]) -> bool
    ensures { result ≡ has_needless_zero text.now }
{
    matches!(text, [b'0', _, ..])
}

/// The number that a text writes: one to `MAX_DIGITS` digits, without needless zeros.
pub(crate) fn number_of(text: &[u8]) -> Option<u32>
    ensures { result ≡ number_of text.now }
{
    if text.len() > MAX_DIGITS || has_needless_zero(text) {
        return None;
    }
    let number = decimal_of(text, MAX_NUMBER)?;
    Some(number as u32)
}
