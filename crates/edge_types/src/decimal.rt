//! Decimal numbers of up to 64 bits.
ghost use Rattle.std.specs.Prelude.{◌≡◌, ◌≤◌, IfSome};
ghost use Rattle.edge_types.specs.Decimal.{decimal_of};

/// The number that a text writes in decimal digits, with any number of leading zeros; `None` if it
/// isn't one, or is above `most`. Takes no memory.
///
/// Our profile.
#[tactic(auto, unfolding(crate::specs::Decimal::decimal_of))]
pub fn decimal_of(text: &[u8], most: u64) -> Option<u64>
    ensures reading { result ≡ decimal_of text.now most }
    ensures within { IfSome result (λ number. number ≤ most) }
{
    if text.is_empty() {
        return None;
    }
    let above = u128::from(most) + 1;
    let mut total: u128 = 0;
    for digit in text {
        if !digit.is_ascii_digit() {
            return None;
        }
        // Kept small: once above the limit it stays above.
        total = (total * 10 + u128::from(*digit - b'0')).min(above);
    }
    if total < above {
        Some(total as u64)
    } else {
        None
    }
}
