//! Comparisons of texts.

ghost use Rattle.std.specs.Prelude.{◌≡◌};
ghost use Rattle.esi_expr.specs.Truth.{accepts, order_of, compares};

use crate::expr::Comparison;
use crate::number::number_of;
use std::cmp::Ordering;

impl Comparison {
    // Whether the comparison is true of this order.
    fn accepts(self, order: Ordering) -> bool
        ensures { result ≡ accepts self order }
    {
        match self {
            Comparison::EqualTo => order.is_eq(),
            Comparison::Unequal => order.is_ne(),
            Comparison::AtMost => order.is_le(),
            Comparison::AtLeast => order.is_ge(),
            Comparison::Below => order.is_lt(),
            Comparison::Above => order.is_gt(),
        }
    }
}

// The order of two texts: of the numbers if both are numbers, else byte by byte.
#[tactic(auto, unfolding(crate::specs::Truth::order_of))]
fn order_of(left: &[u8], right: &[u8]) -> Ordering
    ensures { result ≡ order_of left.now right.now }
{
    match (number_of(left), number_of(right)) {
        (Some(left), Some(right)) => left.cmp(&right),
        _ => left.cmp(&right),
    }
}

/// Whether a comparison of two texts is true; never if one of them is empty.
pub(crate) fn compares(left: &[u8], by: Comparison, right: &[u8]) -> bool
    ensures { result ≡ compares left.now by right.now }
{
    !left.is_empty() && !right.is_empty() && by.accepts(order_of(left, right))
}
