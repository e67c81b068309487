//! The first place of a byte in a text, and the two halves of the text round it.

ghost use Rattle.std.specs.Prelude.{◌≡◌, ◌==◌, ◌<◌, length, position, IfSome};
ghost use Rattle.std.specs.Option.{option_map};
ghost use Rattle.edge_types.specs.Halves.{around, lent_pair};

use memchr::memchr;

/// The place of the first such byte; none without one. Takes no memory.
#[tactic(auto, using(crate::proofs::SearchLemmas::position_from_search))]
pub fn find_byte(byte: u8, text: &[u8]) -> Option<usize>
    ensures value { result ≡ position (λ b. b == byte) text.now }
    ensures within { IfSome result (λ n. n < length text.now) }
{
    memchr(byte, text)
}

/// What is before the first of this byte, and what is after it; `None` without one. Takes no memory.
#[tactic(auto, unfolding(crate::specs::Halves::around))]
pub fn around(mark: u8, text: &[u8]) -> Option<(&[u8], &[u8])>
    ensures value { option_map lent_pair result ≡ around mark text.now }
    ensures shorter { IfSome result (λ halves. length halves.1.now < length text.now) }
{
    let at = find_byte(mark, text)?;
    Some((&text[..at], &text[at + 1..]))
}
