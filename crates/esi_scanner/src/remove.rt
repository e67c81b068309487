//! The content of a `remove` element.

ghost use Rattle.std.specs.Prelude.{◌≡◌, ◌≤◌, ◌<◌, length, IfSome, IsSome};
ghost use Rattle.std.specs.Option.{option_copied};
ghost use Rattle.esi_scanner.specs.Tag.{after_removed, removed_len};

use memchr::memmem;

const REMOVE_END: &[u8] = b"</esi:remove>";

// How many bytes are before the first end tag; the text's length if there isn't one.
#[tactic(auto, using(crate::proofs::Places::removed_search))]
fn removed_len(text: &[u8]) -> usize
    ensures value { result ≡ removed_len text.now }
    ensures within { result ≤ length text.now }
{
    memmem::find(text, REMOVE_END).unwrap_or(text.len())
}

/// What follows the first end tag of a `remove` element. Takes no memory.
#[tactic(auto, unfolding(crate::specs::Tag::after_removed))]
pub(crate) fn after_removed(text: &[u8]) -> Option<&[u8]>
    ensures value { option_copied result ≡ after_removed text.now }
    ensures shorter { IfSome result (λ rest. length rest.now ≤ length text.now) }
{
    let (_, rest) = text.split_at(removed_len(text));
    rest.strip_prefix(REMOVE_END)
}
