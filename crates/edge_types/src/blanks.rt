//! Blanks, which are spaces and tabs, and a text without those at its ends.

ghost use Rattle.std.specs.Prelude.{◌≡◌, reverse};
ghost use Rattle.edge_types.specs.Blanks as spec;
ghost use Rattle.edge_types.specs.Blanks.{skip_blanks};

/// Whether the byte is a space or a tab. Takes no memory.
pub fn is_blank(byte: u8) -> bool
    ensures { result ≡ spec.is_blank byte }
{
    matches!(byte, b' ' | b'\t')
}

/// The text from its first byte on that is no blank. Takes no memory.
pub fn skip_blanks(mut text: &[u8]) -> &[u8]
    ensures { result.now ≡ skip_blanks text.now }
{
    while let [first, rest @ ..] = text
        && is_blank(*first)
    {
        text = rest;
    }
    text
}

// The text up to its last byte that isn't a blank.
fn skip_last_blanks(mut text: &[u8]) -> &[u8]
    ensures { result.now ≡ reverse (skip_blanks (reverse text.now)) }
{
    while let [rest @ .., last] = text
        && is_blank(*last)
    {
        text = rest;
    }
    text
}

/// The text without the blanks at its ends. Takes no memory.
#[tactic(auto, unfolding(crate::specs::Blanks::trimmed))]
pub fn trimmed(text: &[u8]) -> &[u8]
    ensures { result.now ≡ spec.trimmed text.now }
{
    skip_last_blanks(skip_blanks(text))
}
