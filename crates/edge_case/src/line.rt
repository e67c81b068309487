//! Lines and words.
ghost use Rattle.std.specs.Prelude.{◌≡◌};
ghost use Rattle.std.specs.Option.{option_map, option_copied};
ghost use Rattle.edge_case.specs.Reading.{after_word, line_at, field_from, field_at, lent_field};
ghost use Rattle.edge_types.specs.Halves.{lent_pair};

use edge_types::around;

/// The byte that ends a line.
pub(crate) const LINE_FEED: u8 = b'\n';
/// The byte between the parts of a line.
pub(crate) const SPACE: u8 = b' ';
/// The byte between the items of a list.
pub(crate) const COMMA: u8 = b',';

/// What follows a word at the front.
#[tactic(auto, unfolding(crate::specs::Reading::after_word))]
pub(crate) fn after_word<'a>(word: &[u8], text: &'a [u8]) -> Option<&'a [u8]>
    ensures { option_copied result ≡ after_word word.now text.now }
{
    text.strip_prefix(word)
}

/// The rest of a line that begins with a word, and what follows the line.
#[tactic(auto, unfolding(crate::specs::Reading::line_at))]
pub(crate) fn line_at<'a>(word: &[u8], text: &'a [u8]) -> Option<(&'a [u8], &'a [u8])>
    ensures { option_map lent_pair result ≡ line_at word.now text.now }
{
    let value = after_word(word, text)?;
    around(LINE_FEED, value)
}

/// The rest of a line that begins with a word, or none if the line is absent; and what follows.
#[tactic(auto, unfolding(crate::specs::Reading::field_at))]
pub(crate) fn field_at<'a>(word: &[u8], text: &'a [u8]) -> Option<(Option<&'a [u8]>, &'a [u8])>
    ensures { option_map lent_field result ≡ field_at word.now text.now }
{
    let Some(value) = after_word(word, text) else {
        return Some((None, text));
    };
    let (value, rest) = around(LINE_FEED, value)?;
    Some((Some(value), rest))
}
