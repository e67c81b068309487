//! What holds of templates and of how they are read, whatever the text: each function has a law as its
//! clause, and does nothing.
ghost use Rattle.std.specs.Prelude.{◌≡◌};
ghost use Rattle.esi_tree.specs.Laws.{ReadsTemplates, OneTree, TellsThePlace, ReadsTexts, TellsThePlaceOfTexts, TextsAreOne};

use crate::open_elements::OPEN_LIMIT;

/// What is read from a text's tokens is their template, and what is their template is read.
pub fn templates_are_read()
    ensures { ReadsTemplates }
{}

/// No list of tokens is the template of two different trees.
pub fn one_tree()
    ensures { OneTree }
{}

/// If tokens aren't a template, the place that is reported is that of the first token that can't continue a
/// template, else that of the text's end.
pub fn place_is_the_first()
    ensures { TellsThePlace }
{}

/// What is read from a text is the template of its tokens, and what is their template is read.
pub fn texts_are_read()
    ensures { ReadsTexts }
{}

/// If a text isn't a template, the place that is reported is that at which it has no tokens, else
/// that of its first token that can't continue a template, else that of its end.
pub fn place_in_the_text()
    ensures { TellsThePlaceOfTexts }
{}

/// No text is the template of two different trees.
pub fn one_tree_of_a_text()
    ensures { TextsAreOne }
{}

/// The limit of open elements, as a number.
///
/// Our profile.
pub fn limit_of_open_elements()
    ensures { OPEN_LIMIT ≡ 32 }
{}
