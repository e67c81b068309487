//! Laws that tie the definitions together. Each function's clauses are its laws; none of them does anything.

ghost use Rattle.std.specs.Prelude.{◌≡◌};
ghost use Rattle.edge_types.specs.Trimming.{TrimsTexts};
ghost use Rattle.esi_vars.specs.Laws.{ReadsReferences, PartsSpell, PartsAreOne, SubstitutesText, PiecesAreValues, CutsFields, CutsOnce, LooksUp, FindsTheFirst, FindsNone};

use crate::lookups::{LONG_FIELD, MAX_LOOKUPS};
use crate::pieces::LONG_VALUE;

/// A reference is read at the front of a text, with what follows it, exactly if one is spelled there.
pub fn references_are_read()
    ensures { ReadsReferences }
{}

/// The parts of a text spell it, and no other parts do: text in whole pieces, in which no reference begins.
pub fn parts_spell_the_text()
    ensures spell { PartsSpell }
    ensures one { PartsAreOne }
{}

/// The parts of a text, substituted, are the text with each reference replaced by its value; so are the pieces that a page
/// gets of them, joined.
pub fn substitution_replaces_references()
    ensures text { SubstitutesText }
    ensures pieces { PiecesAreValues }
{}

/// A field is cut into the parts between its separators, a text loses the spaces and tabs at its ends and no others,
/// and a part is cut at its first separator alone.
pub fn fields_are_cut()
    ensures parts { CutsFields }
    ensures trimmed { TrimsTexts }
    ensures halves { CutsOnce }
{}

/// The value of a cookie or of a query's name is that of the first part with the name; nothing if no part has it.
pub fn first_part_of_a_name_counts()
    ensures { LooksUp }
{}

/// What is found after a word of the user agent's field follows the first place at which the word begins; nothing is
/// found exactly if the word doesn't occur.
pub fn words_are_found_first()
    ensures found { FindsTheFirst }
    ensures none { FindsNone }
{}

/// From how many bytes on a value is a piece of a page by itself, from how many on what is looked up in a field is
/// remembered, and how many values are, as numbers.
pub fn limits_of_values()
    ensures piece { LONG_VALUE ≡ 256 }
    ensures field { LONG_FIELD ≡ 1024 }
    ensures known { MAX_LOOKUPS ≡ 32 }
{}
