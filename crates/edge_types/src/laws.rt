//! Laws of the readers of bytes, as contracts of functions that do nothing.

ghost use Rattle.edge_types.specs.Decimal.{ReadsNumbers};
ghost use Rattle.edge_types.specs.Trimming.{TrimsTexts};

/// A text loses the spaces and tabs at its ends, and no others.
///
/// Our profile.
pub fn blanks_at_the_ends_are_trimmed()
    ensures { TrimsTexts }
{}

/// What is read from a text is the number that it writes, if it is at most the limit, and each such
/// number is read.
///
/// Our profile.
pub fn numbers_are_read()
    ensures { ReadsNumbers }
{}
