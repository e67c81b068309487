//! Laws that tie the definitions together. Each function's clauses are its laws; none of them does anything.

ghost use Rattle.std.specs.Prelude.{◌≡◌};
ghost use Rattle.esi_expr.specs.Laws.{ReadsTests, TestsAreOne};

use crate::number::DIGIT_LIMIT;
use crate::reading::NESTING_LIMIT;

/// What is read is spelled by the text, and what is spelled is read; a text spells at most one test.
pub fn tests_are_read()
    ensures read { ReadsTests }
    ensures one { TestsAreOne }
{}

/// The limits of a test, as numbers.
///
/// Our profile.
pub fn limits_of_tests()
    ensures nesting { NESTING_LIMIT ≡ 32 }
    ensures digits { DIGIT_LIMIT ≡ 18 }
{}
