//! Laws of tokens, each the contract of a function that does nothing.

ghost use Rattle.std.specs.Prelude.{◌≡◌, ◌↔◌, ℕ, List, Ok, Err};
ghost use Rattle.esi_scanner.specs.declared.token.Token.{Token};
ghost use Rattle.esi_scanner.specs.Scan.{scan_of};
ghost use Rattle.esi_scanner.specs.Spelling.{Spells, IsFaultAt};

/// A text has at most one list of tokens.
pub fn a_text_has_one_list_of_tokens()
    ensures { (text : List ℕ) (tokens others : List Token) → Spells text tokens → Spells text others → tokens ≡ others }
{}

/// The tokens that are read from a text spell it.
pub fn what_is_read_is_what_is_spelled()
    ensures { (text : List ℕ) (tokens : List Token) → (scan_of text ≡ Ok tokens) ↔ Spells text tokens }
{}

/// The place that is reported for a text without tokens is that of its fault.
pub fn what_is_told_is_the_fault()
    ensures { (text : List ℕ) (at : ℕ) → (scan_of text ≡ Err at) ↔ IsFaultAt text at }
{}
