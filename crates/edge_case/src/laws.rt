//! Laws that tie the definitions together. Each function's clauses are its laws; none of them does
//! anything. Our profile.
ghost use Rattle.std.specs.Prelude.{◌≡◌};
ghost use Rattle.edge_case.specs.Laws.{ReadsCases, CasesAreOne, ReadsOrders, OrdersAreOne};

use crate::case_text::MAX_CASE;

/// What is read from a text is the case that it spells, and each case that is spelled is read; a text
/// spells at most one case.
pub fn case_texts_are_read()
    ensures read { ReadsCases }
    ensures one { CasesAreOne }
{}

/// The limit of a case text, as a number.
pub fn limit_of_case_texts()
    ensures { MAX_CASE ≡ 67108864 }
{}

/// What is read from a text is the list of events that it writes, and each list that is written is read;
/// a text lists at most one order of events.
pub fn orders_are_read()
    ensures read { ReadsOrders }
    ensures one { OrdersAreOne }
{}
