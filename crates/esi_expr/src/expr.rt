//! Tests, as they are read. Clauses see a test by `test_of`, without where it lies in memory.

ghost use Rattle.std.specs.Prelude.{◌≡◌, map};
ghost use Rattle.esi_expr.specs.Shown.{test_of, conj_of, neg_of, any_of, all_of};

use edge_types::Octets;
use esi_vars::Reference;

/// How two texts are compared.
#[derive(Clone, Copy)]
pub enum Comparison {
    /// `==`
    EqualTo,
    /// `!=`
    Unequal,
    /// `<=`
    AtMost,
    /// `>=`
    AtLeast,
    /// `<`
    Below,
    /// `>`
    Above,
}

/// An operand of a test, which has a text.
#[derive(Drop)]
pub enum Operand {
    /// A reference, which denotes its value.
    Reference(Reference),
    /// The bytes between two quotes.
    Quoted(Octets),
    /// A number, by its spelling.
    Number(Octets),
}

/// A test: conjunctions with bars between them.
#[cycle(expression)]
#[derive(Drop)]
pub struct Expr {
    /// The first conjunction.
    pub first: Conjunction,
    /// Those after it, in the text's order.
    pub more: Vec<Conjunction>,
}

impl Expr {
    /// The test of these. Takes no memory.
    pub(crate) fn of(first: Conjunction, more: Vec<Conjunction>) -> Expr
        ensures { test_of result ≡ any_of (conj_of first) (map conj_of more.items) }
    {
        Expr { first, more }
    }
}

/// Negations with `&` between them.
#[cycle(expression)]
#[derive(Drop)]
pub struct Conjunction {
    /// The first negation.
    pub first: Negation,
    /// Those after it, in the text's order.
    pub more: Vec<Negation>,
}

impl Conjunction {
    /// The conjunction of these. Takes no memory.
    pub(crate) fn of(first: Negation, more: Vec<Negation>) -> Conjunction
        ensures { conj_of result ≡ all_of (neg_of first) (map neg_of more.items) }
    {
        Conjunction { first, more }
    }
}

/// A part of a test that neither `&` nor the bar divides.
#[cycle(expression)]
#[derive(Drop)]
pub enum Negation {
    /// `!`
    Not(Box<Negation>),
    /// A test in parentheses.
    Group(Box<Expr>),
    /// An operand alone.
    Filled(Operand),
    /// Two operands, compared.
    Compared(Operand, Comparison, Operand),
}
