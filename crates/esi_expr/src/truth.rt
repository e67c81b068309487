//! The truth of tests.

ghost use Rattle.std.specs.Prelude.{◌≡◌};
ghost use Rattle.esi_expr.specs.Shown.{test_of, conj_of, neg_of};
ghost use Rattle.esi_expr.specs.Truth.{text_of, holds, conj_holds, neg_holds};

use crate::comparison::compares;
use crate::expr::{Conjunction, Expr, Negation, Operand};
use edge_types::Request;
use esi_vars::{Lookups, value_by};

impl Operand {
    // The text that it denotes.
    fn text<'a>(&'a self, request: &'a Request, lookups: &mut Lookups) -> &'a [u8]
        ensures { result.now ≡ text_of request.now self.now }
    {
        match self {
            Operand::Reference(reference) => value_by(request, reference, lookups),
            Operand::Quoted(bytes) => bytes.as_bytes(),
            Operand::Number(spelling) => spelling.as_bytes(),
        }
    }
}

impl Expr {
    /// Whether the test holds for a request. Takes no memory.
    ///
    /// Source: ESI Language Specification 1.0, "Expressions" and "Operators"; that a comparison with an empty text is
    /// false is our profile.
    pub fn holds(&self, request: &Request) -> bool
        ensures { result ≡ holds request.now (test_of self.now) }
    {
        self.holds_by(request, &mut Lookups::none())
    }

    /// Whether the test holds for a request, as `holds` says. What these lookups know isn't searched for again, and what
    /// they don't know they may remember.
    ///
    /// Source: ESI Language Specification 1.0, "Expressions" and "Operators"; what is remembered is our profile.
    #[cycle(truth)]
    #[tactic(auto, using(crate::proofs::TruthLemmas::expr_holds))]
    pub fn holds_by(&self, request: &Request, lookups: &mut Lookups) -> bool
        ensures { result ≡ holds request.now (test_of self.now) }
    {
        if self.first.holds_by(request, lookups) {
            return true;
        }
        for one in &self.more {
            if one.holds_by(request, lookups) {
                return true;
            }
        }
        false
    }
}

impl Conjunction {
    #[cycle(truth)]
    #[tactic(auto, using(crate::proofs::TruthLemmas::conjunction_holds))]
    fn holds_by(&self, request: &Request, lookups: &mut Lookups) -> bool
        ensures { result ≡ conj_holds request.now (conj_of self.now) }
    {
        if !self.first.holds_by(request, lookups) {
            return false;
        }
        for one in &self.more {
            if !one.holds_by(request, lookups) {
                return false;
            }
        }
        true
    }
}

impl Negation {
    #[cycle(truth)]
    #[tactic(auto, unfolding(crate::specs::Truth::neg_holds))]
    fn holds_by(&self, request: &Request, lookups: &mut Lookups) -> bool
        ensures { result ≡ neg_holds request.now (neg_of self.now) }
    {
        match self {
            Negation::Not(inner) => !inner.holds_by(request, lookups),
            Negation::Group(inner) => inner.holds_by(request, lookups),
            Negation::Filled(only) => !only.text(request, lookups).is_empty(),
            Negation::Compared(left, by, right) => {
                let left = left.text(request, lookups);
                compares(left, *by, right.text(request, lookups))
            }
        }
    }
}
