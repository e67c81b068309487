//! The steps of a plan.

use crate::leg::Leg;
use edge_types::SharedBytes;
use esi_expr::Expr;
use esi_tree::Parts;
use std::sync::Arc;

/// One step. Each jump goes forward, and `skip` says how many steps it passes, from the next one on.
#[derive(Drop)]
pub enum Step {
    /// Text that is output as it is: a part of the template's body.
    Text(SharedBytes),
    /// Text that is output with the values of its references.
    Values(Parts),
    /// A jump if the test doesn't hold.
    Test {
        /// The test.
        test: Arc<Expr>,
        /// How many steps the jump passes.
        skip: usize,
    },
    /// A jump.
    Jump {
        /// How many steps it passes.
        skip: usize,
    },
    /// From here to its `EndTry` a failure goes on at its handler.
    Try {
        /// How many steps there are between this one and its handler.
        skip: usize,
    },
    /// Drops the innermost handler, and jumps.
    EndTry {
        /// How many steps the jump passes.
        skip: usize,
    },
    /// A `src` or an `alt` that is tried.
    Leg(Leg),
}
