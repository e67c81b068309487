//! The elements of a template.
ghost use Rattle.std.specs.Prelude.{◌≡◌};

use crate::include::Include;
use crate::parts::Parts;
use edge_types::{Octets, SharedBytes};
use esi_expr::Expr;
use std::sync::Arc;

/// One element, or a run of text.
#[cycle(tree)]
#[derive(Drop)]
pub enum Node {
    /// Text that is output as it is: a part of the template's body.
    Text(SharedBytes),
    /// Text inside a `vars`, which is output with the values of its references.
    VarsText(Parts),
    /// A resource that replaces the element.
    Include(Include),
    /// The branches, in the text's order, of which at most one is taken.
    Choose(Vec<Branch>),
    /// What is tried, and what replaces it if it fails.
    Try {
        /// What is tried.
        attempt: Vec<Node>,
        /// What replaces it if it fails.
        except: Vec<Node>,
        /// The except comes before the attempt in the text.
        swapped: bool,
    },
    /// Elements in whose text references are replaced.
    Vars(Vec<Node>),
    /// Elements that are output here and can also be included by their name.
    Inline {
        /// The name as it is written, decoded; no reference in it is replaced.
        name: Octets,
        /// The elements.
        content: Vec<Node>,
    },
    /// A comment or a remove.
    Nothing,
}

/// A `when`, or the otherwise, which has no test.
#[cycle(tree)]
#[derive(Drop)]
pub struct Branch {
    /// The test of a `when`.
    pub test: Option<Arc<Expr>>,
    /// What is processed if the branch is taken.
    pub content: Vec<Node>,
}

impl Branch {
    ghost use Rattle.esi_tree.specs.Shown.{branch_of};
    ghost use Rattle.esi_tree.specs.Reading.{is_otherwise, is_when};

    // Whether it is the otherwise.
    pub(crate) fn is_otherwise(&self) -> bool
        ensures { result ≡ is_otherwise (branch_of self.now) }
    {
        self.test.is_none()
    }

    // Whether it is a `when`.
    pub(crate) fn is_when(&self) -> bool
        ensures { result ≡ is_when (branch_of self.now) }
    {
        self.test.is_some()
    }
}
