//! What an element passes, at its end, to the one around it.

use crate::node::{Branch, Node};

// An element of a run, a branch of a choose, or a part of a try.
#[derive(Drop)]
pub(crate) enum Child {
    Element(Node),
    Branch(Branch),
    Attempt(Vec<Node>),
    Except(Vec<Node>),
}
