//! An element whose end hasn't come yet: what its tag says, and what has been read inside.
ghost use Rattle.std.specs.Prelude.{◌≡◌, ◌∷◌, [], ◌++◌, map, OnOk, option_map};
ghost use Rattle.std.specs.List.{list_any};
ghost use Rattle.esi_tree.specs.Tree as tree;
ghost use Rattle.esi_tree.specs.Shown.{element_of, elements_of, branch_of, branch_row};
ghost use Rattle.esi_tree.specs.State.{frame_of, shown_child};
ghost use Rattle.esi_tree.specs.Reading.{AnElement, with_element, with_branch, with_attempt, with_except, with_half, grown, holds_run, is_vars, is_when, is_otherwise, stands_in_run, stands_in_choose, stands_in, name_of, choose_of, child_of};

use crate::child::Child;
use crate::halves::Halves;
use crate::include::Include;
use crate::node::{Branch, Node};
use edge_types::{NoMemory, Octets};
use esi_expr::Expr;
use esi_scanner::ElementName;
use std::sync::Arc;

#[derive(Drop)]
pub(crate) enum OpenElement {
    Include(Include),
    Comment,
    Inline { name: Octets, content: Vec<Node> },
    Vars(Vec<Node>),
    Choose(Vec<Branch>),
    When { test: Arc<Expr>, content: Vec<Node> },
    Otherwise(Vec<Node>),
    Try(Halves),
    Attempt(Vec<Node>),
    Except(Vec<Node>),
}

// Adds one more node at the end of a run.
pub(crate) fn push_node(run: &mut Vec<Node>, node: Node) -> Result<(), NoMemory>
    ensures { OnOk result (map element_of run.new.items ≡ map element_of run.old.items ++ element_of node ∷ []) }
{
    run.push(node)?;
    Ok(())
}

/// Whether an element of this name may stand where any element may.
pub fn stands_in_run(name: ElementName) -> bool
    ensures { result ≡ stands_in_run name }
{
    matches!(
        name,
        ElementName::Include
            | ElementName::Inline
            | ElementName::Choose
            | ElementName::Try
            | ElementName::Comment
            | ElementName::Vars
    )
}

fn has_otherwise(branches: &[Branch]) -> bool
    ensures { result ≡ list_any (λ branch. is_otherwise (branch_of branch)) branches.now }
{
    branches.iter().any(|branch| branch.is_otherwise())
}

fn has_when(branches: &[Branch]) -> bool
    ensures { result ≡ list_any (λ branch. is_when (branch_of branch)) branches.now }
{
    branches.iter().any(|branch| branch.is_when())
}

// Whether an element with this name may be in a choose with these branches.
#[tactic(auto, using(crate::proofs::AnyLemmas::any_map))]
fn stands_in_choose(name: ElementName, branches: &[Branch]) -> bool
    ensures { result ≡ stands_in_choose name (map branch_of branches.now) }
{
    match name {
        ElementName::When => true,
        ElementName::Otherwise => !has_otherwise(branches),
        _ => false,
    }
}

fn choose(branches: Vec<Branch>) -> Child
    ensures { shown_child result ≡ AnElement (tree.Choose (branch_row (map branch_of branches.items))) }
{
    Child::Element(Node::Choose(branches))
}

// The choose, if one of its branches is a `when`.
#[tactic(auto, using(crate::proofs::AnyLemmas::any_map))]
fn choose_of(branches: Vec<Branch>) -> Option<Child>
    ensures { option_map shown_child result ≡ choose_of (map branch_of branches.items) }
{
    if has_when(branches.as_slice()) {
        Some(choose(branches))
    } else {
        None
    }
}

impl OpenElement {
    // The name in its tag.
    pub(crate) fn name(&self) -> ElementName
        ensures { result ≡ name_of (frame_of self.now) }
    {
        match self {
            OpenElement::Include(_) => ElementName::Include,
            OpenElement::Comment => ElementName::Comment,
            OpenElement::Inline { .. } => ElementName::Inline,
            OpenElement::Vars(_) => ElementName::Vars,
            OpenElement::Choose(_) => ElementName::Choose,
            OpenElement::When { .. } => ElementName::When,
            OpenElement::Otherwise(_) => ElementName::Otherwise,
            OpenElement::Try(_) => ElementName::Try,
            OpenElement::Attempt(_) => ElementName::Attempt,
            OpenElement::Except(_) => ElementName::Except,
        }
    }

    // Whether any element may be in it.
    pub(crate) fn holds_run(&self) -> bool
        ensures { result ≡ holds_run (frame_of self.now) }
    {
        !matches!(
            self,
            OpenElement::Include(_)
                | OpenElement::Comment
                | OpenElement::Choose(_)
                | OpenElement::Try(_)
        )
    }

    // Whether references are replaced in the text inside.
    pub(crate) fn is_vars(&self) -> bool
        ensures { result ≡ is_vars (frame_of self.now) }
    {
        matches!(self, OpenElement::Vars(_))
    }

    // Whether an element with this name may come in it next.
    pub(crate) fn admits(&self, name: ElementName) -> bool
        ensures { result ≡ stands_in name (frame_of self.now) }
    {
        match self {
            OpenElement::Include(_) | OpenElement::Comment => false,
            OpenElement::Choose(branches) => stands_in_choose(name, branches.as_slice()),
            OpenElement::Try(halves) => halves.admits(name),
            _ => stands_in_run(name),
        }
    }

    fn add_node(&mut self, node: Node) -> Result<(), NoMemory>
        ensures { OnOk result (frame_of self.new ≡ with_element (element_of node) (frame_of self.old)) }
    {
        match self {
            OpenElement::Inline { content, .. } => push_node(content, node),
            OpenElement::Vars(content) => push_node(content, node),
            OpenElement::When { content, .. } => push_node(content, node),
            OpenElement::Otherwise(content) => push_node(content, node),
            OpenElement::Attempt(content) => push_node(content, node),
            OpenElement::Except(content) => push_node(content, node),
            // Never happens: these contain no nodes.
            OpenElement::Include(_)
            | OpenElement::Comment
            | OpenElement::Choose(_)
            | OpenElement::Try(_) => Ok(()),
        }
    }

    fn add_branch(&mut self, branch: Branch) -> Result<(), NoMemory>
        ensures { OnOk result (frame_of self.new ≡ with_branch (branch_of branch) (frame_of self.old)) }
    {
        // Always the case: a branch is opened only in its choose.
        if let OpenElement::Choose(branches) = self {
            branches.push(branch)?;
        }
        Ok(())
    }

    fn add_attempt(&mut self, content: Vec<Node>)
        ensures { frame_of self.new ≡ with_half (with_attempt (elements_of content.items)) (frame_of self.old) }
    {
        // Always the case: an attempt is opened only in its try.
        if let OpenElement::Try(halves) = self {
            halves.add_attempt(content);
        }
    }

    fn add_except(&mut self, content: Vec<Node>)
        ensures { frame_of self.new ≡ with_half (with_except (elements_of content.items)) (frame_of self.old) }
    {
        // Always the case: an except is opened only in its try.
        if let OpenElement::Try(halves) = self {
            halves.add_except(content);
        }
    }

    // Adds what an element inside it passed on.
    pub(crate) fn add(&mut self, child: Child) -> Result<(), NoMemory>
        ensures { OnOk result (frame_of self.new ≡ grown (shown_child child) (frame_of self.old)) }
    {
        match child {
            Child::Element(node) => self.add_node(node)?,
            Child::Branch(branch) => self.add_branch(branch)?,
            Child::Attempt(content) => self.add_attempt(content),
            Child::Except(content) => self.add_except(content),
        }
        Ok(())
    }

    // What it passes on at its end, if it may end.
    #[tactic(auto, unfolding(crate::specs::Reading::child_of))]
    pub(crate) fn into_child(self) -> Option<Child>
        ensures { option_map shown_child result ≡ child_of (frame_of self) }
    {
        match self {
            OpenElement::Include(include) => Some(Child::Element(Node::Include(include))),
            OpenElement::Comment => Some(Child::Element(Node::Nothing)),
            OpenElement::Inline { name, content } => {
                Some(Child::Element(Node::Inline { name, content }))
            }
            OpenElement::Vars(content) => Some(Child::Element(Node::Vars(content))),
            OpenElement::Choose(branches) => choose_of(branches),
            OpenElement::When { test, content } => Some(Child::Branch(Branch {
                test: Some(test),
                content,
            })),
            OpenElement::Otherwise(content) => Some(Child::Branch(Branch {
                test: None,
                content,
            })),
            OpenElement::Try(halves) => halves.into_child(),
            OpenElement::Attempt(content) => Some(Child::Attempt(content)),
            OpenElement::Except(content) => Some(Child::Except(content)),
        }
    }
}
