//! The inline of a template that a URL names.

ghost use Rattle.std.specs.Prelude.{◌≡◌, ◌≤◌, IfOk, IfSome};
ghost use Rattle.esi_tree.specs.Shown.{element_of, elements_of, branches_of};
ghost use Rattle.esi_tree.specs.Tree.{depth};
ghost use Rattle.esi_meaning.specs.Inlines.{names, inline_for, inline_in, inline_in_branches};
ghost use Rattle.esi_meaning.specs.Evaluator.{shown_slice};

use edge_types::{NoMemory, PageUrl};
use esi_tree::{Branch, Node};
use std::alloc::Global;

/// The content of the first inline, in text order, that names a URL in a template at this base.
///
/// It walks the whole template for each leg, and resolves the name of each inline anew.
#[tactic(auto, using(crate::proofs::Depths::depth_inline_for))]
pub(crate) fn inline_for<'a>(
    alloc: Global,
    base: &PageUrl,
    url: &PageUrl,
    nodes: &'a [Node],
) -> Result<Option<&'a [Node]>, NoMemory>
    ensures found { IfOk result (λ found. shown_slice found ≡
        inline_for base.now url.now (elements_of nodes.now)) }
    ensures shallow { IfOk result (λ found. IfSome found (λ content.
        depth (elements_of content.now) ≤ depth (elements_of nodes.now))) }
{
    inline_among(alloc, base, url, nodes)
}

// The content of the first inline among these elements that names the URL.
#[cycle(inlines)]
fn inline_among<'a>(
    alloc: Global,
    base: &PageUrl,
    url: &PageUrl,
    nodes: &'a [Node],
) -> Result<Option<&'a [Node]>, NoMemory>
    ensures { IfOk result (λ found. shown_slice found ≡
        inline_for base.now url.now (elements_of nodes.now)) }
{
    for node in nodes {
        if let Some(found) = inline_in(alloc, base, url, node)? {
            return Ok(Some(found));
        }
    }
    Ok(None)
}

#[cycle(inlines)]
fn inline_in<'a>(
    alloc: Global,
    base: &PageUrl,
    url: &PageUrl,
    node: &'a Node,
) -> Result<Option<&'a [Node]>, NoMemory>
    ensures { IfOk result (λ found. shown_slice found ≡
        inline_in base.now url.now (element_of node.now)) }
{
    match node {
        Node::Text(_) | Node::VarsText(_) | Node::Include(_) | Node::Nothing => Ok(None),
        Node::Choose(branches) => inline_in_branches(alloc, base, url, branches.as_slice()),
        Node::Try {
            attempt,
            except,
            swapped,
        } => {
            let (first, second) = if *swapped {
                (except, attempt)
            } else {
                (attempt, except)
            };
            match inline_among(alloc, base, url, first.as_slice())? {
                Some(found) => Ok(Some(found)),
                None => inline_among(alloc, base, url, second.as_slice()),
            }
        }
        Node::Vars(content) => inline_among(alloc, base, url, content.as_slice()),
        Node::Inline { name, content } => {
            if names(alloc, base, url, name.as_bytes())? {
                return Ok(Some(content.as_slice()));
            }
            inline_among(alloc, base, url, content.as_slice())
        }
    }
}

#[cycle(inlines)]
fn inline_in_branches<'a>(
    alloc: Global,
    base: &PageUrl,
    url: &PageUrl,
    branches: &'a [Branch],
) -> Result<Option<&'a [Node]>, NoMemory>
    ensures { IfOk result (λ found. shown_slice found ≡
        inline_in_branches base.now url.now (branches_of branches.now)) }
{
    for branch in branches {
        if let Some(found) = inline_among(alloc, base, url, branch.content.as_slice())? {
            return Ok(Some(found));
        }
    }
    Ok(None)
}

// Whether the inline with this name names the URL.
#[tactic(auto, unfolding(crate::specs::Inlines::names))]
fn names(alloc: Global, base: &PageUrl, url: &PageUrl, name: &[u8]) -> Result<bool, NoMemory>
    ensures { IfOk result (λ b. b ≡ names base.now url.now name.now) }
{
    match base.resolve(alloc, name)? {
        Some(named) => Ok(named == *url),
        None => Ok(false),
    }
}
