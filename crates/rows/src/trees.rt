//! Templates: the trees of texts.

use crate::language::push_parts;
use crate::row::{Line, number};
use edge_types::SharedBytes;
use esi_tree::{Branch, Include, Node, OnError, TreeFault};
use std::alloc::Global;

/// The nodes of a template, a bar after each: text as it is and, inside a `vars`, after a `~`; an include as `{src}`,
/// `{src,alt}` or, if the page goes on without it, `{src,alt}?`; the others by their names, with what they contain in
/// brackets; a swapped try as `swapped`; a comment or a remove as `-`.
pub fn template(alloc: Global, row: &[u8], line: &mut Line) -> Option<()> {
    let text = SharedBytes::copy_of(alloc, row).ok()?;
    match &esi_tree::template(alloc, &text) {
        Ok(template) => push_nodes(line, template.nodes()),
        Err(fault) => line.display(fault),
    }
    Some(())
}

/// A row is the place of a fault, or `memory` if that ran out.
pub fn tree_fault(row: &[u8], line: &mut Line) -> Option<()> {
    line.display(&match row {
        b"memory" => TreeFault::NoMemory,
        _ => TreeFault::Bad(number(row)?),
    });
    Some(())
}

#[cycle(nodes)]
fn push_nodes(line: &mut Line, nodes: &[Node]) {
    for node in nodes {
        push_node(line, node);
        line.push("|");
    }
}

#[cycle(nodes)]
fn push_held(line: &mut Line, name: &[u8], nodes: &[Node]) {
    line.show(name);
    line.push("[");
    push_nodes(line, nodes);
    line.push("]");
}

#[cycle(nodes)]
fn push_node(line: &mut Line, node: &Node) {
    match node {
        Node::Text(bytes) => line.show(bytes.as_bytes()),
        Node::VarsText(parts) => {
            line.push("~");
            push_parts(line, parts.as_slice());
        }
        Node::Include(include) => push_include(line, include),
        Node::Choose(branches) => push_branches(line, branches.as_slice()),
        Node::Try {
            attempt,
            except,
            swapped,
        } => {
            let name = if *swapped { "swapped" } else { "try" };
            push_held(line, name.as_bytes(), attempt.as_slice());
            push_held(line, b"", except.as_slice());
        }
        Node::Vars(content) => push_held(line, b"vars", content.as_slice()),
        Node::Inline { name, content } => {
            line.push("inline ");
            push_held(line, name.as_bytes(), content.as_slice());
        }
        Node::Nothing => line.push("-"),
    }
}

#[cycle(nodes)]
fn push_branches(line: &mut Line, branches: &[Branch]) {
    line.push("choose[");
    for branch in branches {
        let name = if branch.test.is_some() {
            "when"
        } else {
            "otherwise"
        };
        push_held(line, name.as_bytes(), branch.content.as_slice());
    }
    line.push("]");
}

fn push_include(line: &mut Line, include: &Include) {
    line.push("{");
    push_parts(line, include.src.as_slice());
    if let Some(alt) = &include.alt {
        line.push(",");
        push_parts(line, alt.as_slice());
    }
    line.push(match include.on_error {
        OnError::Fails => "}",
        OnError::Continues => "}?",
    });
}
