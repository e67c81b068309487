//! The tree of a template.
ghost use Rattle.std.specs.Prelude.{◌≡◌, ◌+◌, ◌≤◌};
ghost use Rattle.esi_tree.specs.Tree.{depth};
ghost use Rattle.esi_tree.specs.Shown.{elements_of};
ghost use Rattle.esi_tree.specs.Reading.{HasText};
ghost use Rattle.esi_tree.specs.declared.open_elements.TheConstants.{OPEN_LIMIT};

use crate::node::Node;
use crate::open_elements::OPEN_LIMIT;

/// The elements of a template.
#[derive(Drop)]
pub struct Template {
    nodes: Vec<Node>,
    // As many elements as may be open, and a run of text in the innermost.
    pub ghost shallow: { depth (elements_of nodes.items) ≤ OPEN_LIMIT + 1 },
    // No template other than that of a text.
    pub ghost written: { HasText (elements_of nodes.items) },
}

impl Template {
    ghost use Rattle.esi_tree.specs.Answer.{tree_in};

    /// The template of these elements. Takes no memory.
    pub(crate) fn of(nodes: Vec<Node>) -> Template
        requires shallow { depth (elements_of nodes.items) ≤ OPEN_LIMIT + 1 }
        requires written { HasText (elements_of nodes.items) }
        ensures { tree_in result ≡ elements_of nodes.items }
    {
        Template { nodes }
    }

    /// Lends the elements. Takes no memory.
    pub fn nodes(&self) -> &[Node]
        ensures tree { elements_of result.now ≡ tree_in self.now }
        ensures shallow { depth (elements_of result.now) ≤ OPEN_LIMIT + 1 }
    {
        self.nodes.as_slice()
    }
}
