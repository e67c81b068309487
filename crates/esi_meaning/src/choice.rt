//! The branch of a choose that is taken.

ghost use Rattle.std.specs.Prelude.{◌≡◌, ◌≤◌};
ghost use Rattle.esi_tree.specs.Shown.{elements_of, branches_of};
ghost use Rattle.esi_tree.specs.Tree.{End, depth, branches_depth};
ghost use Rattle.esi_meaning.specs.Meaning.{chosen_content};

use edge_types::Request;
use esi_tree::{Branch, Node};

/// The content of the first `when` whose test holds, else of the otherwise, else nothing.
#[tactic(auto, using(crate::proofs::Depths::depth_chosen_content))]
pub(crate) fn chosen<'a>(request: &Request, branches: &'a [Branch]) -> &'a [Node]
    ensures content { elements_of result.now ≡ chosen_content request.now End (branches_of branches.now) }
    ensures shallow { depth (elements_of result.now) ≤ branches_depth (branches_of branches.now) }
{
    chosen_among(request, branches)
}

// The content that is taken among these branches, tried in turn.
fn chosen_among<'a>(request: &Request, branches: &'a [Branch]) -> &'a [Node]
    ensures { elements_of result.now ≡ chosen_content request.now End (branches_of branches.now) }
{
    let mut otherwise: &'a [Node] = &[];
    for branch in branches {
        match &branch.test {
            Some(test) => {
                if test.holds(request) {
                    return branch.content.as_slice();
                }
            }
            None => otherwise = branch.content.as_slice(),
        }
    }
    otherwise
}
