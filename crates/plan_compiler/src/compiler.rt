//! From the tree of a template to its steps, the last step first.
ghost use Rattle.std.specs.Prelude.{◌≡◌, ◌-◌, ◌≤◌, List, [], ◌++◌, length, map, IfOk, OnOk};
ghost use Rattle.edge_types.specs.declared.request.Request.{Request};
ghost use Rattle.esi_vars.specs.declared.part.Part.{Part};
ghost use Rattle.esi_tree.specs.Answer.{tree_in};
ghost use Rattle.esi_tree.specs.Shown.{element_of, elements_of, branch_of, branches_of};
ghost use Rattle.esi_tree.specs.Tree as tree;
ghost use Rattle.esi_tree.specs.Tree.{End, depth, branches_depth};
ghost use Rattle.esi_meaning.specs.Ahead.{ahead_sources};
ghost use Rattle.esi_meaning.specs.Inlines.{inlines};
ghost use Rattle.esi_meaning.specs.Laws.{otherwise_or};
ghost use Rattle.esi_meaning.specs.Meaning.{elements_run};
ghost use Rattle.esi_meaning.specs.Run.{Run};
ghost use Rattle.plan_compiler.specs.Ahead.{plan_sources};
ghost use Rattle.plan_compiler.specs.Machine.{frame_run};
ghost use Rattle.plan_compiler.specs.Bodies.{entries, body_in, body_of, places_in, places_of, places_among, branch_places, kept_behind};
ghost use Rattle.plan_compiler.specs.Code.{else_code, last_code, branch_code, include_code, code_in, code_of, chosen_code};
ghost use Rattle.plan_compiler.specs.Shown.{later_of, later_places, steps_in, inlines_in};

use crate::later_inlines::{LaterInlines, Place};
use crate::later_steps::LaterSteps;
use crate::plan::Plan;
use crate::step::Step;
use edge_types::{NoMemory, PageUrl};
use esi_tree::{Branch, Include, Node, OnError, Parts, Template};
use std::alloc::Global;
use std::sync::Arc;

/// The plan of a template at this URL.
///
/// `NoMemory` if an allocation fails; no plan is made then.
///
/// Our profile.
pub fn compile(alloc: Global, base: &PageUrl, template: &Template) -> Result<Plan, NoMemory>
    ensures steps { IfOk result (λ plan. steps_in plan ≡ code_of (tree_in template.now)) }
    ensures means { IfOk result (λ plan. (r : Request) (leg : List Part → Run) → frame_run r leg (steps_in plan) ≡ elements_run r leg (tree_in template.now)) }
    ensures ahead { IfOk result (λ plan. (r : Request) → plan_sources r (steps_in plan) ≡ ahead_sources r (tree_in template.now)) }
    ensures entries { IfOk result (λ plan. inlines_in plan ≡ entries (tree_in template.now)) }
    ensures inlines { IfOk result (λ plan. map (body_in (steps_in plan)) (inlines_in plan) ≡ map body_of (inlines (tree_in template.now))) }
{
    let mut later = LaterSteps::new(alloc, base.share()?);
    let mut inlines = LaterInlines::new(alloc);
    put_elements(alloc, template.nodes(), &mut later, &mut inlines)?;
    let inlines = inlines.into_inlines(alloc, later.len())?;
    Ok(Plan {
        steps: later.into_steps(),
        inlines,
    })
}

// Puts the steps of these elements, and the places of their inlines.
#[cycle(compiler)]
#[tactic(auto, using(crate::proofs::CodeLemmas::code_before, crate::proofs::CodeLemmas::places_before, esi_meaning::proofs::Depths::depth_at))]
fn put_elements(
    alloc: Global,
    nodes: &[Node],
    later: &mut LaterSteps,
    inlines: &mut LaterInlines,
) -> Result<(), NoMemory>
    ensures steps { OnOk result (later_of later.new ≡ code_of (elements_of nodes.now) ++ later_of later.old) }
    ensures inlines { OnOk result (later_places inlines.new ≡ places_of (elements_of nodes.now) (later_of later.old) ++ later_places inlines.old) }
{
    let mut at = nodes.len();
    while at > 0 {
        at -= 1;
        put_element(alloc, &nodes[at], later, inlines)?;
    }
    Ok(())
}

#[cycle(compiler)]
fn put_element(
    alloc: Global,
    node: &Node,
    later: &mut LaterSteps,
    inlines: &mut LaterInlines,
) -> Result<(), NoMemory>
    ensures steps { OnOk result (later_of later.new ≡ code_in (element_of node.now) ++ later_of later.old) }
    ensures inlines { OnOk result (later_places inlines.new ≡ places_in (element_of node.now) (later_of later.old) ++ later_places inlines.old) }
{
    match node {
        Node::Text(text) => later.put(Step::Text(text.share()?)),
        Node::VarsText(parts) => later.put(Step::Values(parts.share()?)),
        Node::Include(include) => put_include(include, later),
        Node::Choose(branches) => put_choose(alloc, branches.as_slice(), later, inlines),
        Node::Try {
            attempt,
            except,
            swapped,
        } => put_try(
            alloc,
            attempt.as_slice(),
            except.as_slice(),
            *swapped,
            later,
            inlines,
        ),
        Node::Vars(content) => put_elements(alloc, content.as_slice(), later, inlines),
        Node::Inline { name, content } => {
            let behind = later.len();
            put_elements(alloc, content.as_slice(), later, inlines)?;
            inlines.put(Place {
                name: name.copy(alloc)?,
                from: later.len(),
                behind,
            })
        }
        Node::Nothing => Ok(()),
    }
}

// The last leg of an include, which does this where the leg fails.
fn put_last_leg(source: &Parts, on_error: OnError, later: &mut LaterSteps) -> Result<(), NoMemory>
    ensures { OnOk result (later_of later.new ≡ last_code source.now on_error ++ later_of later.old) }
{
    match on_error {
        OnError::Fails => later.put_leg(source),
        OnError::Continues => {
            later.put(Step::EndTry { skip: 0 })?;
            later.put_leg(source)?;
            later.put(Step::Try { skip: 2 })
        }
    }
}

fn put_include(include: &Include, later: &mut LaterSteps) -> Result<(), NoMemory>
    ensures { OnOk result (later_of later.new ≡ include_code include.now ++ later_of later.old) }
{
    let Some(alt) = &include.alt else {
        return put_last_leg(&include.src, include.on_error, later);
    };
    let behind = later.len();
    put_last_leg(alt, include.on_error, later)?;
    let alternate = later.len() - behind;
    later.put(Step::EndTry { skip: alternate })?;
    later.put_leg(&include.src)?;
    later.put(Step::Try { skip: 2 })
}

// A try: the attempt, then the except, which is its handler.
#[cycle(compiler)]
fn put_try(
    alloc: Global,
    attempt: &[Node],
    except: &[Node],
    swapped: bool,
    later: &mut LaterSteps,
    inlines: &mut LaterInlines,
) -> Result<(), NoMemory>
    ensures steps { OnOk result (later_of later.new ≡ else_code (code_of (elements_of attempt.now)) (code_of (elements_of except.now)) ++ later_of later.old) }
    ensures inlines { OnOk result (later_places inlines.new ≡ places_in (tree.Try (elements_of attempt.now) (elements_of except.now) swapped) (later_of later.old) ++ later_places inlines.old) }
{
    let behind = later.len();
    let mut kept = LaterInlines::new(alloc);
    put_elements(alloc, except, later, &mut kept)?;
    if !swapped {
        inlines.put_all(&mut kept)?;
    }
    let handling = later.len() - behind;
    later.put(Step::EndTry { skip: handling })?;
    let handler = later.len();
    put_elements(alloc, attempt, later, inlines)?;
    later.put(Step::Try {
        skip: later.len() - handler + 1,
    })?;
    inlines.put_all(&mut kept)
}

// A choose: each `when` in turn, and after them the otherwise.
#[cycle(compiler)]
#[tactic(auto, using(crate::proofs::CodeLemmas::depth_branch, crate::proofs::CodeLemmas::branch_before, crate::proofs::CodeLemmas::choose_whens, crate::proofs::CodeLemmas::branch_places_before, crate::proofs::CodeLemmas::kept_before, crate::proofs::CodeLemmas::choose_places))]
fn put_choose(
    alloc: Global,
    branches: &[Branch],
    later: &mut LaterSteps,
    inlines: &mut LaterInlines,
) -> Result<(), NoMemory>
    ensures steps { OnOk result (later_of later.new ≡ chosen_code [] (branches_of branches.now) ++ later_of later.old) }
    ensures inlines { OnOk result (later_places inlines.new ≡ places_among (branches_of branches.now) [] (later_of later.old) ++ later_places inlines.old) }
{
    let behind = later.len();
    let mut kept = LaterInlines::new(alloc);
    put_elements(alloc, otherwise(branches), later, &mut kept)?;
    let mut at = branches.len();
    while at > 0 {
        at -= 1;
        put_branch(alloc, &branches[at], behind, later, inlines, &mut kept)?;
    }
    Ok(())
}

// A branch of a choose with this many steps after it: a `when`. The otherwise is put already,
// and the places of its inlines are kept.
#[cycle(compiler)]
fn put_branch(
    alloc: Global,
    branch: &Branch,
    behind: usize,
    later: &mut LaterSteps,
    inlines: &mut LaterInlines,
    kept: &mut LaterInlines,
) -> Result<(), NoMemory>
    requires { behind ≤ length (later_of later.old) }
    ensures steps { OnOk result (later_of later.new ≡ branch_code (branch_of branch.now).test (code_of (branch_of branch.now).content) (length (later_of later.old) - behind) (later_of later.old)) }
    ensures inlines { OnOk result (later_places inlines.new ≡ branch_places (branch_of branch.now).test (branch_of branch.now).content (length (later_of later.old) - behind) (later_of later.old) (later_places kept.old) ++ later_places inlines.old) }
    ensures kept { OnOk result (later_places kept.new ≡ kept_behind (branch_of branch.now).test (later_places kept.old)) }
{
    let Some(test) = &branch.test else {
        return inlines.put_all(kept);
    };
    let others = later.len() - behind;
    later.put(Step::Jump { skip: others })?;
    let next = later.len();
    put_elements(alloc, branch.content.as_slice(), later, inlines)?;
    later.put(Step::Test {
        test: Arc::try_clone(test)?,
        skip: later.len() - next + 1,
    })
}

// The content of the otherwise.
#[tactic(auto, using(crate::proofs::CodeLemmas::depth_otherwise))]
fn otherwise<'a>(branches: &'a [Branch]) -> &'a [Node]
    ensures content { elements_of result.now ≡ otherwise_or End (branches_of branches.now) }
    ensures shallow { depth (elements_of result.now) ≤ branches_depth (branches_of branches.now) }
{
    otherwise_among(branches)
}

// The content of the otherwise among these branches.
fn otherwise_among<'a>(branches: &'a [Branch]) -> &'a [Node]
    ensures { elements_of result.now ≡ otherwise_or End (branches_of branches.now) }
{
    let mut otherwise: &'a [Node] = &[];
    for branch in branches {
        if branch.test.is_none() {
            otherwise = branch.content.as_slice();
        }
    }
    otherwise
}
