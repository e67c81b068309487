//! The evaluator: it walks a template's tree as the meaning does.

ghost use Rattle.std.specs.Prelude.{◌≤◌, IfOk};
ghost use Rattle.std.specs.Arc.{arc_value};
ghost use Rattle.esi_tree.specs.Shown.{element_of, elements_of, branches_of};
ghost use Rattle.esi_tree.specs.Tree.{depth, element_depth, branches_depth};
ghost use Rattle.esi_meaning.specs.Ending.{Ends};
ghost use Rattle.esi_meaning.specs.Evaluator.{FitsDepth};
ghost use Rattle.esi_meaning.specs.Evaluator.{leg_at, elements_at, element_at, choice_at, try_at, include_at, alternative_at};
ghost use Rattle.esi_meaning.specs.Evaluator.{named_at, fetched_at, reply_at, body_at};
ghost use Rattle.esi_meaning.specs.Run.{AsksNobody, tries};

use crate::choice::chosen;
use crate::draft::{
    Draft, Ending, count_leg, no_leg, on_error, push_text, push_values, unprocessed,
};
use crate::inlines::inline_for;
use crate::leg::leg_url;
use crate::limits::MAX_LEGS;
use edge_types::{Answer, NoMemory, PageUrl, Request, SharedBytes, Table};
use esi_tree::{Branch, Include, Node, Template, TreeFault, template};
use esi_vars::{Lookups, Part};
use std::alloc::Global;
use std::sync::Arc;

/// What a page is processed with: what stays the same throughout.
#[derive(Clone, Copy)]
pub(crate) struct Setting<'a> {
    pub(crate) alloc: Global,
    pub(crate) request: &'a Request,
    pub(crate) table: &'a Table,
}

/// The place of a template: how many levels are left under it, and its URL.
#[derive(Clone, Copy)]
pub(crate) struct Standing<'a> {
    pub(crate) level: u8,
    pub(crate) url: &'a PageUrl,
    pub(crate) template: &'a Template,
}

/// The elements one after another; nothing after the first that fails is tried.
#[cycle(evaluator)]
#[tactic(auto, using(crate::proofs::Depths::depth_at))]
pub(crate) fn elements(
    setting: &Setting<'_>,
    standing: Standing<'_>,
    nodes: &[Node],
    draft: &mut Draft,
) -> Result<Ending, NoMemory>
    requires few { draft.old.legs ≤ MAX_LEGS }
    requires shallow { FitsDepth (depth (elements_of nodes.now)) }
    ensures { IfOk result
        (Ends (elements_at setting.now standing.entry (elements_of nodes.now)) draft.old draft.new) }
{
    let mark = draft.body.mark();
    for node in nodes {
        match element(setting, standing, node, draft)? {
            Ending::Complete => {}
            Ending::Failed => {
                draft.body.cut(mark);
                return Ok(Ending::Failed);
            }
            Ending::TooManyLegs => return Ok(Ending::TooManyLegs),
        }
    }
    Ok(Ending::Complete)
}

#[cycle(evaluator)]
fn element(
    setting: &Setting<'_>,
    standing: Standing<'_>,
    node: &Node,
    draft: &mut Draft,
) -> Result<Ending, NoMemory>
    requires few { draft.old.legs ≤ MAX_LEGS }
    requires shallow { FitsDepth (element_depth (element_of node.now)) }
    ensures { IfOk result
        (Ends (element_at setting.now standing.entry (element_of node.now)) draft.old draft.new) }
{
    match node {
        Node::Text(text) => push_text(text, draft),
        Node::VarsText(parts) => push_values(
            setting.alloc,
            setting.request,
            parts.as_slice(),
            draft,
        ),
        Node::Include(asked) => include(setting, standing, asked, draft),
        Node::Choose(branches) => choose(setting, standing, branches.as_slice(), draft),
        Node::Try {
            attempt,
            except,
            ..
        } => one_of(
            setting,
            standing,
            attempt.as_slice(),
            except.as_slice(),
            draft,
        ),
        Node::Vars(content) | Node::Inline { content, .. } => {
            elements(setting, standing, content.as_slice(), draft)
        }
        Node::Nothing => Ok(Ending::Complete),
    }
}

// A choose: its branch that is taken.
#[cycle(evaluator)]
#[tactic(auto, using(crate::proofs::Legs::chosen_run_content))]
fn choose(
    setting: &Setting<'_>,
    standing: Standing<'_>,
    branches: &[Branch],
    draft: &mut Draft,
) -> Result<Ending, NoMemory>
    requires few { draft.old.legs ≤ MAX_LEGS }
    requires shallow { FitsDepth (branches_depth (branches_of branches.now)) }
    ensures { IfOk result
        (Ends (choice_at setting.now standing.entry (branches_of branches.now)) draft.old draft.new) }
{
    let content = chosen(setting.request, branches);
    elements(setting, standing, content, draft)
}

// A try: the attempt, else the except.
#[cycle(evaluator)]
fn one_of(
    setting: &Setting<'_>,
    standing: Standing<'_>,
    attempt: &[Node],
    except: &[Node],
    draft: &mut Draft,
) -> Result<Ending, NoMemory>
    requires few { draft.old.legs ≤ MAX_LEGS }
    requires shallow_attempt { FitsDepth (depth (elements_of attempt.now)) }
    requires shallow_except { FitsDepth (depth (elements_of except.now)) }
    ensures { IfOk result
        (Ends (try_at setting.now standing.entry (elements_of attempt.now) (elements_of except.now)) draft.old draft.new) }
{
    match elements(setting, standing, attempt, draft)? {
        Ending::Failed => elements(setting, standing, except, draft),
        ended => Ok(ended),
    }
}

// An include: its src, else what replaces it.
#[cycle(evaluator)]
fn include(
    setting: &Setting<'_>,
    standing: Standing<'_>,
    include: &Include,
    draft: &mut Draft,
) -> Result<Ending, NoMemory>
    requires few { draft.old.legs ≤ MAX_LEGS }
    ensures { IfOk result
        (Ends (include_at setting.now standing.entry include.now) draft.old draft.new) }
{
    match leg(setting, standing, include.src.as_slice(), draft)? {
        Ending::Failed => alternative(setting, standing, include, draft),
        ended => Ok(ended),
    }
}

// What replaces an include whose src can't be fetched: its alt, else what `onerror` asks for.
#[cycle(evaluator)]
fn alternative(
    setting: &Setting<'_>,
    standing: Standing<'_>,
    include: &Include,
    draft: &mut Draft,
) -> Result<Ending, NoMemory>
    requires few { draft.old.legs ≤ MAX_LEGS }
    ensures { IfOk result
        (Ends (alternative_at setting.now standing.entry include.now) draft.old draft.new) }
{
    let Some(alt) = &include.alt else {
        return Ok(on_error(include.on_error));
    };
    match leg(setting, standing, alt.as_slice(), draft)? {
        Ending::Failed => Ok(on_error(include.on_error)),
        ended => Ok(ended),
    }
}

#[cycle(evaluator)]
#[tactic(auto, using(crate::proofs::Legs::leg_above))]
fn leg(
    setting: &Setting<'_>,
    standing: Standing<'_>,
    text: &[Part],
    draft: &mut Draft,
) -> Result<Ending, NoMemory>
    requires few { draft.old.legs ≤ MAX_LEGS }
    ensures { IfOk result
        (Ends (leg_at setting.now standing.entry text.now) draft.old draft.new) }
{
    if standing.level == 0 {
        return Ok(no_leg(draft));
    }
    let found = leg_url(
        setting.alloc,
        setting.request,
        standing.url,
        text,
        &mut Lookups::none(),
    )?;
    let Some(url) = found else {
        return Ok(no_leg(draft));
    };
    let below = Standing {
        level: standing.level - 1,
        ..standing
    };
    named(setting, below, &url, draft)
}

// A leg of this URL: an inline of its template, or else what the origin answers.
#[cycle(evaluator)]
fn named(
    setting: &Setting<'_>,
    standing: Standing<'_>,
    url: &PageUrl,
    draft: &mut Draft,
) -> Result<Ending, NoMemory>
    requires few { draft.old.legs ≤ MAX_LEGS }
    ensures { IfOk result
        (Ends (named_at setting.now standing.entry url.now) draft.old draft.new) }
{
    match inline_for(setting.alloc, standing.url, url, standing.template.nodes())? {
        Some(content) => inlined(setting, standing, content, draft),
        None => fetched(setting, standing.level, url, draft),
    }
}

// A leg that an inline of its template answers: nothing is fetched.
#[cycle(evaluator)]
fn inlined(
    setting: &Setting<'_>,
    standing: Standing<'_>,
    content: &[Node],
    draft: &mut Draft,
) -> Result<Ending, NoMemory>
    requires few { draft.old.legs ≤ MAX_LEGS }
    requires shallow { FitsDepth (depth (elements_of content.now)) }
    ensures { IfOk result
        (Ends (tries AsksNobody (elements_at setting.now standing.entry (elements_of content.now))) draft.old draft.new) }
{
    if !count_leg(&mut draft.legs) {
        return Ok(Ending::TooManyLegs);
    }
    elements(setting, standing, content, draft)
}

// A leg of this URL that its origin answers.
#[cycle(evaluator)]
fn fetched(
    setting: &Setting<'_>,
    level: u8,
    url: &PageUrl,
    draft: &mut Draft,
) -> Result<Ending, NoMemory>
    requires few { draft.old.legs ≤ MAX_LEGS }
    ensures { IfOk result
        (Ends (fetched_at setting.now level url.now) draft.old draft.new) }
{
    if !count_leg(&mut draft.legs) {
        return Ok(Ending::TooManyLegs);
    }
    match setting.table.get(url) {
        Some(answer) => answered(setting, level, url, answer, draft),
        None => Ok(Ending::Failed),
    }
}

// What an origin's answer results in.
#[cycle(evaluator)]
fn answered(
    setting: &Setting<'_>,
    level: u8,
    url: &PageUrl,
    answer: &Arc<Answer>,
    draft: &mut Draft,
) -> Result<Ending, NoMemory>
    requires few { draft.old.legs ≤ MAX_LEGS }
    ensures { IfOk result
        (Ends (reply_at setting.now level url.now (arc_value answer.now).reply) draft.old draft.new) }
{
    if answer.processed_as_fragment() {
        processed(setting, level, url, &answer.share_body()?, draft)
    } else {
        unprocessed(answer, draft)
    }
}

#[cycle(evaluator)]
fn processed(
    setting: &Setting<'_>,
    level: u8,
    url: &PageUrl,
    body: &SharedBytes,
    draft: &mut Draft,
) -> Result<Ending, NoMemory>
    requires few { draft.old.legs ≤ MAX_LEGS }
    ensures { IfOk result
        (Ends (body_at setting.now level url.now body.now) draft.old draft.new) }
{
    let template = match template(setting.alloc, body) {
        Ok(template) => template,
        Err(TreeFault::Bad(_)) => return Ok(Ending::Failed),
        Err(TreeFault::NoMemory) => return Err(NoMemory),
    };
    let there = Standing {
        level,
        url,
        template: &template,
    };
    elements(setting, there, template.nodes(), draft)
}
