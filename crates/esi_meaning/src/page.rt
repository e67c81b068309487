//! The outcome of a page.

ghost use Rattle.std.specs.Prelude.{◌≡◌, IfOk};
ghost use Rattle.std.specs.Arc.{arc_value};
ghost use Rattle.edge_types.specs.Answered.{body_of};
ghost use Rattle.edge_types.specs.Outcome.{shown};
ghost use Rattle.edge_types.specs.Pieces.{joined};
ghost use Rattle.esi_meaning.specs.Meaning.{outcome, AreLevels};
ghost use Rattle.esi_meaning.specs.Evaluator.{answered_page, processed_page};

use crate::draft::{Draft, Ending, push_whole};
use crate::evaluator::{Setting, Standing, elements};
use edge_types::{
    Answer, Head, NoMemory, Outcome, PageBody, PageFault, PageUrl, Reply, Request, SharedBytes,
    Table,
};
use esi_tree::{TreeFault, template};
use std::alloc::Global;
use std::sync::Arc;

/// The outcome of the page at this URL, given a table of what the origins answer.
///
/// A fragment's body is read as a template anew each time that a leg reaches it, and the inlines of
/// a template are searched anew for each of its legs. `are_levels` tests the number of levels.
/// `NoMemory` if an allocation failed, which leaves nothing behind.
///
/// Source: ESI Language Specification 1.0, "ESI Language" and "Variables"; inlines by name, the
/// order of the faults and the limits of legs and levels are our profile.
#[tactic(auto, unfolding(crate::specs::Meaning::outcome))]
pub fn plain_page(
    alloc: Global,
    url: &PageUrl,
    request: &Request,
    table: &Table,
    levels: u8,
) -> Result<Outcome, NoMemory>
    requires { AreLevels levels }
    ensures { IfOk result (λ o. shown o ≡ outcome request.now table.now levels url.now) }
{
    let setting = Setting {
        alloc,
        request,
        table,
    };
    match table.get(url) {
        Some(answer) => answered_page(&setting, url, levels, answer),
        None => Ok(Outcome::Fault(PageFault::PageFetch)),
    }
}

// The outcome of a page with this answer.
fn answered_page(
    setting: &Setting<'_>,
    url: &PageUrl,
    levels: u8,
    answer: &Arc<Answer>,
) -> Result<Outcome, NoMemory>
    ensures { IfOk result (λ o. shown o ≡
        answered_page setting.now levels url.now (arc_value answer.now).reply) }
{
    let Reply::Got { head, body, .. } = answer.reply() else {
        return Ok(Outcome::Fault(PageFault::PageFetch));
    };
    if answer.processed() {
        return processed_page(setting, url, levels, head, body);
    }
    Ok(Outcome::Page {
        head: head.copy(setting.alloc)?,
        body: whole(setting.alloc, answer)?,
    })
}

// The body of an answer as it stands.
fn whole(alloc: Global, answer: &Arc<Answer>) -> Result<PageBody, NoMemory>
    ensures { IfOk result (λ pieces. joined pieces ≡ body_of (arc_value answer.now).reply) }
{
    let mut pieces = PageBody::new(alloc);
    push_whole(answer, &mut pieces)?;
    Ok(pieces)
}

// The outcome of a page whose body is to be processed.
#[tactic(auto, unfolding(crate::specs::Meaning::most_legs))]
fn processed_page(
    setting: &Setting<'_>,
    url: &PageUrl,
    levels: u8,
    head: &Head,
    body: &SharedBytes,
) -> Result<Outcome, NoMemory>
    ensures { IfOk result (λ o. shown o ≡
        processed_page setting.now levels url.now head.now body.now) }
{
    let template = match template(setting.alloc, body) {
        Ok(template) => template,
        Err(TreeFault::Bad(at)) => return Ok(Outcome::Fault(PageFault::BadTemplate(at))),
        Err(TreeFault::NoMemory) => return Err(NoMemory),
    };
    let standing = Standing {
        level: levels,
        url,
        template: &template,
    };
    let mut draft = Draft {
        legs: 0,
        body: PageBody::new(setting.alloc),
    };
    match elements(setting, standing, template.nodes(), &mut draft)? {
        Ending::Complete => Ok(Outcome::Page {
            head: head.copy(setting.alloc)?,
            body: draft.body,
        }),
        Ending::Failed => Ok(Outcome::Fault(PageFault::IncludeFailed)),
        Ending::TooManyLegs => Ok(Outcome::Fault(PageFault::TooManyLegs)),
    }
}
