//! Cases, and the texts that spell them.
ghost use Rattle.std.specs.Prelude.{◌≡◌, ◌≤◌, length, IfOk, IfSome, IfNone};
ghost use Rattle.edge_case.specs.Case.{IsCaseText};
ghost use Rattle.edge_case.specs.Reading.{case_of};

use crate::answers::answers_at;
use crate::heading::heading_at;
use edge_types::{NoMemory, PageUrl, Request, Table};
use std::alloc::Global;

/// The longest case text, in bytes.
pub const MAX_CASE: usize = 67_108_864;

/// A page's URL, a reader's request and the answers of origins.
#[derive(Drop)]
pub struct Case {
    /// The page's URL.
    pub url: PageUrl,
    /// The request.
    pub request: Request,
    /// The answers.
    pub table: Table,
}

// The case that a text spells.
#[tactic(auto, unfolding(crate::specs::Reading::case_of, crate::specs::Reading::lines_case))]
fn case_of(alloc: Global, text: &[u8]) -> Result<Option<Case>, NoMemory>
    ensures { IfOk result (λ found. found ≡ case_of text.now) }
{
    if text.len() > MAX_CASE {
        return Ok(None);
    }
    let Some((heading, rest)) = heading_at(text) else {
        return Ok(None);
    };
    let Some(url) = PageUrl::parse(alloc, heading.page)? else {
        return Ok(None);
    };
    let Some(table) = answers_at(alloc, rest)? else {
        return Ok(None);
    };
    Ok(Some(Case {
        url,
        request: heading.request(alloc)?,
        table,
    }))
}

impl Case {
    /// The case that a text spells; `None` if the text isn't a case text.
    ///
    /// Our profile.
    pub fn read(alloc: Global, text: &[u8]) -> Result<Option<Case>, NoMemory>
        ensures found { IfOk result (λ found. IfSome found (λ case. IsCaseText text.now case)) }
        ensures none { IfOk result (λ found. IfNone found ((case : Case) → IsCaseText text.now case → ⊥)) }
        ensures reading { IfOk result (λ found. found ≡ case_of text.now) }
    {
        case_of(alloc, text)
    }
}
