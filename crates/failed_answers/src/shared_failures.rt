//! What several sources know together of URLs that failed. Clauses see whether URLs rest at all.

ghost use Rattle.std.specs.Prelude.{◌≡◌, false, nat_lt, IfOk, IfSome, None, Ok};
ghost use Rattle.std.specs.Arc.{arc_value};

use crate::failed_answers::FailedAnswers;
use answer_sources::{Clock, Found};
use edge_types::{Answer, NoMemory, PageUrl};
use std::alloc::Global;
use std::marker::Model;
use std::sync::{Arc, Mutex, Wait};

/// What sources remember of URLs that failed. Each call locks, makes one call and unlocks; where no URL rests there is
/// nothing to lock.
#[derive(Drop)]
pub struct SharedFailures {
    failed: Option<Arc<Mutex<FailedAnswers>>>,
}

impl Model for SharedFailures {
    ghost use Rattle.std.specs.Prelude.{Bool, is_some};

    ghost Value = { Bool };

    ghost view = { λ failures. is_some failures.failed };
}

impl SharedFailures {
    /// No URL has failed yet, and each that does rests for this many seconds; 0 means that none rests.
    ///
    /// Our profile.
    pub fn new(alloc: Global, rest: u32) -> Result<SharedFailures, NoMemory>
        ensures { IfOk result (λ failures. failures ≡ nat_lt 0 rest) }
    {
        if rest == 0 {
            return Ok(SharedFailures { failed: None });
        }
        let failed = Mutex::new(FailedAnswers::new(alloc, rest)?);
        Ok(SharedFailures {
            failed: Some(Arc::new(alloc, failed)?),
        })
    }

    /// One more handle to the same.
    pub fn share(&self) -> Result<SharedFailures, NoMemory>
        ensures { IfOk result (λ failures. failures ≡ self.now) }
    {
        match &self.failed {
            Some(failed) => Ok(SharedFailures {
                failed: Some(Arc::try_clone(failed)?),
            }),
            None => Ok(SharedFailures { failed: None }),
        }
    }

    /// The answer with which a URL failed, if it rests now.
    pub(crate) fn failing<R: Wait>(&self, rt: &R, clock: &impl Clock<R>, url: &PageUrl) -> Found
        ensures named { IfOk result (λ found. IfSome found (λ answer. (arc_value answer).url ≡ url.now)) }
        ensures none { self.now ≡ false → result ≡ Ok None }
    {
        match &self.failed {
            Some(failed) => failed.lock(rt).failing(url, clock.now(rt)),
            None => Ok(None),
        }
    }

    /// Notes an answer that has just come. Without memory for it, its URL doesn't rest.
    pub(crate) fn note<R: Wait>(&self, rt: &R, clock: &impl Clock<R>, answer: &Arc<Answer>) {
        if let Some(failed) = &self.failed {
            let _ = failed.lock(rt).note(answer, clock.now(rt));
        }
    }
}
