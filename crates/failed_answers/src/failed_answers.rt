//! What is remembered of URLs that failed. Clauses see the failing answers, that of the latest failure first, each
//! until the second at which its URL is asked again; how many there may be; and the seconds of a rest.

use crate::entries::Entries;
use edge_types::{Answer, NoMemory, PageUrl, Reply, SharedAnswer};
use std::alloc::Global;
use std::marker::Model;
use std::sync::Arc;

/// The answers of URLs that failed, each for as many seconds as a rest has. Seconds are those of the caller's clock, which
/// never goes back.
///
/// ```text
///              an answer that fails
///     asked ---------------------------> rests <---+
///       ^                                 |  |     | another one, of a fetch that was under way
///       |  the rest is over, any other    |  +-----+
///       +---------------------------------+
///          answer, or 1,024 failed later
/// ```
///
/// Our profile.
#[derive(Drop)]
pub struct FailedAnswers {
    entries: Entries,
    rest: u64,
}

impl Model for FailedAnswers {
    ghost use Rattle.failed_answers.specs.Rest.{Failures};

    ghost Value = { Failures };

    ghost view = { λ f. record { entries = f.entries.entries; capacity = f.entries.capacity; rest = f.rest } };
}

impl FailedAnswers {
    ghost use Rattle.std.specs.Prelude.{◌≡◌, None, Some, IfOk, IfSome, OnOk, OnErr, IsOk, IsFalse, IsSome, MatchOption};
    ghost use Rattle.std.specs.Arc.{arc_value};
    ghost use Rattle.fragment_cache.specs.Times.{second_after};
    ghost use Rattle.failed_answers.specs.Rest.{failing, forgotten, noted, nothing_failed, put_first, rests_after, shelf_of, with_entries};

    /// No URL has failed yet, and each that does rests for this many seconds.
    pub fn new(alloc: Global, rest: u32) -> Result<FailedAnswers, NoMemory>
        ensures { IfOk result (λ failed. failed ≡ nothing_failed rest) }
    {
        Ok(FailedAnswers {
            entries: Entries::new(alloc)?,
            rest: u64::from(rest),
        })
    }

    /// The answer with which a URL failed, if it rests at this second.
    ///
    /// `NoMemory` if a second owner of the answer can't be made.
    pub fn failing(&self, url: &PageUrl, now: u64) -> Result<Option<Arc<Answer>>, NoMemory>
        ensures ok { IfOk result (λ found. MatchOption found
            (failing self.now url.now now ≡ None)
            (λ answer. failing self.now url.now now ≡ Some (arc_value answer))) }
        ensures err { OnErr result (IsSome (failing self.now url.now now)) }
        ensures named { IfOk result (λ found. IfSome found (λ answer. (arc_value answer).url ≡ url.now)) }
    {
        self.entries.sound();
        self.entries.before_end(url, now)
    }

    /// Notes an answer that came at this second: its URL rests from now on if the answer is failed or has a status from
    /// 500 to 599 that isn't 508, and doesn't rest after any other.
    ///
    /// `NoMemory` if there is no room to remember that the URL failed: it doesn't rest then, either.
    pub fn note(&mut self, answer: &Arc<Answer>, now: u64) -> Result<(), NoMemory>
        ensures ok { OnOk result (self.new ≡ noted self.old (arc_value answer.now) now) }
        ensures err { OnErr result (self.new ≡ forgotten self.old (arc_value answer.now).url) }
        ensures ended { IsFalse (rests_after (arc_value answer.now).reply) → IsOk result }
    {
        if !rests_after(answer) {
            self.entries.remove(answer.url());
            return Ok(());
        }
        let noted = self.remember(answer, now);
        if noted.is_err() {
            self.entries.remove(answer.url());
        }
        noted
    }

    // Has a URL rest. Nothing changes without room for it.
    fn remember(&mut self, answer: &Arc<Answer>, now: u64) -> Result<(), NoMemory>
        ensures ok { OnOk result (self.new ≡ with_entries self.old (put_first (arc_value answer.now) (second_after now self.old.rest) (shelf_of self.old))) }
        ensures err { OnErr result (self.new ≡ self.old) }
    {
        let answer = SharedAnswer::of(Arc::try_clone(answer)?);
        self.entries.put(&answer, now.saturating_add(self.rest))
    }
}

ghost use Rattle.std.specs.Prelude.{◌≡◌};
ghost use Rattle.failed_answers.specs.Rest.{rests_after};

// Whether a URL with this answer rests.
fn rests_after(answer: &Answer) -> bool
    ensures { result ≡ rests_after answer.now.reply }
{
    match answer.reply() {
        Reply::Failed => true,
        Reply::Got { head, .. } => 500 <= head.status && head.status <= 599 && head.status != 508,
    }
}
