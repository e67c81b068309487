//! Answers as a source gives them.

ghost use Rattle.std.specs.Prelude.{◌≡◌};
ghost use Rattle.std.specs.Arc.{arc_value};
ghost use Rattle.answer_sources.specs.Ways.{counted, no_way, way_told};
ghost use Rattle.answer_sources.specs.declared.given.Way.TheVariants as way;

use edge_types::{Answer, Reply};
use std::sync::Arc;

/// The way by which an answer came.
///
/// Our profile.
#[derive(Clone, Copy, Debug, Drop, PartialEq, Eq)]
pub enum Way {
    /// It was stored.
    Stored,
    /// By a fetch that somebody else made.
    Joined,
    /// It was stored, and is given in place of an answer that failed, or would have come too late.
    Bridged,
    /// By a fetch for whoever asked.
    Fetched,
    /// It didn't come: it is a failed answer, whether or not it was fetched.
    Failed,
}

/// An answer that a source gives, and the way by which it came.
#[derive(Drop)]
pub struct Given {
    /// The answer.
    pub answer: Arc<Answer>,
    /// The way.
    pub way: Way,
}

/// How many answers came by each way. None counts beyond `u64::MAX`.
///
/// Our profile.
#[derive(Clone, Copy, Debug, Drop, PartialEq, Eq)]
pub struct WayCounts {
    /// By `Way::Stored`.
    pub stored: u64,
    /// By `Way::Joined`.
    pub joined: u64,
    /// By `Way::Bridged`.
    pub bridged: u64,
    /// By `Way::Fetched`.
    pub fetched: u64,
    /// By `Way::Failed`.
    pub failed: u64,
}

impl Given {
    /// An answer that came by this way, unless it is a failed one.
    pub fn new(answer: Arc<Answer>, way: Way) -> Given
        ensures answer { result.answer ≡ answer }
        ensures way { result.way ≡ way_told (arc_value answer).reply way }
    {
        let way = match answer.reply() {
            Reply::Failed => Way::Failed,
            Reply::Got { .. } => way,
        };
        Given { answer, way }
    }

    /// The same of an answer that was fetched for whoever asked.
    pub fn fetched(answer: Arc<Answer>) -> Given
        ensures answer { result.answer ≡ answer }
        ensures way { result.way ≡ way_told (arc_value answer).reply way.Fetched }
    {
        Given::new(answer, Way::Fetched)
    }

    /// The answer alone.
    pub fn into_answer(self) -> Arc<Answer>
        ensures { result ≡ self.answer }
    {
        let Given { answer, way: _ } = self;
        answer
    }
}

impl WayCounts {
    /// No answer came.
    pub fn new() -> WayCounts
        ensures { result ≡ no_way }
    {
        WayCounts {
            stored: 0,
            joined: 0,
            bridged: 0,
            fetched: 0,
            failed: 0,
        }
    }

    /// The same and one more answer.
    pub fn with(mut self, way: Way) -> WayCounts
        ensures { result ≡ counted way self }
    {
        match way {
            Way::Stored => self.stored = self.stored.saturating_add(1),
            Way::Joined => self.joined = self.joined.saturating_add(1),
            Way::Bridged => self.bridged = self.bridged.saturating_add(1),
            Way::Fetched => self.fetched = self.fetched.saturating_add(1),
            Way::Failed => self.failed = self.failed.saturating_add(1),
        }
        self
    }
}
