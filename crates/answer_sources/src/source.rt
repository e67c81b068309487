//! Sources that are asked for one answer after another.

ghost use Rattle.std.specs.Prelude.{IfOk};
ghost use Rattle.std.specs.Arc.{arc_value};

use crate::answers::Answers;
use crate::given::Given;
use edge_types::{NoMemory, PageUrl};
use std::alloc::Global;

/// What gives the answer of a URL to a thread that waits for it.
pub trait Source<R>: Answers<R> {
    /// Asks for the answer of a URL, and waits for it. What can't be fetched is a failed answer;
    /// `NoMemory` if an allocation fails.
    fn fetch(&self, rt: &R, alloc: Global, url: &PageUrl) -> Result<Given, NoMemory>
        ensures { IfOk result (λ given. Self.gives self.now url.now (arc_value given.answer)) };
}
