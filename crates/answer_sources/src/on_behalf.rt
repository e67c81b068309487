//! Sources that are asked on behalf of requests.

ghost use Rattle.std.specs.Prelude.{◌≡◌, ◌&&◌, ◌==◌, ℕ, List, length, IfOk, IfSome};
ghost use Rattle.edge_types.specs.Answered.{Answered};

use crate::answers::Answers;
use edge_types::{HeadFields, NoMemory};
use std::alloc::Global;

/// What a source may tell of a request to those whom it asks.
#[derive(Clone, Copy)]
pub struct Behalf<'a> {
    /// The edges that the request has passed, a list as in `CDN-Loop`, so that a circle of several edges ends.
    pub passed: &'a [u8],
    /// Fields of its head that are its reader's own: they are told for private URLs alone.
    pub own: &'a HeadFields,
}

impl Behalf<'_> {
    /// Whether there is nothing to tell.
    pub fn is_empty(&self) -> bool
        ensures { result ≡ (length self.now.passed.now == 0 && length self.now.own.now == 0) }
    {
        self.passed.is_empty() && self.own.as_slice().is_empty()
    }
}

/// A source that may tell those whom it asks something of the request.
pub trait OnBehalf<R>: Answers<R> {
    /// What is asked instead of this source for a request of which this is to be told; by
    /// default nothing is, so that this source is asked for all. It shares what this one keeps, and gives nothing that
    /// this one couldn't give; the same URLs are private.
    ///
    /// `NoMemory` if an allocation fails.
    ///
    /// Source: RFC 8586, "The CDN-Loop Request Header Field"; our profile.
    fn on_behalf(&self, _alloc: Global, _behalf: Behalf<'_>) -> Result<Option<Self>, NoMemory>
    where
        Self: Sized,
        ensures given { IfOk result (λ made. IfSome made (λ source.
            (url : List ℕ) (answer : Answered) → Self.gives source url answer → Self.gives self.now url answer)) }
        ensures apart { IfOk result (λ made. IfSome made (λ source.
            (url : List ℕ) → Self.private source url ≡ Self.private self.now url)) }
    {
        Ok(None)
    }
}
