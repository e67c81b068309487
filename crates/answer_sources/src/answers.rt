//! Where answers come from, and which of them are there without a fetch.

ghost use Rattle.std.specs.Prelude.{◌≡◌, ℕ, Bool, List, None, IfOk, IfSome, IsTrue};
ghost use Rattle.std.specs.Arc.{arc_value};
ghost use Rattle.edge_types.specs.Answered.{Answered};

use edge_types::{Answer, NoMemory, PageUrl};
use plan_compiler::Prepared;
use std::alloc::Global;
use std::sync::Arc;

/// The answer of a URL, if there is one; `NoMemory` if an allocation failed.
pub type Found = Result<Option<Arc<Answer>>, NoMemory>;

/// What gives the answers of URLs, to any number of threads at once. An implementation takes from its
/// runtime what it needs.
///
/// `gives` says which answers it may give for a URL; at the least, they name the URL. `private` says which URLs are
/// private: their answers are for the request alone for which they were fetched.
pub trait Answers<R> {
    ghost gives: { Self → List ℕ → Answered → Type 0 };

    ghost private: { Self → List ℕ → Bool };

    /// Whether a URL is private, so that nothing of it is kept, or given to another request.
    ///
    /// Our profile.
    fn is_private(&self, url: &PageUrl) -> bool
        ensures { result ≡ private self.now url.now };

    /// The answer of a URL, if it is there without waiting; by default none is, as none of a private URL is. Whoever gets it
    /// doesn't fetch, so a page's gate isn't called.
    fn ready(&self, _rt: &R, _alloc: Global, _url: &PageUrl) -> Found
        ensures given { IfOk result (λ found. IfSome found (λ answer. gives self.now _url.now (arc_value answer))) }
        ensures apart { IsTrue (private self.now _url.now) → IfOk result (λ found. found ≡ None) }
    {
        Ok(None)
    }

    /// The answer that would bridge a failing origin for a URL, if it is there without waiting; by default none
    /// is, as none of a private URL is. Nothing is fetched for it.
    fn bridging(&self, _rt: &R, _alloc: Global, _url: &PageUrl) -> Found
        ensures given { IfOk result (λ found. IfSome found (λ answer. gives self.now _url.now (arc_value answer))) }
        ensures apart { IsTrue (private self.now _url.now) → IfOk result (λ found. found ≡ None) }
    {
        Ok(None)
    }

    /// An answer, made ready. By default it is read and compiled here; a source that keeps answers may keep what it made of
    /// them, too.
    ///
    /// `NoMemory` if an allocation fails; the answer is dropped then.
    fn prepared(&self, _rt: &R, alloc: Global, answer: Arc<Answer>) -> Result<Prepared, NoMemory>
        ensures { IfOk result (λ prepared. prepared ≡ arc_value answer) }
    {
        Prepared::of(alloc, answer)
    }

    ghost names_url: { (source : Self) (url : List ℕ) (answer : Answered) → gives source url answer → answer.url ≡ url };
}
