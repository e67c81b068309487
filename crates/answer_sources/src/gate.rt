//! What a worker passes before each fetch of a page.

use edge_types::PageUrl;

/// What a worker passes before it fetches.
pub trait Gate<R> {
    /// Called before each fetch of a page, by the thread that is going to fetch, with no lock held. An answer
    /// that the source has ready isn't fetched, and passes no gate.
    fn before_fetch(&self, rt: &R, url: &PageUrl);
}

/// A gate that lets everyone pass at once.
#[derive(Clone, Copy)]
pub struct OpenGate;

impl<R> Gate<R> for OpenGate {
    fn before_fetch(&self, _rt: &R, _url: &PageUrl) {}
}
