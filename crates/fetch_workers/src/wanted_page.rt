//! Which page is assembled.

ghost use Rattle.std.specs.Prelude.{◌≡◌, IsTrue};

use edge_types::{PageUrl, Request};
use plan_runner::Page;

/// The page that was asked for.
#[derive(Drop)]
pub(crate) struct WantedPage {
    pub(crate) url: PageUrl,
    pub(crate) request: Request,
    pub(crate) levels: u8,
}

impl WantedPage {
    /// Whether a page is this one.
    pub(crate) fn is(&self, page: &Page) -> bool
        ensures { IsTrue result → (page.now.url ≡ self.now.url) × (page.now.request ≡ self.now.request) × (page.now.levels ≡ self.now.levels) }
    {
        page.url() == &self.url && page.request() == &self.request && page.levels() == self.levels
    }
}
