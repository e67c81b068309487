//! The inlines of a plan by the URLs that their names denote.
ghost use Rattle.std.specs.Prelude.{◌≡◌, ◌∷◌, ◌++◌, [], ℕ, List, Some, None, slice_get, IfOk, OnOk, if◌then◌else◌};
ghost use Rattle.std.specs.Option.{option_copied};
ghost use Rattle.esi_meaning.specs.Inlines.{is_url};
ghost use Rattle.plan_compiler.specs.Urls.{AreUrls, number_of, url_in};

use crate::inline::Inline;
use edge_types::{NoMemory, PageUrl};
use std::alloc::Global;
use std::collections::BTreeMap;

#[derive(Drop)]
pub(crate) struct InlineUrls {
    // The URL of each inline; `None` if its name doesn't denote one.
    urls: Vec<Option<PageUrl>>,
    // The number of the first inline of each URL.
    firsts: BTreeMap<PageUrl, usize>,
}

impl InlineUrls {
    // Each name is resolved once, against the URL of the template.
    pub(crate) fn of(
        alloc: Global,
        base: &PageUrl,
        inlines: &[Inline],
    ) -> Result<InlineUrls, NoMemory>
        ensures { IfOk result (λ urls. AreUrls base.now inlines.now urls) }
    {
        let mut found = InlineUrls {
            urls: Vec::new(alloc),
            firsts: BTreeMap::new(alloc),
        };
        // From the last on, so an earlier one replaces a later one of its URL.
        let mut at = inlines.len();
        while at > 0 {
            at -= 1;
            let url = base.resolve(alloc, inlines[at].name.as_bytes())?;
            found.put(at, url)?;
        }
        found.urls.reverse();
        Ok(found)
    }

    // Puts the inline with this number before the others.
    fn put(&mut self, number: usize, url: Option<PageUrl>) -> Result<(), NoMemory>
        ensures urls { OnOk result (self.new.urls.items ≡ self.old.urls.items ++ url ∷ []) }
        ensures numbers { OnOk result ((w : List ℕ) → number_of self.new w ≡ (if is_url w url then Some number else number_of self.old w)) }
    {
        self.put_number(number, &url)?;
        self.urls.push(url)?;
        Ok(())
    }

    // Gives the URL, if there is one, this number.
    fn put_number(&mut self, number: usize, url: &Option<PageUrl>) -> Result<(), NoMemory>
        ensures urls { OnOk result (self.new.urls.items ≡ self.old.urls.items) }
        ensures numbers { OnOk result ((w : List ℕ) → number_of self.new w ≡ (if is_url w url.now then Some number else number_of self.old w)) }
    {
        let Some(url) = url else {
            return Ok(());
        };
        self.firsts.insert(url.share()?, number)?;
        Ok(())
    }

    // The URL of the inline with this number.
    pub(crate) fn url(&self, number: usize) -> Option<&PageUrl>
        ensures { option_copied result ≡ url_in (slice_get self.now.urls.items number) }
    {
        self.urls.get(number)?.as_ref()
    }

    // The number of the first inline with this URL.
    pub(crate) fn first(&self, url: &PageUrl) -> Option<usize>
        ensures { result ≡ number_of self.now url.now }
    {
        self.firsts.get(url).copied()
    }
}
