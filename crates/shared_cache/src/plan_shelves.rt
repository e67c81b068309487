//! What a cache made of the answers that it stores. Each call locks, makes one call and unlocks; nothing is read or
//! compiled under a lock.

ghost use Rattle.std.specs.Prelude.{◌≡◌, ◌≤◌, ◌<◌, [], bytes_eq, IfOk, IfSome, IsTrue, OnOk, OnErr};
ghost use Rattle.std.specs.Arc.{arc_value};
ghost use Rattle.std.specs.Map.{lookup};
ghost use Rattle.std.specs.NonZero.{non_zero_usize_get};
ghost use Rattle.lru.specs.LruCache.{lru_cache, promoted, put_entries};

use crate::cache::SHARDS;
use crate::shards::ShardPlace;
use answer_sources::same_answer;
use edge_types::{Answer, NoMemory, PageUrl};
use fragment_cache::{UrlHashing, is_to_be_stored};
use lru::LruCache;
use plan_compiler::{Form, Plan, Prepared, Step};
use std::alloc::Global;
use std::array;
use std::num::NonZeroUsize;
use std::sync::{Arc, Mutex, Wait};

// The most steps and parts of texts that a plan on a shelf can have: about as much memory as the longest body.
//
// Our profile.
const MAX_PLAN_PARTS: usize = 2048;

// What was made of the answers of a shard, that of the latest use first.
#[derive(Drop)]
struct PlanShelf {
    plans: LruCache<PageUrl, Prepared, UrlHashing>,
}

impl PlanShelf {
    // Empty, with no room reserved in the map.
    fn new(
        alloc: Global,
        capacity: NonZeroUsize,
        hashing: UrlHashing,
    ) -> Result<PlanShelf, NoMemory>
        ensures { IfOk result (λ shelf. shelf.plans ≡ lru_cache [] (non_zero_usize_get capacity)) }
    {
        let mut plans = LruCache::unbounded_with_hasher(alloc, hashing)?;
        plans.resize(capacity);
        Ok(PlanShelf { plans })
    }

    // A second owner of what stands there for a URL, which becomes the newest.
    fn find(&mut self, url: &PageUrl) -> Result<Option<Prepared>, NoMemory>
        ensures found { IfOk result (λ found. found ≡ lookup (bytes_eq url.now) self.old.plans.entries) }
        ensures shelf { self.new.plans ≡ lru_cache (promoted (bytes_eq url.now) self.old.plans.entries) self.old.plans.cap }
    {
        match self.plans.get(url) {
            Some(prepared) => Ok(Some(prepared.share()?)),
            None => Ok(None),
        }
    }

    // Puts what was made of an answer of this URL first. Returns what it pushed out.
    fn put(
        &mut self,
        url: PageUrl,
        prepared: Prepared,
    ) -> Result<Option<(PageUrl, Prepared)>, NoMemory>
        requires { url ≡ prepared.url }
        ensures ok { OnOk result (self.new.plans ≡ lru_cache (put_entries bytes_eq self.old.plans prepared.url prepared) self.old.plans.cap) }
        ensures err { OnErr result (self.new.plans ≡ self.old.plans) }
    {
        Ok(self.plans.push(url, prepared)?)
    }
}

/// What a cache made of its answers: of the latest one of each URL that is processed and to be stored, since the others
/// cost nothing to make ready or aren't asked for again. In each shard there are no more of them than of answers.
#[derive(Drop)]
pub(crate) struct PlanShelves {
    shelves: [Mutex<PlanShelf>; SHARDS],
}

// Whether what is made of an answer is put on its shelf.
fn is_to_be_shelved(answer: &Answer) -> bool {
    answer.processed() && is_to_be_stored(answer)
}

// Whether there is room for what a body is.
fn is_small(form: &Form) -> bool {
    match form {
        Form::Planned(plan) => parts_of(plan) <= MAX_PLAN_PARTS,
        Form::Plain | Form::BadAt(_) => true,
    }
}

// How many steps there are, and parts of their texts.
fn parts_of(plan: &Plan) -> usize {
    let mut count = plan.len();
    for i in 0..plan.len() {
        if let Some(step) = plan.step(i) {
            count = count.saturating_add(parts_in(step));
        }
    }
    count
}

// How many parts the text of a step has. A URL that is kept counts as two.
fn parts_in(step: &Step) -> usize {
    match step {
        Step::Values(parts) => parts.as_slice().len(),
        Step::Leg(leg) if leg.keeps_url() => leg.source().len().saturating_add(2),
        Step::Leg(leg) => leg.source().len(),
        _ => 0,
    }
}

impl PlanShelves {
    /// Empty shelves, each with room for what is made of so many answers.
    pub(crate) fn new(
        alloc: Global,
        capacity: usize,
        hashing: UrlHashing,
    ) -> Result<PlanShelves, NoMemory>
        requires { 1 ≤ capacity }
    {
        let capacity = match NonZeroUsize::new(capacity) {
            Some(capacity) => capacity,
            None => unreachable!(),
        };
        let shelves: [Mutex<PlanShelf>; SHARDS] = array::try_from_fn(|_| empty_shelf(
            alloc, capacity, hashing,
        ))?;
        Ok(PlanShelves { shelves })
    }

    // Where what is made of the answers of a shard is put.
    fn at(&self, place: ShardPlace) -> &Mutex<PlanShelf> {
        &self.shelves[place.index()]
    }

    /// The answer of a URL of this shard, made ready: what was made of this very answer, or what is made of it now, and then
    /// put on its shelf where that is worth it.
    pub(crate) fn prepared<R: Wait>(
        &self,
        rt: &R,
        alloc: Global,
        place: ShardPlace,
        answer: Arc<Answer>,
    ) -> Result<Prepared, NoMemory>
        ensures { IfOk result (λ prepared. prepared ≡ arc_value answer) }
    {
        if !is_to_be_shelved(&answer) {
            return Prepared::of(alloc, answer);
        }
        if let Some(found) = self.find(rt, place, &answer) {
            return Ok(found);
        }
        let prepared = Prepared::of(alloc, answer)?;
        if is_small(prepared.form()) {
            // Without memory for it nothing is put there.
            let _ = self.put(rt, place, &prepared);
        }
        Ok(prepared)
    }

    /// Makes an answer ready for those who will ask for that, where it is put on its shelf. Without memory for it
    /// nothing is.
    pub(crate) fn prepare<R: Wait>(
        &self,
        rt: &R,
        alloc: Global,
        place: ShardPlace,
        answer: &Arc<Answer>,
    ) {
        if !is_to_be_shelved(answer) {
            return;
        }
        if let Ok(own) = Arc::try_clone(answer) {
            let _ = self.prepared(rt, alloc, place, own);
        }
    }

    // What was made of this very answer. The answers are compared once the lock is left.
    fn find<R: Wait>(&self, rt: &R, place: ShardPlace, answer: &Answer) -> Option<Prepared>
        ensures { IfSome result (λ found. found ≡ answer.now) }
    {
        let found = self.at(place).lock(rt).find(answer.url());
        match found {
            Ok(Some(found)) if same_answer(found.answer(), answer) => Some(found),
            _ => None,
        }
    }

    // Puts this on the shelf of its URL, in place of what stood there for it. What it pushes out is dropped once the
    // lock is left.
    fn put<R: Wait>(&self, rt: &R, place: ShardPlace, prepared: &Prepared) -> Result<(), NoMemory> {
        let (url, own) = (prepared.url().share()?, prepared.share()?);
        let _pushed_out = self.at(place).lock(rt).put(url, own)?;
        Ok(())
    }
}

fn empty_shelf(
    alloc: Global,
    capacity: NonZeroUsize,
    hashing: UrlHashing,
) -> Result<Mutex<PlanShelf>, NoMemory> {
    Ok(Mutex::new(PlanShelf::new(alloc, capacity, hashing)?))
}
