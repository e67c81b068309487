//! A table as a source. Clauses see the table's answers.

ghost use Rattle.std.specs.Prelude.{◌≡◌, false};

use crate::answers::Answers;
use crate::concurrent_source::{Arrival, ConcurrentSource};
use crate::given::Given;
use crate::on_behalf::OnBehalf;
use crate::one_by_one::OneByOne;
use crate::source::Source;
use edge_types::{Answer, NoMemory, PageUrl, Table};
use std::alloc::Global;
use std::collections::VecDeque;
use std::marker::Model;
use std::sync::Arc;

/// A source that gives the answers of its table, and a failed one for any other URL. It has none ready, so each
/// of its answers is fetched. No URL is private.
#[derive(Drop)]
pub struct TableSource {
    table: Table,
}

impl Model for TableSource {
    ghost use Rattle.std.specs.Prelude.{List};
    ghost use Rattle.edge_types.specs.Answered.{Answered};

    ghost Value = { List Answered };

    ghost view = { λ source. source.table };
}

impl TableSource {
    /// The source of a table. Takes no memory.
    pub fn new(table: Table) -> TableSource
        ensures { result ≡ table }
    {
        TableSource { table }
    }
}

impl<R> Answers<R> for TableSource {
    ghost use Rattle.std.proofs.Common.{ap};
    ghost use Rattle.answer_sources.specs.Given.{GivenByTable};

    ghost gives = { GivenByTable };

    ghost names_url = { λ table url answer given. ap (λ a. a.url) given };

    ghost private = { λ _ _. false };

    fn is_private(&self, _url: &PageUrl) -> bool {
        false
    }
}

impl<R> Source<R> for TableSource {
    fn fetch(&self, _rt: &R, alloc: Global, url: &PageUrl) -> Result<Given, NoMemory> {
        match self.table.get(url) {
            Some(answer) => Ok(Given::fetched(Arc::try_clone(answer)?)),
            None => Ok(Given::fetched(Arc::new(alloc, Answer::failed(url.share()?))?)),
        }
    }
}

impl<R> ConcurrentSource<R> for TableSource {
    type InFlight = VecDeque<PageUrl>;

    fn nothing_in_flight(&self, rt: &R, alloc: Global) -> VecDeque<PageUrl> {
        OneByOne { source: self }.nothing_in_flight(rt, alloc)
    }

    fn begin(
        &self,
        rt: &R,
        alloc: Global,
        in_flight: &mut VecDeque<PageUrl>,
        url: &PageUrl,
    ) -> Result<(), NoMemory> {
        OneByOne { source: self }.begin(rt, alloc, in_flight, url)
    }

    fn next(&self, rt: &R, alloc: Global, in_flight: &mut VecDeque<PageUrl>) -> Arrival {
        OneByOne { source: self }.next(rt, alloc, in_flight)
    }

    fn is_idle(&self, in_flight: &VecDeque<PageUrl>) -> bool {
        in_flight.is_empty()
    }

    fn give_up(&self, rt: &R, alloc: Global, in_flight: VecDeque<PageUrl>) {
        OneByOne { source: self }.give_up(rt, alloc, in_flight);
    }
}

// It asks nobody.
impl<R> OnBehalf<R> for TableSource {}
