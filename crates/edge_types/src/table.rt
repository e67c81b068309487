//! What origins answer, all together. Clauses see the list of the answers, in the order in which
//! they were put in; no URL is answered twice.

ghost use Rattle.std.specs.Prelude.{◌≡◌, ◌++◌, ◌∷◌, [], IsSome, IsErrAnd, OnOk, OnErr, ◌↔◌, IfErr, IfSome, IfNone, None};
ghost use Rattle.std.specs.Arc.{arc_value};

use crate::answer::Answer;
use crate::no_memory::NoMemory;
use crate::page_url::PageUrl;
use crate::shared_answer::SharedAnswer;
use std::alloc::Global;
use std::collections::BTreeMap;
use std::hash::{FoldHasher, Hasher};
use std::marker::Model;
use std::sync::Arc;
use thiserror::Error;

/// Answers by their URLs.
//
// A look-up compares one URL: an ordered map of URLs alone would read many, each somewhere else in
// memory. URLs that were made to have one fingerprint cost no more than such a map.
#[derive(Drop)]
pub struct Table {
    answers: Vec<SharedAnswer>,
    // The place of the first answer of each fingerprint.
    firsts: BTreeMap<u64, usize>,
    // The place of each other answer.
    others: BTreeMap<PageUrl, usize>,
}

impl Model for Table {
    ghost use Rattle.std.specs.Prelude.{List};
    ghost use Rattle.edge_types.specs.Answered.{Answered};
    ghost use Rattle.edge_types.specs.Places.{Places};

    ghost Value = { List Answered };

    ghost view = { λ t. t.answers.items };

    ghost invariant = { λ t. Places t.firsts t.others t.answers.items };
}

/// Why a table refuses an answer.
#[derive(Clone, Copy, Debug, Drop, PartialEq, Eq, Error)]
pub enum InsertFault {
    /// The table has an answer of that URL.
    #[error("the table has an answer of this URL: insert one answer of each")]
    Twice,
    /// An allocation failed.
    #[error("out of memory: try again with more of it")]
    NoMemory,
}

impl Table {
    ghost use Rattle.edge_types.specs.Table.{answer_of, IsTable};
    ghost use Rattle.std.specs.Option.{option_copied};

    /// An empty table. Takes no memory.
    pub fn new(alloc: Global) -> Table
        ensures { result ≡ [] }
    {
        Table {
            answers: Vec::new(alloc),
            firsts: BTreeMap::new(alloc),
            others: BTreeMap::new(alloc),
        }
    }

    // The place of the first answer with this fingerprint.
    fn first(&self, print: u64) -> Option<usize>
        ensures { result ≡ position (has_print print) self.now }
    {
        self.firsts.get(&print).copied()
    }

    fn place(&self, url: &PageUrl) -> Option<usize>
        ensures value { result ≡ position (is_of url.now) self.now }
        ensures once { IsTable self.now }
    {
        match self.first(fingerprint(url)) {
            Some(at) if self.answers[at].get().url() == url => Some(at),
            Some(_) => self.others.get(url).copied(),
            None => None,
        }
    }

    /// The answer of a URL; `None` if the table has none. Takes no memory.
    pub fn get(&self, url: &PageUrl) -> Option<&Arc<Answer>>
        ensures none { IfNone result (answer_of self.now url.now ≡ None) }
        ensures some { IfSome result (λ answer. answer_of self.now url.now ≡ Some (arc_value answer.now)) }
        ensures once { IsTable self.now }
    {
        match self.place(url) {
            Some(at) => Some(self.answers[at].as_arc()),
            None => None,
        }
    }

    fn has(&self, url: &PageUrl) -> bool
        ensures { result ≡ is_some (answer_of self.now url.now) }
    {
        self.get(url).is_some()
    }

    /// Inserts an answer.
    ///
    /// `Twice` if the table has an answer of that URL, else `NoMemory` if an allocation
    /// fails. A refusal hands the answer back and leaves the table as it was.
    pub fn insert(&mut self, answer: Arc<Answer>) -> Result<(), (InsertFault, Arc<Answer>)>
        ensures ok { OnOk result (self.new ≡ self.old ++ arc_value answer ∷ []) }
        ensures twice { IsErrAnd result (λ (fault, back). fault ≡ InsertFault.Twice) ↔ IsSome (answer_of self.old (arc_value answer).url) }
        ensures err { IfErr result (λ (fault, back). (self.new ≡ self.old) × (back ≡ answer)) }
    {
        if self.has(answer.url()) {
            return Err((InsertFault::Twice, answer));
        }
        match self.add(&answer) {
            Ok(()) => Ok(()),
            Err(NoMemory) => Err((InsertFault::NoMemory, answer)),
        }
    }

    // Inserts an answer of a URL that has none.
    fn add(&mut self, answer: &Arc<Answer>) -> Result<(), NoMemory>
        requires { answer_of self.old (arc_value answer.now).url ≡ None }
        ensures ok { OnOk result (self.new ≡ self.old ++ arc_value answer.now ∷ []) }
        ensures err { OnErr result (self.new ≡ self.old) }
    {
        let kept = SharedAnswer::of(Arc::try_clone(answer)?);
        let print = fingerprint(answer.url());
        let first = self.first(print);
        self.answers.reserve(1)?;
        let at = self.answers.len();
        if first.is_some() {
            self.others.insert(answer.url().share()?, at)?;
        } else {
            self.firsts.insert(print, at)?;
        }
        self.answers.push(kept).unwrap();
        Ok(())
    }
}

ghost use Rattle.edge_types.specs.Table.{is_of};
ghost use Rattle.edge_types.specs.Places.{has_print, print_of};
ghost use Rattle.std.specs.Prelude.{position, Some, is_some};

// A number that most URLs share with no other.
#[tactic(auto, unfolding(crate::specs::Places::print_of))]
fn fingerprint(url: &PageUrl) -> u64
    ensures { result ≡ print_of url.now }
{
    let mut hasher = FoldHasher::default();
    hasher.write(url.as_bytes());
    hasher.finish()
}
