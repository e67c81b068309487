//! The board. Clauses see its slots in order of opening, and the numbers of the filled ones in
//! order of filling.

use crate::slot::Slot;
use crate::ticket::{Receipt, Ticket};
use edge_types::{NoMemory, PageUrl};
use plan_compiler::Prepared;
use std::alloc::Global;
use std::collections::BTreeMap;
use std::marker::Model;
use thiserror::Error;

/// Why a board refuses a receipt.
#[derive(Clone, Copy, Debug, Drop, PartialEq, Eq, Error)]
pub enum FillFault {
    /// There is no slot of that number with that URL.
    #[error("no slot has this number and URL: fill the board that gave the ticket")]
    Stranger,
    /// Nobody has claimed the slot.
    #[error("nobody has claimed the slot: claim it first")]
    NotClaimed,
    /// The slot already has its answer.
    #[error("the slot has its answer: give the receipt up")]
    Filled,
}

/// Slots by number, each for a URL that is wanted.
///
/// ```text
///  open --> unclaimed --claim--> claimed --fill--> filled
///                       |                   |
///                       v                   v
///                     Ticket --answered--> Receipt
/// ```
#[derive(Drop)]
pub struct Board {
    slots: Vec<Slot>,
    // The number of each URL's slot.
    numbers: BTreeMap<PageUrl, usize>,
    // Has room for the numbers of all slots.
    filled: Vec<usize>,
    // All slots before this one are claimed, and no others are.
    next: usize,
}

impl Model for Board {
    ghost use Rattle.std.specs.Prelude.{vec_capacity};
    ghost use Rattle.answer_board.specs.Board.{State};
    ghost use Rattle.answer_board.specs.Sound.{IsKept};

    ghost Value = { State };

    ghost view = { λ b. record { slots = b.slots.items; filled = b.filled.items } };

    ghost invariant = { λ b. IsKept b.numbers b.next (vec_capacity b.filled) b.slots.items b.filled.items };
}

impl Board {
    ghost use Rattle.std.specs.Prelude.{◌≡◌, length, None, Some, IfOk, IfErr, OnErr, OnOk, ◌++◌, ◌∷◌, [], slice_get, option_map, option_and_then};
    ghost use Rattle.std.specs.Option.{option_copied};
    ghost use Rattle.answer_board.specs.Board.{empty, number_of, with_slot, Opens, Claims, fill_fault, Fills, answer_at, KeepsFilled, log_of};
    ghost use Rattle.answer_board.specs.Sound.{IsBoard};

    /// A board without slots. Takes no memory.
    pub fn new(alloc: Global) -> Board
        ensures { result ≡ empty }
    {
        Board {
            slots: Vec::new(alloc),
            numbers: BTreeMap::new(alloc),
            filled: Vec::new(alloc),
            next: 0,
        }
    }

    // States the board's invariant.
    fn sound(&self)
        ensures { IsBoard self.now }
    {
        let _ = &self.slots;
    }

    /// Opens a slot for a URL and returns its number: one more than the last slot's, or that of
    /// the URL's own slot if it has one, which then stays as it is.
    ///
    /// Takes memory only for a new slot. `NoMemory` if an allocation fails; nothing changes
    /// then.
    ///
    /// Our profile.
    pub fn open(&mut self, url: &PageUrl, depth: u8) -> Result<usize, NoMemory>
        ensures ok { IfOk result (λ number. Opens (number_of self.old.slots url.now) url.now depth self.old number self.new) }
        ensures err { OnErr result (self.new ≡ self.old) }
        ensures no_memory { IfErr result (λ _. number_of self.old.slots url.now ≡ None) }
        ensures keeps { KeepsFilled self.old self.new }
        ensures log { log_of self.new ≡ log_of self.old }
        ensures sound { IsBoard self.new }
    {
        let opened = match self.number(url) {
            Some(number) => Ok(number),
            None => self.add(url, depth),
        };
        self.sound();
        opened
    }

    // Opens a slot for a URL that has none. Nothing changes before all allocations have succeeded.
    fn add(&mut self, url: &PageUrl, depth: u8) -> Result<usize, NoMemory>
        requires { number_of self.old.slots url.now ≡ None }
        ensures number { IfOk result (λ number. number ≡ length self.old.slots) }
        ensures ok { IfOk result (λ _. self.new ≡ with_slot url.now depth self.old) }
        ensures err { OnErr result (self.new ≡ self.old) }
    {
        let number = self.slots.len();
        let slot = Slot::new(url.share()?, url.share()?, depth);
        let key = url.share()?;
        self.slots.reserve(1)?;
        self.filled.reserve(number - self.filled.len() + 1)?;
        self.numbers.insert(key, number)?;
        self.slots.push_reserved(slot);
        Ok(number)
    }

    /// Claims the first unclaimed slot and returns its ticket; `None` if all are claimed. Takes no
    /// memory, and no more time the more slots are claimed.
    ///
    /// Our profile.
    pub fn claim(&mut self) -> Option<Ticket>
        ensures step { Claims self.old result self.new }
        ensures keeps { KeepsFilled self.old self.new }
        ensures log { log_of self.new ≡ log_of self.old }
        ensures sound { IsBoard self.new }
    {
        let ticket = self.take();
        self.sound();
        ticket
    }

    fn take(&mut self) -> Option<Ticket>
        ensures { Claims self.old result self.new }
    {
        let number = self.next;
        if number >= self.slots.len() {
            return None;
        }
        let slot = &mut self.slots[number];
        let url = slot.claim();
        self.next = number + 1;
        Some(Ticket::new(number, url))
    }

    /// Fills the slot with the receipt's number and returns that number. Takes no memory.
    ///
    /// `Stranger` if no slot has that number and the answer's URL, else `NotClaimed` if
    /// nobody has claimed the slot, else `Filled` if it has its answer. A refusal hands the
    /// receipt back and changes nothing.
    ///
    /// Our profile.
    pub fn fill(&mut self, receipt: Receipt) -> Result<usize, (FillFault, Receipt)>
        ensures ok { IfOk result (λ number. (number ≡ receipt.number) × (fill_fault self.old.slots receipt ≡ None) × Fills self.old receipt self.new) }
        ensures err { IfErr result (λ (fault, back). (fill_fault self.old.slots receipt ≡ Some fault) × (back ≡ receipt) × (self.new ≡ self.old)) }
        ensures keeps { KeepsFilled self.old self.new }
        ensures log { OnOk result (log_of self.new ≡ log_of self.old ++ receipt.answer ∷ []) }
        ensures sound { IsBoard self.new }
    {
        let filled = match self.fault(&receipt) {
            Some(fault) => Err((fault, receipt)),
            None => Ok(self.put(receipt)),
        };
        self.sound();
        filled
    }

    // Why the board refuses a receipt.
    fn fault(&self, receipt: &Receipt) -> Option<FillFault>
        ensures { result ≡ fill_fault self.now.slots receipt.now }
    {
        match self.slots.get(receipt.number()) {
            Some(slot) if slot.url() == receipt.url() => slot.fault(),
            _ => Some(FillFault::Stranger),
        }
    }

    fn put(&mut self, receipt: Receipt) -> usize
        requires { fill_fault self.old.slots receipt ≡ None }
        ensures number { result ≡ receipt.number }
        ensures fills { Fills self.old receipt self.new }
        ensures log { log_of self.new ≡ log_of self.old ++ receipt.answer ∷ [] }
    {
        let number = receipt.number();
        let slot = &mut self.slots[number];
        slot.fill(receipt.into_prepared());
        self.filled.push_reserved(number);
        number
    }

    /// The number of a URL's slot; `None` if the URL has no slot. It costs one look-up in a
    /// map. Takes no memory.
    ///
    /// Our profile.
    pub fn number(&self, url: &PageUrl) -> Option<usize>
        ensures { result ≡ number_of self.now.slots url.now }
    {
        self.numbers.get(url).copied()
    }

    /// Lends what the slot of a URL is filled with, if it is. Takes no memory.
    ///
    /// Our profile.
    pub fn get(&self, url: &PageUrl) -> Option<&Prepared>
        ensures { option_copied result ≡ option_and_then (answer_at self.now.slots) (number_of self.now.slots url.now) }
    {
        match self.number(url) {
            Some(number) => self.prepared(number),
            None => None,
        }
    }

    /// Lends what the slot with a number is filled with, if it is. Takes no memory.
    ///
    /// Our profile.
    pub fn prepared(&self, number: usize) -> Option<&Prepared>
        ensures { option_copied result ≡ answer_at self.now.slots number }
    {
        match self.slots.get(number) {
            Some(slot) => slot.prepared(),
            None => None,
        }
    }

    /// The depth of the slot with a number. Takes no memory.
    ///
    /// Our profile.
    pub fn depth(&self, number: usize) -> Option<u8>
        ensures { result ≡ option_map (λ s. s.depth) (slice_get self.now.slots number) }
    {
        match self.slots.get(number) {
            Some(slot) => Some(slot.depth()),
            None => None,
        }
    }

    /// How many slots there are. Takes no memory.
    ///
    /// Our profile.
    pub fn len(&self) -> usize
        ensures { result ≡ length self.now.slots }
    {
        self.slots.len()
    }

    /// The numbers of the filled slots, in order of filling, each once. Takes no memory.
    ///
    /// Our profile.
    pub fn filled(&self) -> &[usize]
        ensures numbers { result.now ≡ self.now.filled }
        ensures sound { IsBoard self.now }
    {
        &self.filled
    }
}
