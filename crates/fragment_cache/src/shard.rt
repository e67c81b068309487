//! A shard of the cache. Clauses see the state of the cache machine: entries by URL, newest use
//! first; flights by number; the next number; the capacity.

use crate::entries::Entries;
use crate::flights::{Flight, Flights, Picked};
use crate::hashing::UrlHashing;
use crate::times::is_failing;
use edge_types::{Answer, NoMemory, PageUrl, SharedAnswer};
use std::alloc::Global;
use std::marker::Model;
use std::num::NonZeroUsize;
use std::sync::Arc;

/// The most entries that a shard can have.
pub const MAX_CAPACITY: usize = 1024;

/// The result of `begin`. It can't be dropped, since a flight can't.
#[must_use]
pub enum Begun {
    /// The stored answer.
    Hit(Arc<Answer>),
    /// A flight with this number is under way for the URL: its answer can be picked up once it has landed.
    Join(u64),
    /// The caller is to fetch and to land the answer, or this failed one if it has none.
    Lead(Flight, Arc<Answer>),
    /// The caller is to fetch on its own.
    Bypass,
}

/// Stored answers, and flights for those that are to come.
///
/// ```text
///  look  --         the stored answer, before its expiry, or nothing
///  bridging --      the stored answer, before its expiry plus its extension, or nothing
///  begin -- Hit     the stored answer, before its expiry
///        -- Join    a flight of the URL flies: pick its answer up later
///        -- Lead    none does: fetch, and land --+-- stored, or not
///        -- Bypass  fetch for yourself           +-- bridged by a stored answer
/// ```
#[derive(Drop)]
pub struct Shard {
    entries: Entries,
    flights: Flights,
    alloc: Global,
}

impl Model for Shard {
    ghost use Rattle.fragment_cache.specs.Machine.{State};

    ghost Value = { State };

    ghost view = { λ s. record { entries = s.entries.entries; flights = s.flights.flights; next = s.flights.next; capacity = s.entries.capacity } };
}

impl Shard {
    ghost use Rattle.std.specs.Prelude.{◌≡◌, ◌<◌, ◌≤◌, ◌+◌, ◌++◌, ◌∷◌, [], length, ℕ, None, Some, IfOk, IfSome, OnErr, MatchOption};
    ghost use Rattle.std.specs.Arc.{arc_value};
    ghost use Rattle.fragment_cache.specs.Machine.{bytes_of, empty, fresh, picks_at, flying_at, NoneFlies};
    ghost use Rattle.fragment_cache.specs.Steps.{Begins, Looks, Found, Missing, Refused, LandsSomehow, Picks};
    ghost use Rattle.fragment_cache.specs.Shown.{begun_answer, picked_answer};
    ghost use Rattle.fragment_cache.specs.Sound.{IsSound, NamesUrl};

    /// An empty shard for at most this many entries, whose map hashes URLs in the fixed way.
    ///
    /// Our profile.
    pub fn new(alloc: Global, capacity: usize) -> Result<Shard, NoMemory>
        requires from { 1 ≤ capacity }
        requires to { capacity ≤ MAX_CAPACITY }
        ensures { IfOk result (λ s. s ≡ empty capacity) }
    {
        Shard::hashed(alloc, capacity, UrlHashing::fixed())
    }

    /// An empty shard for at most this many entries, whose map hashes URLs so: only how long look-ups take differs.
    ///
    /// Our profile.
    pub fn hashed(alloc: Global, capacity: usize, hashing: UrlHashing) -> Result<Shard, NoMemory>
        requires from { 1 ≤ capacity }
        requires to { capacity ≤ MAX_CAPACITY }
        ensures { IfOk result (λ s. s ≡ empty capacity) }
    {
        let capacity = match NonZeroUsize::new(capacity) {
            Some(capacity) => capacity,
            None => unreachable!(),
        };
        Ok(Shard {
            entries: Entries::new(alloc, capacity, hashing)?,
            flights: Flights::new(alloc),
            alloc,
        })
    }

    /// Returns the stored answer of a URL if now is before its expiry, and makes its entry the
    /// newest; else `None`, which changes nothing. No flight is begun or joined.
    ///
    /// `NoMemory` if a second owner of the answer can't be made; nothing changes then.
    ///
    /// Our profile.
    pub fn look(&mut self, url: &PageUrl, now: u64) -> Result<Option<Arc<Answer>>, NoMemory>
        ensures ok { IfOk result (λ found. MatchOption found
            (Looks self.old url.now now Missing self.new)
            (λ answer. Looks self.old url.now now (Found (arc_value answer)) self.new)) }
        ensures err { OnErr result (Looks self.old url.now now Refused self.new) }
        ensures named { IfOk result (λ found. IfSome found (λ answer. (arc_value answer).url ≡ url.now)) }
        ensures sound { IsSound self.new }
    {
        self.entries.sound();
        let found = self.entries.hit(url, now);
        self.sound();
        found
    }

    /// Asks for a URL at a second of the clock. The result, in this order: `Hit` if an entry of
    /// the URL is stored and now is before its expiry, which makes that entry the newest; `Join`
    /// if a flight of the URL is under way, which notes one more pick-up of it; else `Lead`, with the
    /// next number.
    ///
    /// `Bypass`, which changes nothing, comes in place of `Hit` if an allocation fails, in place
    /// of `Join` if the flight has `MAX_PICKS` pick-ups, and in place of `Lead` if an allocation
    /// fails, `MAX_FLIGHTS` flights are kept or the numbers are used up. An expired entry
    /// stays where it is.
    ///
    /// Our profile.
    pub fn begin(&mut self, url: &PageUrl, now: u64) -> Begun
        ensures step { Begins self.old url.now now (begun_answer result) self.new }
        ensures named { NamesUrl url.now (begun_answer result) }
        ensures sound { IsSound self.new }
    {
        self.sound();
        let begun = self.start(url, now);
        self.sound();
        begun
    }

    fn start(&mut self, url: &PageUrl, now: u64) -> Begun
        ensures { Begins self.old url.now now (begun_answer result) self.new }
    {
        match self.entries.hit(url, now) {
            Ok(Some(answer)) => Begun::Hit(answer),
            Ok(None) => self.depart(url),
            Err(NoMemory) => Begun::Bypass,
        }
    }

    /// States what holds of every shard, even one that was just taken from a lock: each entry
    /// and each flight that has landed holds an answer of its URL, no URL has two entries or two
    /// flights under way, and there are no more entries than the capacity. Does nothing.
    ///
    /// Our profile.
    pub fn sound(&self)
        ensures { IsSound self.now }
    {
        self.entries.sound();
        self.flights.sound();
    }

    /// How many pick-ups of the flight with a number have been noted and not been made: for how many others its
    /// leader fetches too. 0 if there is no such flight.
    ///
    /// Our profile.
    pub fn pick_ups(&self, number: u64) -> u16
        ensures { result ≡ picks_at self.now.flights number }
    {
        self.flights.pick_ups(number)
    }

    /// The number of the flight that is under way for a URL, which a `begin` joins where no entry answers;
    /// `None` if none is.
    ///
    /// Our profile.
    pub fn under_way(&self, url: &PageUrl) -> Option<u64>
        ensures { MatchOption result (NoneFlies self.now.flights url.now)
            (λ number. flying_at self.now.flights number ≡ Some url.now) }
    {
        self.flights.flying(url)
    }

    /// How many entries there are. Takes no memory.
    ///
    /// Our profile.
    pub fn entries(&self) -> usize
        ensures { result ≡ length self.now.entries }
    {
        self.entries.len()
    }

    /// How many bytes the bodies of the entries have together, at most `u64::MAX`. Looks at each entry; takes no memory.
    ///
    /// Our profile.
    pub fn bytes(&self) -> u64
        ensures { result ≡ bytes_of self.now.entries }
    {
        self.entries.bytes()
    }

    // Joins the flight of a URL that no entry answers, or leads a new one.
    fn depart(&mut self, url: &PageUrl) -> Begun
        ensures { (now : ℕ) → fresh self.old.entries url.now now ≡ None → Begins self.old url.now now (begun_answer result) self.new }
    {
        self.flights.sound();
        match self.flights.flying(url) {
            Some(number) => {
                if !self.flights.join(number) {
                    return Begun::Bypass;
                }
                Begun::Join(number)
            }
            None => match self.flights.lead(self.alloc, url) {
                Ok(Some((flight, ready))) => Begun::Lead(flight, ready),
                Ok(None) | Err(NoMemory) => Begun::Bypass,
            },
        }
    }

    /// Lands a flight with the answer of its URL, and returns the answer with which it landed.
    ///
    /// If no such flight is under way here nothing changes, and the answer comes back. If the
    /// answer is failed, or its status is 500 to 599, and an entry of the URL is stored whose
    /// expiry plus extension is after now, the landing is bridged: the stored answer takes the
    /// place of the answer, and no entry changes or moves. Else an answer that is to be stored (a
    /// success with a `max-age` of at least 1 and without `no-store`) becomes the newest entry, in
    /// place of an older one of the URL, else of the last one if the shard is full; an answer
    /// that isn't removes an older entry. The flight keeps its pick-ups with the answer, or is
    /// gone if it has none.
    ///
    /// Never refused: out of memory, it only doesn't bridge a landing, leaves the answer out of the
    /// entries and drops an older one of the URL, or ends the flight.
    ///
    /// Our profile.
    pub fn land(&mut self, flight: Flight, answer: Arc<Answer>, now: u64) -> Arc<Answer>
        requires { (arc_value answer).url ≡ flight.url }
        ensures step { LandsSomehow self.old flight (arc_value answer) now (arc_value result) self.new }
        ensures named { (arc_value result).url ≡ flight.url }
        ensures sound { IsSound self.new }
    {
        self.sound();
        let answer = self.touch_down(&flight, SharedAnswer::of(answer), now);
        flight.end();
        self.sound();
        answer.into_arc()
    }

    fn touch_down(&mut self, flight: &Flight, answer: SharedAnswer, now: u64) -> SharedAnswer
        requires { answer.url ≡ flight.now.url }
        ensures { LandsSomehow self.old flight.now answer now result self.new }
    {
        if !self.flights.flies(flight) {
            return answer;
        }
        match self.bridge(flight, &answer, now) {
            Some(bridging) => {
                self.flights.land(flight, &bridging);
                bridging
            }
            None => {
                self.entries.put(flight.url(), &answer, now);
                self.flights.land(flight, &answer);
                answer
            }
        }
    }

    /// Picks up the answer of the flight with a number, once it has landed: `Here` uses up one
    /// pick-up, and the last one ends the flight. Takes no memory but for a second owner of the answer.
    ///
    /// `Flying` before the flight lands, and `Unknown` if there is no such flight; both change
    /// nothing. If the second owner can't be made the pick-up is used up too, and the result is
    /// `Unknown`.
    ///
    /// Our profile.
    pub fn pick(&mut self, number: u64) -> Picked
        ensures step { Picks self.old number (picked_answer result) self.new }
        ensures sound { IsSound self.new }
    {
        let picked = self.flights.pick(number);
        self.sound();
        picked
    }
}

impl Shard {
    ghost use Rattle.std.specs.Prelude.{◌≡◌, None, Some, IsTrue, IsSome, IfOk, IfSome, OnErr, MatchOption};
    ghost use Rattle.std.specs.Arc.{arc_value};
    ghost use Rattle.fragment_cache.specs.Times.{is_failing};
    ghost use Rattle.fragment_cache.specs.Machine.{bridging};

    /// Returns the stored answer of a URL if now is before its expiry plus its extension, with which a
    /// landing for the URL would be bridged if its origin failed now; else `None`. Nothing changes, and no
    /// flight is begun or joined.
    ///
    /// `NoMemory` if a second owner of the answer can't be made.
    ///
    /// Our profile.
    pub fn bridging(&self, url: &PageUrl, now: u64) -> Result<Option<Arc<Answer>>, NoMemory>
        ensures ok { IfOk result (λ found. MatchOption found
            (bridging self.now.entries url.now now ≡ None)
            (λ answer. bridging self.now.entries url.now now ≡ Some (arc_value answer))) }
        ensures err { OnErr result (IsSome (bridging self.now.entries url.now now)) }
        ensures named { IfOk result (λ found. IfSome found (λ answer. (arc_value answer).url ≡ url.now)) }
    {
        self.entries.sound();
        match self.entries.bridge(url, now)? {
            Some(found) => Ok(Some(found.into_arc())),
            None => Ok(None),
        }
    }

    // The stored answer that replaces a failing one.
    fn bridge(&self, flight: &Flight, answer: &SharedAnswer, now: u64) -> Option<SharedAnswer>
        ensures failing { IfSome result (λ _. IsTrue (is_failing answer.now.reply)) }
        ensures bridging { IfSome result (λ found. bridging self.now.entries flight.now.url now ≡ Some found) }
        ensures named { IfSome result (λ found. found.url ≡ flight.now.url) }
    {
        self.entries.sound();
        if !is_failing(answer.get()) {
            return None;
        }
        match self.entries.bridge(flight.url(), now) {
            Ok(Some(found)) => Some(found),
            Ok(None) | Err(NoMemory) => None,
        }
    }
}

impl Shard {
    ghost use Rattle.std.specs.Prelude.{◌≡◌, ◌+◌, length, bytes_eq, is_some, IfOk, OnOk, OnErr};
    ghost use Rattle.fragment_cache.specs.Machine.{entry_of, begins};
    ghost use Rattle.fragment_cache.specs.Steps.{Purges};
    ghost use Rattle.fragment_cache.specs.Sound.{IsSound};

    /// Removes the entry of a URL, so that it neither hits nor bridges until the next landing for the URL. Returns
    /// whether there was one. Flights stay, and a flight that is under way is stored once it lands. Takes no memory.
    ///
    /// Our profile.
    pub fn purge(&mut self, url: &PageUrl) -> bool
        ensures step { Purges self.old (bytes_eq url.now) self.new }
        ensures found { result ≡ is_some (entry_of self.old.entries url.now) }
        ensures sound { IsSound self.new }
    {
        let is_there = self.entries.purge(url);
        self.sound();
        is_there
    }

    /// Removes the entries of all URLs that begin with these bytes, as `purge` does that of one. Returns how many there
    /// were.
    ///
    /// `NoMemory` if there is none for the list of these URLs; nothing changes then.
    ///
    /// Our profile.
    pub fn purge_prefix(&mut self, prefix: &[u8]) -> Result<usize, NoMemory>
        ensures ok { OnOk result (Purges self.old (begins prefix.now) self.new) }
        ensures count { IfOk result (λ count. length self.new.entries + count ≡ length self.old.entries) }
        ensures err { OnErr result (self.new ≡ self.old) }
        ensures sound { IsSound self.new }
    {
        let before = self.entries.len();
        self.sound();
        self.entries.purge_prefix(self.alloc, prefix)?;
        self.sound();
        Ok(before - self.entries.len())
    }
}
