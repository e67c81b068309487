//! Pages. Clauses see a page's URL, request and levels, its board, the room that is left for slots
//! ahead, the count of steps, and how far it is. `specs/Headline.antt` is what a page promises.
ghost use Rattle.std.specs.Prelude.{◌≡◌, ◌≤◌, ◌+◌, length, List, ◌++◌, ◌∷◌, [], Some, None, Err, IfOk, IfErr, IfSome, OnOk, OnErr, option_map, slice_get};
ghost use Rattle.std.specs.Arc.{arc_value};
ghost use Rattle.std.specs.List.{AllByRecursion};
ghost use Rattle.std.specs.Option.{option_copied};
ghost use Rattle.edge_types.specs.Answered.{Answered};
ghost use Rattle.edge_types.specs.declared.outcome.PageFault.TheVariants.{IncludeFailed};
ghost use Rattle.edge_types.specs.Outcome.{Shown, Fault, shown};
ghost use Rattle.edge_types.specs.Table.{Agrees};
ghost use Rattle.esi_meaning.specs.declared.limits.TheConstants.{MAX_LEGS};
ghost use Rattle.esi_meaning.specs.Ahead.{IsLegal};
ghost use Rattle.esi_meaning.specs.Laws.{SameReply};
ghost use Rattle.esi_meaning.specs.Meaning.{AreLevels, asked};
ghost use Rattle.esi_meaning.specs.State.{Done, state, waits_at};
ghost use Rattle.answer_board.specs.Sound.{IsBoard};
ghost use Rattle.answer_board.specs.Board.{log_of};
ghost use Rattle.plan_machine.specs.Headline.{IsTrueOver};
ghost use Rattle.plan_machine.specs.LastLeg.{failed_answer};
ghost use Rattle.plan_runner.specs.Page.{Underway, Finished, Broken, accepted, ClaimsOf};
ghost use Rattle.plan_runner.specs.Calls.{IsOnePage, TakesIn, Refuses, Errs, told_state, standing_after, IsOutcomeOver, IsFilled, HasAppended, Moves, only_board};
ghost use Rattle.plan_runner.specs.Headline.{TellsTheTruth};
ghost use Rattle.plan_runner.specs.Kept.{standing_of, IsStage};
ghost use Rattle.plan_runner.specs.Running.{IsDone, Comes};
ghost use Rattle.plan_runner.specs.Sound.{IsSound};
ghost use Rattle.plan_runner.specs.Words.{refusal_words};

use crate::advance::Progress;
use crate::ahead::{FilledSlot, open_ahead};
use crate::answers::{answer_in, filled_answer};
use crate::course::{Came, begin_and_go_on, go_on};
use crate::leg::Setting;
use crate::machine::idle;
use crate::outcome::SharedOutcome;
use answer_board::{Board, FillFault, Receipt, Ticket};
use edge_types::{Answer, NoMemory, Outcome, PageUrl, Request};
use std::alloc::Global;
use std::marker::Model;
use std::sync::Arc;
use std::{fmt, mem};
use thiserror::Error;

/// The most slots that the posts of a page may open ahead.
///
/// Our profile.
pub const MAX_AHEAD: u16 = 256;

/// Where a page stands.
#[derive(Drop)]
pub enum State {
    /// It waits for the answer of this URL.
    Waiting(PageUrl),
    /// It has its outcome.
    Done(Arc<Outcome>),
}

/// Why a page doesn't report where it stands.
#[derive(Clone, Copy, Debug, Drop, PartialEq, Eq, Error)]
pub enum PageError {
    /// An allocation failed: a page that wasn't done is broken.
    #[error("out of memory: accept the page anew with more of it")]
    NoMemory,
    /// An allocation failed earlier, before the page was done.
    #[error("the page ran out of memory before: accept it anew")]
    Broken,
}

impl From<NoMemory> for PageError {
    ghost use Rattle.plan_runner.specs.declared.page.PageError.TheVariants as error;

    ghost from_gives = { λ _ e. e ≡ error.NoMemory };

    fn from(_: NoMemory) -> PageError {
        PageError::NoMemory
    }
}

/// Why a page refuses a receipt, or is broken by it.
#[must_use]
pub enum PostFault {
    /// There is no slot with that number and that URL.
    Stranger(Receipt),
    /// Nobody has claimed the slot.
    NotClaimed(Receipt),
    /// The slot already has its answer.
    Filled(Receipt),
    /// An allocation failed: the answer is in, and the page is broken.
    NoMemory,
    /// An allocation failed earlier, before the page was done.
    Broken(Receipt),
}

// By hand: what hands a receipt back can't be dropped, as an `Error` can.
impl fmt::Display for PostFault {
    ghost output = { λ fault. Some (refusal_words fault) };

    fn fmt<W: fmt::Write>(&self, f: &mut fmt::Formatter<W>) -> fmt::Result {
        f.write_str(match self {
            PostFault::Stranger(_) =>
                "no slot has this number and URL: post to the page that gave the ticket",
            PostFault::NotClaimed(_) => "nobody has claimed the slot: claim it first",
            PostFault::Filled(_) => "the slot has its answer: give the receipt up",
            PostFault::NoMemory => "out of memory: accept the page anew with more of it",
            PostFault::Broken(_) =>
                "the page ran out of memory before: give the receipt up, and accept the page anew",
        })
    }
}

// How far a page is.
#[derive(Drop)]
pub(crate) enum Stage {
    // Its own answer has not been looked at yet.
    Unread,
    // Its own answer is a template, whose plan is being run.
    Running,
    // It has its outcome.
    Done(SharedOutcome),
    // An allocation failed.
    Broken,
}

/// A page that is assembled from answers, which may come in any order.
///
/// ```text
///  accept --> underway --advance--> done, for good
///                |
///                +--an allocation fails in post or advance--> broken, for good
/// ```
#[derive(Drop)]
pub struct Page {
    alloc: Global,
    url: PageUrl,
    request: Request,
    levels: u8,
    board: Board,
    // How many slots posts may open ahead, and how many they still may.
    ahead: u16,
    room: u16,
    // How many bytes it may have.
    most: usize,
    progress: Progress,
    stage: Stage,
    // The slot of the answer that its last leg asked for, once it is done and if it asked for one.
    last: Option<usize>,
}

impl Model for Page {
    ghost use Rattle.plan_runner.specs.Page as page;
    ghost use Rattle.plan_runner.specs.Kept.{seen, IsKept};

    ghost Value = { page.Page };

    ghost view = { seen };

    ghost invariant = { IsKept };
}

impl Page {
    /// A page with no answers in: one slot, for the page's own URL, at depth 0.
    ///
    /// `ahead` is how many slots posts may open ahead, at most `MAX_AHEAD`. `NoMemory` if an allocation
    /// fails; nothing is left then.
    ///
    /// Our profile.
    pub fn accept(
        alloc: Global,
        url: PageUrl,
        request: Request,
        ahead: u16,
        levels: u8,
    ) -> Result<Page, NoMemory>
        requires ahead { ahead ≤ MAX_AHEAD }
        requires levels { AreLevels levels }
        ensures { IfOk result (λ page. page ≡ accepted url request ahead levels) }
    {
        let mut board = Board::new(alloc);
        board.open(&url, 0)?;
        Ok(Page {
            alloc,
            url,
            request,
            levels,
            board,
            ahead,
            room: ahead,
            most: usize::MAX,
            progress: Progress {
                machine: idle(alloc),
                steps: 0,
            },
            stage: Stage::Unread,
            last: None,
        })
    }

    /// The same page, of at most so many bytes: one that would have more is refused as if there were no memory for it,
    /// before it has as many. `accept` gives a page that may have any number.
    ///
    /// Our profile.
    pub fn with_most_bytes(mut self, most: usize) -> Page
        ensures { result ≡ self }
    {
        self.most = most;
        self
    }

    /// Lends the page's URL. Takes no memory.
    pub fn url(&self) -> &PageUrl
        ensures { result.now ≡ self.now.url }
    {
        &self.url
    }

    /// Lends the reader's request. Takes no memory.
    pub fn request(&self) -> &Request
        ensures { result.now ≡ self.now.request }
    {
        &self.request
    }

    /// How many levels are under the page. Takes no memory.
    pub fn levels(&self) -> u8
        ensures value { result ≡ self.now.levels }
        ensures limits { AreLevels result }
    {
        self.levels
    }

    /// How many slots posts may open ahead in all, which is what `accept` got. Takes no memory.
    ///
    /// Our profile.
    pub fn ahead(&self) -> u16
        ensures { result ≡ self.now.ahead }
    {
        self.ahead
    }

    /// How many slots there are, even on a page that is done or broken: at most one for the page, one
    /// for each leg that it may try, and those ahead. Takes no memory.
    ///
    /// Our profile.
    pub fn slots(&self) -> usize
        ensures value { result ≡ length self.now.board.slots }
        ensures few { result ≤ MAX_LEGS + 1 + self.now.ahead }
    {
        self.board.len()
    }

    /// How many steps of plans were made, at most `u64::MAX`. A step that stops at a URL counts once,
    /// when it goes on; on a page that is done the step that met one leg too many counts. A page
    /// without a plan makes none. Takes no memory.
    ///
    /// Our profile.
    pub fn steps(&self) -> u64
        ensures value { result ≡ self.now.steps }
        ensures done { (outcome : Shown) → self.now.standing ≡ Finished outcome → IsDone self.now.request self.now.levels self.now.url self.now.board result outcome }
    {
        self.progress.steps
    }

    /// How many answers are logged. Takes no memory.
    ///
    /// Our profile.
    pub fn posted(&self) -> usize
        ensures { result ≡ length self.now.board.filled }
    {
        self.board.filled().len()
    }

    /// Lends the answer with this number, from 0, in order of posting; `None` past the last. They are a
    /// legal log: the first is the page's own, no URL has two, and each other's is one that a `src` or
    /// an `alt` denotes in the template of an earlier one. Takes no memory.
    ///
    /// Our profile.
    pub fn logged(&self, i: usize) -> Option<&Arc<Answer>>
        ensures value { option_map arc_value (option_copied result) ≡ slice_get (log_of self.now.board) i }
        ensures legal { IsLegal self.now.request self.now.url (log_of self.now.board) }
    {
        filled_answer(&self.board, i)
    }

    /// Lends the answer of the leg at which the page failed, on a page that is done because an include failed: of all
    /// legs that it tried, this is the last. `None` if that leg asked for no answer, which one does whose URL can't be
    /// asked for, or that is a level too deep; and on any other page. Takes no memory.
    ///
    /// Source: ESI Language Specification 1.0, "include" and "try"; the order of legs is our profile.
    pub fn failed_leg(&self) -> Option<&Arc<Answer>>
        ensures failed { self.now.standing ≡ Finished (Fault IncludeFailed)
            → option_map arc_value (option_copied result) ≡ failed_answer self.now.request (log_of self.now.board) self.now.levels self.now.url }
        ensures others { IfSome result (λ _. self.now.standing ≡ Finished (Fault IncludeFailed)) }
    {
        let Stage::Done(outcome) = &self.stage else {
            return None;
        };
        if !outcome.has_failed() {
            return None;
        }
        match self.last {
            Some(number) => answer_in(&self.board, number),
            None => None,
        }
    }

    /// States what holds of every page, even one that was just taken from a lock: its log is legal, no
    /// URL has two slots, and if it is done its outcome is that over its own log, which has the answer
    /// of each URL that is asked for. Does nothing.
    ///
    /// Our profile.
    pub fn sound(&self)
        ensures { IsSound self.now }
    {
        let _ = &self.board;
    }

    /// Claims the first unclaimed slot, and returns its ticket; `None` if all are claimed, and
    /// once the page is done or broken. Takes no memory.
    ///
    /// Our profile.
    pub fn claim(&mut self) -> Option<Ticket>
        ensures claims { ClaimsOf self.old.standing self.old.board result self.new.board }
        ensures rest { self.new ≡ only_board self.old self.new.board }
        ensures one_page { IsOnePage self.old self.new }
        ensures log { log_of self.new.board ≡ log_of self.old.board }
    {
        match self.stage {
            Stage::Unread | Stage::Running => self.board.claim(),
            Stage::Done(_) | Stage::Broken => None,
        }
    }

    /// Takes an answer in. While the page isn't done, it opens slots ahead: for each leg of the posted
    /// template, in text order, whose URL has no slot, one level deeper, while the page has levels
    /// left there and there is room. On a page that is done it opens none and takes no memory.
    ///
    /// `Broken` on a broken page, else `Stranger`, `NotClaimed` or `Filled` as the board says, each of
    /// which hands the receipt back and changes nothing; else `NoMemory` if an allocation fails,
    /// after which the answer is in and the page is broken.
    ///
    /// Our profile.
    pub fn post(&mut self, receipt: Receipt) -> Result<(), PostFault>
        ensures ok { OnOk result (TakesIn self.old receipt self.new) }
        ensures refused { IfErr result (λ fault. Refuses fault self.old receipt self.new) }
        ensures one_page { IsOnePage self.old self.new }
        ensures for_good { (outcome : Shown) → self.old.standing ≡ Finished outcome → self.new.standing ≡ Finished outcome }
        ensures log { OnOk result (log_of self.new.board ≡ log_of self.old.board ++ receipt.answer ∷ []) }
    {
        if let Stage::Broken = self.stage {
            return Err(PostFault::Broken(receipt));
        }
        let number = match self.board.fill(receipt) {
            Ok(number) => number,
            Err((FillFault::Stranger, receipt)) => return Err(PostFault::Stranger(receipt)),
            Err((FillFault::NotClaimed, receipt)) => return Err(PostFault::NotClaimed(receipt)),
            Err((FillFault::Filled, receipt)) => return Err(PostFault::Filled(receipt)),
        };
        if let Stage::Done(_) = self.stage {
            return Ok(());
        }
        let filled = FilledSlot {
            request: &self.request,
            levels: self.levels,
            number,
        };
        let lookups = &mut self.progress.machine.lookups;
        match open_ahead(self.alloc, &filled, &mut self.board, self.room, lookups) {
            Ok(room) => {
                self.room = room;
                Ok(())
            }
            Err(NoMemory) => {
                self.stage = Stage::Broken;
                Err(PostFault::NoMemory)
            }
        }
    }

    /// Advances to where the page waits or is done, and reports it. A URL that is waited for and has no
    /// slot gets one.
    ///
    /// `Broken` on a broken page; `NoMemory` if an allocation fails, after which a page that wasn't
    /// done is broken. A page that is done stays so, with the same outcome.
    ///
    /// Source: ESI Language Specification 1.0, "ESI Language"; the order of answers and the limits are
    /// our profile.
    pub fn advance(&mut self) -> Result<State, PageError>
        ensures told { IfOk result (λ s. state self.new.request (log_of self.new.board) self.new.levels self.new.url ≡ told_state s) }
        ensures over_every_table { IfOk result (λ s. (table : List Answered) → Agrees (log_of self.new.board) table
            → IsTrueOver (log_of self.new.board) table self.new.request self.new.levels self.new.url (told_state s)) }
        ensures standing { IfOk result (λ s. self.new.standing ≡ standing_after s) }
        ensures done { (outcome : Shown) → self.old.standing ≡ Finished outcome → self.new ≡ self.old }
        ensures errs { IfErr result (λ e. Errs e self.old self.new) }
        ensures broken { self.old.standing ≡ Broken → result ≡ Err PageError.Broken }
        ensures log { log_of self.new.board ≡ log_of self.old.board }
        ensures same { (self.new.url ≡ self.old.url) × (self.new.request ≡ self.old.request) × (self.new.levels ≡ self.old.levels) × (self.new.room ≡ self.old.room) }
        ensures moves { IfOk result (λ s. Moves s self.old.levels (waits_at self.old.request (log_of self.old.board) self.old.levels self.old.url) self.old.board self.new.board) }
        ensures headline { IfOk result (λ s. TellsTheTruth self.new s) }
        ensures asked_alone { IfOk result (λ s. (table : List Answered) → AllByRecursion (SameReply (log_of self.new.board) table) (asked self.new.request (log_of self.new.board) self.new.levels self.new.url)
            → IsOutcomeOver table self.new s) }
        ensures appended { IfOk result (λ s. IsFilled self.old.board → HasAppended s self.old.board self.new.board) }
        ensures for_good { (outcome : Shown) → self.old.standing ≡ Finished outcome → IfOk result (λ s. told_state s ≡ Done outcome) }
        ensures one_page { IsOnePage self.old self.new }
    {
        match &self.stage {
            Stage::Broken => Err(PageError::Broken),
            Stage::Done(outcome) => known(outcome),
            _ => match self.proceed() {
                Ok(state) => Ok(state),
                Err(NoMemory) => Err(PageError::NoMemory),
            },
        }
    }

    // Goes on from where it stands; it is broken if an allocation fails.
    fn proceed(&mut self) -> Result<State, NoMemory>
        requires underway { self.old.standing ≡ Underway }
        ensures told { IfOk result (λ s. state self.new.request (log_of self.new.board) self.new.levels self.new.url ≡ told_state s) }
        ensures standing { IfOk result (λ s. self.new.standing ≡ standing_after s) }
        ensures broken { OnErr result (self.new.standing ≡ Broken) }
        ensures log { log_of self.new.board ≡ log_of self.old.board }
        ensures sound { IsBoard self.new.board }
        ensures one_page { IsOnePage self.old self.new }
        ensures room { self.new.room ≡ self.old.room }
        ensures headline { IfOk result (λ s. TellsTheTruth self.new s) }
        ensures appended { IfOk result (λ s. IsFilled self.old.board → HasAppended s self.old.board self.new.board) }
        ensures moves { IfOk result (λ s. Moves s self.old.levels (waits_at self.old.request (log_of self.old.board) self.old.levels self.old.url) self.old.board self.new.board) }
    {
        // Broken until all allocations have succeeded.
        let stage = mem::replace(&mut self.stage, Stage::Broken);
        let setting = Setting {
            alloc: self.alloc,
            request: &self.request,
            board: &self.board,
            most: self.most,
        };
        match run(&setting, &self.url, self.levels, &mut self.progress, &stage)? {
            Came::Unread => {
                let url = self.url.share()?;
                self.stage = Stage::Unread;
                Ok(State::Waiting(url))
            }
            Came::Waits(level, url) => {
                self.board
                    .open(&url, self.levels.saturating_sub(level) + 1)?;
                self.stage = Stage::Running;
                Ok(State::Waiting(url))
            }
            Came::Done(outcome) => {
                let outcome = SharedOutcome::new(self.alloc, outcome)?;
                let told = outcome.share()?;
                self.last = self.progress.machine.last;
                self.progress.machine = idle(self.alloc);
                self.stage = Stage::Done(outcome);
                Ok(State::Done(told))
            }
        }
    }
}

// Reports an outcome once more.
fn known(outcome: &SharedOutcome) -> Result<State, PageError>
    ensures told { IfOk result (λ s. told_state s ≡ Done outcome.now) }
    ensures standing { IfOk result (λ s. standing_after s ≡ Finished outcome.now) }
    ensures err { IfErr result (λ e. e ≡ PageError.NoMemory) }
{
    Ok(State::Done(outcome.share()?))
}

// Goes on from the stage that the page has reached.
fn run(
    setting: &Setting<'_>,
    url: &PageUrl,
    levels: u8,
    progress: &mut Progress,
    stage: &Stage,
) -> Result<Came, NoMemory>
    requires stage { IsStage setting.now.request.now levels url.now setting.now.board.now progress.old stage.now }
    requires underway { standing_of stage.now ≡ Underway }
    ensures { IfOk result (λ came. Comes setting.now.request.now levels url.now setting.now.board.now progress.new came) }
{
    match stage {
        Stage::Unread => begin_and_go_on(setting, url, levels, progress),
        Stage::Running => go_on(setting, url, levels, progress),
        Stage::Done(_) => unreachable!(),
        Stage::Broken => unreachable!(),
    }
}
