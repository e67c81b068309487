//! Where fetches of one page meet.

use answer_sources::{Answers, Gate, Given, Source, TableSource};
use edge_types::{NoMemory, PageUrl};
use std::alloc::Global;
use std::sync::atomic::{AtomicU64, Ordering};
use std::thread;
use std::time::{Clock, Duration};

// Each fetch of a fragment whose URL ends so waits until this many have come, the page's own among them, for at
// least this many milliseconds. A turn that is only yielded may take milliseconds on a busy machine, so turns
// can't be counted instead.
#[derive(Drop)]
pub(crate) struct Meeting {
    held: &'static str,
    wanted: u64,
    millis: u64,
    came: AtomicU64,
    gave_up: AtomicU64,
}

impl Meeting {
    pub(crate) fn of(held: &'static str, wanted: u64, millis: u64) -> Meeting {
        Meeting {
            held,
            wanted,
            millis,
            came: AtomicU64::new(0),
            gave_up: AtomicU64::new(0),
        }
    }

    // How many fetches came, and how many of them passed without the others.
    pub(crate) fn counts(&self) -> (u64, u64) {
        (
            self.came.load(Ordering::SeqCst),
            self.gave_up.load(Ordering::SeqCst),
        )
    }
}

impl<R: Clock> Gate<R> for Meeting {
    fn before_fetch(&self, rt: &R, url: &PageUrl) {
        self.came.fetch_add(1, Ordering::SeqCst);
        if url.as_bytes().ends_with(b"/p") || !url.as_bytes().ends_with(self.held.as_bytes()) {
            return;
        }
        for _ in 0..self.millis {
            if self.came.load(Ordering::SeqCst) >= self.wanted {
                return;
            }
            thread::sleep(rt, Duration::from_millis(1));
        }
        self.gave_up.fetch_add(1, Ordering::SeqCst);
    }
}

// A table whose fetches meet.
#[derive(Drop)]
pub(crate) struct Held<'a> {
    pub(crate) table: TableSource,
    pub(crate) meeting: &'a Meeting,
}

impl<R: Clock> Answers<R> for Held<'_> {
    ghost use Rattle.std.specs.Prelude.{◌≡◌, false};

    ghost gives = { λ held url answer. answer.url ≡ url };

    ghost names_url = { λ held url answer given. given };

    ghost private = { λ _ _. false };

    fn is_private(&self, _url: &PageUrl) -> bool {
        false
    }
}

impl<R: Clock> Source<R> for Held<'_> {
    fn fetch(&self, rt: &R, alloc: Global, url: &PageUrl) -> Result<Given, NoMemory> {
        self.meeting.before_fetch(rt, url);
        self.table.fetch(rt, alloc, url)
    }
}
