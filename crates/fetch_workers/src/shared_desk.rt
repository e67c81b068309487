//! A desk under its lock. Each call locks, makes one decision of the desk and unlocks; nothing is
//! fetched, made ready or copied under the lock.

ghost use Rattle.std.specs.Prelude.{◌<◌};
ghost use Rattle.std.specs.Sync.Mutex.{mutex_guard_value};
ghost use Rattle.plan_runner.specs.Sound.{IsSound};

use crate::desk::{Desk, NextTask};
use crate::fault::AssembleFault;
use answer_board::{Receipt, Ticket};
use edge_types::NoMemory;
use plan_runner::Page;
use std::alloc::Global;
use std::sync::{Condvar, Mutex, MutexGuard, Wait};

/// What the workers of a page share, given the runtime by which they wait.
pub(crate) trait Shared<R> {
    /// Ends the work for all.
    fn end(&self, rt: &R);

    /// Waits until there is something to do.
    fn wait_for_task(&self, rt: &R) -> NextTask;

    /// What there is to do now, without waiting.
    fn next_task(&self, rt: &R) -> NextTask;

    /// Posts an answer, and returns its place in the log.
    fn post(&self, rt: &R, receipt: Receipt) -> Result<usize, AssembleFault>;

    /// Leaves a ticket for a worker that has nothing else to do.
    fn set_aside(&self, rt: &R, ticket: Ticket) -> Result<(), NoMemory>;
}

#[derive(Drop)]
pub(crate) struct SharedDesk {
    desk: Mutex<Desk>,
    // Something on the desk has changed.
    moved: Condvar,
}

impl SharedDesk {
    pub(crate) fn new(alloc: Global, page: Page, workers: u8) -> SharedDesk
        requires { 0 < workers }
    {
        SharedDesk {
            desk: Mutex::new(Desk::new(alloc, page, workers)),
            moved: Condvar::new(),
        }
    }

    // The desk, once nobody else holds the lock. Its page is sound whenever the lock is got.
    fn lock<R: Wait>(&self, rt: &R) -> MutexGuard<'_, Desk>
        ensures { IsSound (mutex_guard_value result).page }
    {
        let desk = self.desk.lock(rt);
        desk.sound();
        desk
    }

    /// The page, once nobody works on it.
    pub(crate) fn into_page(self) -> Page {
        let SharedDesk { desk, moved: _ } = self;
        desk.into_inner().into_page()
    }
}

impl<R: Wait> Shared<R> for SharedDesk {
    fn end(&self, rt: &R) {
        self.lock(rt).end();
        self.moved.notify_all();
    }

    fn wait_for_task(&self, rt: &R) -> NextTask {
        let mut desk = self.lock(rt);
        for _ in rt.forever() {
            match desk.next_task() {
                NextTask::Sleep => {
                    desk.falls_asleep();
                    desk = self.moved.wait(rt, desk);
                    desk.wakes();
                }
                NextTask::End => {
                    drop(desk);
                    self.moved.notify_all();
                    return NextTask::End;
                }
                other => return other,
            }
        }
        unreachable!()
    }

    fn next_task(&self, rt: &R) -> NextTask {
        self.lock(rt).next_task()
    }

    fn post(&self, rt: &R, receipt: Receipt) -> Result<usize, AssembleFault> {
        let posted = self.lock(rt).post(receipt);
        self.moved.notify_all();
        posted
    }

    fn set_aside(&self, rt: &R, ticket: Ticket) -> Result<(), NoMemory> {
        let kept = self.lock(rt).set_aside(ticket);
        self.moved.notify_one();
        kept
    }
}
