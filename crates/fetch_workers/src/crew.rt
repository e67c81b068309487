//! The threads of a page. Each starts at most one other at a time, and joins those that it started.

ghost use Rattle.std.specs.Prelude.{◌≡◌, ◌<◌, IfOk, IfErr};
ghost use Rattle.std.specs.Thread.{IsSync};
ghost use Rattle.fetch_workers.specs.Faults.{fault_of_both};
ghost use Rattle.fetch_workers.specs.Given.{AllOwn};

use crate::fault::AssembleFault;
use crate::log::Own;
use crate::shared_desk::Shared;
use crate::worker::Worker;
use answer_sources::{Answers, ConcurrentSource, Gate};
use std::marker::PhantomData;
use std::sync::Wait;
use std::thread;
use std::thread::{Promise, Scope, Threads};

/// The promise that a source gave each answer that a worker posted.
struct GivenBy<'a, R, S> {
    source: &'a S,
    runtime: PhantomData<R>,
}

impl<'a, R, S> Drop for GivenBy<'a, R, S> {
    fn drop(self) {
        let GivenBy {
            source: _,
            runtime: _,
        } = self;
    }
}

impl<'a, R, S: Answers<R>> Promise<Result<Vec<Own>, AssembleFault>> for GivenBy<'a, R, S> {
    ghost kept_by = { λ promise result. IfOk result (λ own. AllOwn (S.gives promise.source.now) own.items) };
}

impl<'s, R, S, G, D> Worker<'s, R, S, G, D>
where
    R: Wait + Threads + Sync,
    S: ConcurrentSource<R> + Sync,
    G: Gate<R> + Sync,
    D: Shared<R> + Sync,
{
    // Works in this thread, and starts at most `others` workers one after another, each of which does
    // the same. Returns what they all posted.
    #[cycle(helpers)]
    fn work_in<E>(self, scope: &'s Scope<'s, E>, others: u8) -> Result<Vec<Own>, AssembleFault>
        requires { IsSync R.row × IsSync S.row × IsSync G.row × IsSync D.row }
        ensures { IfOk result (λ own. AllOwn (S.gives self.entry.source.now) own.items) }
    {
        let mut mine = Vec::new(self.alloc);
        let worked = self.work(others, &mut mine);
        if worked.is_err() {
            self.shared.end(self.rt);
        }
        let Some(ticket) = worked? else {
            return Ok(mine);
        };
        let promise = GivenBy {
            source: self.source,
            runtime: PhantomData,
        };
        let helper = move || -> Result<Vec<Own>, AssembleFault>
            requires { IsSync R.row × IsSync S.row × IsSync G.row × IsSync D.row × (0 < others) }
            ensures { IfOk result (λ own. AllOwn (S.gives self.entry.source.now) own.items) }
        { self.work_in(scope, others - 1) };
        let Ok(child) = scope.spawn_with(promise, helper) else {
            ticket.give_up();
            self.shared.end(self.rt);
            return Err(AssembleFault::NoThread);
        };
        let rest = match self.fetch_one(ticket, &mut mine) {
            Ok(()) => {
                let more = self.work_in(scope, others - 1);
                both::<R, S>(self.source, Ok(mine), more)
            }
            Err(fault) => {
                self.shared.end(self.rt);
                Err(fault)
            }
        };
        both::<R, S>(self.source, rest, child.join(self.rt))
    }

    /// What this worker and those that it starts posted, at most so many with it; each of them has been joined.
    pub(crate) fn work_with_others(self, workers: u8) -> Result<Vec<Own>, AssembleFault>
        requires { 0 < workers }
        ensures { IfOk result (λ own. AllOwn (S.gives self.entry.source.now) own.items) }
    {
        // In parts: of a worker that a closure captures, its clause would tell nothing.
        let Worker {
            rt,
            alloc,
            source,
            gate,
            shared,
        } = self;
        thread::scope(
            thread::scope_env(),
            rt,
            |scope| -> Result<Vec<Own>, AssembleFault>
                requires { IsSync R.row × IsSync S.row × IsSync G.row × IsSync D.row × (0 < workers) }
                ensures { IfOk result (λ own. AllOwn (S.gives source.entry.now) own.items) }
            {
                let worker = Worker {
                    rt,
                    alloc,
                    source,
                    gate,
                    shared,
                };
                worker.work_in(scope, workers - 1)
            },
        )
    }
}

// What both posted, or the first of their faults; out of memory if there is no room for what both posted.
fn both<R, S: Answers<R>>(
    _source: &S,
    one: Result<Vec<Own>, AssembleFault>,
    other: Result<Vec<Own>, AssembleFault>,
) -> Result<Vec<Own>, AssembleFault>
    requires one { IfOk one (λ own. AllOwn (S.gives _source.now) own.items) }
    requires other { IfOk other (λ own. AllOwn (S.gives _source.now) own.items) }
    ensures given { IfOk result (λ own. AllOwn (S.gives _source.now) own.items) }
    ensures fault { IfErr result (λ fault. fault ≡ fault_of_both one other) }
{
    let (mut all, mut more) = match (one, other) {
        (Ok(all), Ok(more)) => (all, more),
        (Err(one), Err(other)) => return Err(one.or_earlier(other)),
        (Err(fault), Ok(_)) => return Err(fault),
        (Ok(_), Err(fault)) => return Err(fault),
    };
    match all.append(&mut more) {
        Ok(()) => Ok(all),
        Err(_) => Err(AssembleFault::NoMemory),
    }
}
