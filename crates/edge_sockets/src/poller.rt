//! What a page waits in for the sockets of its fetches.

ghost use Rattle.std.specs.Prelude.{◌≡◌, ◌≢◌};
ghost use Rattle.edge_sockets.specs.declared.poller.Watched.TheVariants as tells;
ghost use Rattle.edge_sockets.specs.declared.readiness.Readiness.TheVariants as awaits;

use crate::bell::Bell;
use crate::readiness::Readiness;
use edge_types::NoMemory;
use futures::task::{Doorbell, Solo};
use libc::net::{
    EPOLL_CTL_ADD, EPOLL_CTL_DEL, EPOLL_CTL_MOD, EPOLLET, EPOLLIN, EPOLLOUT, EPOLLRDHUP,
};
use mio::{Poll, Token, Waker};
use os::EpollEvent;
use std::alloc::{AllocGlobal, Global};
use std::collections::VecDeque;
use std::io;
use std::net::Net;
use std::os::fd::{AsRawFd, RawFd};
use std::random::RandomSource;
use std::sync::{Mutex, Wait};

// How many sockets one wait tells of.
const AT_ONCE: usize = 32;

// What a wait tells of the bell: no fetch has this key.
const RUNG: usize = usize::MAX;

// How many pollers are kept that no page needs: each holds two descriptors.
const MOST_IDLE: usize = 256;

/// Waits for the sockets of one page's fetches, and polls their futures.
#[derive(Drop)]
pub struct Poller {
    watched: Poll,
    // By which a wait is ended from outside.
    bell: Bell,
    task: Solo,
}

/// What is told of a socket that is watched.
#[derive(Clone, Copy, Debug, PartialEq, Eq)]
pub enum Watched {
    /// Nothing: it isn't watched.
    Nothing,
    /// When input comes.
    Input,
    /// When input comes, and when there is room for output.
    InputAndRoom,
}

impl Watched {
    // What has to be told once that is awaited too.
    fn with(self, need: Readiness) -> Watched
        ensures told { result ≢ tells.Nothing }
        ensures room { need ≡ awaits.Writable → result ≡ tells.InputAndRoom }
        ensures stays { self ≡ tells.InputAndRoom → result ≡ tells.InputAndRoom }
    {
        match (self, need) {
            (Watched::InputAndRoom, _) | (_, Readiness::Writable) => Watched::InputAndRoom,
            (Watched::Nothing | Watched::Input, Readiness::Readable) => Watched::Input,
        }
    }

    // Told whenever the socket becomes ready, and once of what it is ready for now.
    fn events(self) -> u32 {
        match self {
            Watched::Nothing => 0,
            Watched::Input => EPOLLET | EPOLLIN | EPOLLRDHUP,
            Watched::InputAndRoom => EPOLLET | EPOLLIN | EPOLLRDHUP | EPOLLOUT,
        }
    }
}

impl Poller {
    fn new<R: Net + RandomSource + AllocGlobal>(rt: &R) -> io::Result<Poller> {
        let watched = Poll::new(rt)?;
        let waker = Waker::new(watched.registry(), Token(RUNG))?;
        Ok(Poller {
            watched,
            bell: Bell::new(rt.alloc(), waker)?,
            task: Solo::new(rt, Doorbell::spinning())?,
        })
    }

    /// What rings it; `None` where one more handle can't be made.
    pub fn bell(&self) -> Option<Bell> {
        self.bell.share().ok()
    }

    /// What is readable once a wait would end.
    pub fn descriptor(&self) -> RawFd {
        self.watched.as_raw_fd()
    }

    /// The task as which futures are polled.
    pub fn task(&self) -> &Solo {
        &self.task
    }

    /// Has waits tell a key once a socket is ready for that too; gives what is told from now on. `None` if the system
    /// refuses. Where that is told already, this takes no call.
    pub fn watch(
        &self,
        socket: RawFd,
        key: usize,
        watched: Watched,
        need: Readiness,
    ) -> Option<Watched> {
        let wanted = watched.with(need);
        if wanted == watched {
            return Some(wanted);
        }
        let operation = match watched {
            Watched::Nothing => EPOLL_CTL_ADD,
            Watched::Input | Watched::InputAndRoom => EPOLL_CTL_MOD,
        };
        self.control(operation, socket, wanted.events(), key)
            .then_some(wanted)
    }

    /// Waits tell nothing of a socket from now on. One that is closed needs no call.
    pub fn forget(&self, socket: RawFd) -> bool {
        self.control(EPOLL_CTL_DEL, socket, 0, 0)
    }

    fn control(&self, operation: i32, socket: RawFd, events: u32, key: usize) -> bool {
        let set = self.watched.as_raw_fd();
        os::epoll_ctl(set, operation, socket, events, key as u64) == 0
    }

    /// Waits until sockets are ready, at most so many milliseconds, or as long as it takes if below 0; appends their keys.
    pub fn wait(&self, millis: i32, ready: &mut VecDeque<usize>) -> Result<(), NoMemory> {
        let mut events = [EpollEvent { events: 0, data: 0 }; AT_ONCE];
        let count = os::epoll_wait(self.watched.as_raw_fd(), &mut events, millis);
        // Before anything can fail: a bell that isn't heard stays silent.
        if events[..count]
            .iter()
            .any(|event| event.data as usize == RUNG)
        {
            self.bell.heard();
        }
        for event in &events[..count] {
            let key = event.data as usize;
            if key != RUNG {
                ready.push_back(key)?;
            }
        }
        Ok(())
    }
}

/// Pollers that no page needs now. To make one takes descriptors and a call for random bytes, so it is kept.
#[derive(Drop)]
pub struct IdlePollers {
    free: Mutex<Vec<Poller>>,
}

impl IdlePollers {
    pub fn new(alloc: Global) -> IdlePollers {
        IdlePollers {
            free: Mutex::new(Vec::new(alloc)),
        }
    }

    /// A free poller, or a new one.
    pub fn take<R: Wait + Net + RandomSource + AllocGlobal>(&self, rt: &R) -> Option<Poller> {
        let free = self.free.lock(rt).pop();
        match free {
            Some(poller) => Some(poller),
            None => Poller::new(rt).ok(),
        }
    }

    /// Leaves a poller that watches no socket to the next page, where there is room to keep it.
    pub fn leave<R: Wait>(&self, rt: &R, poller: Poller) {
        let mut free = self.free.lock(rt);
        if free.len() < MOST_IDLE {
            let _ = free.push(poller);
        }
    }
}
