//! Where origins listen, and which of them can't be reached. Clauses see the list of their standings.

ghost use Rattle.std.specs.Prelude.{◌≡◌, [], ◌++◌, ◌∷◌, OnOk};
ghost use Rattle.origin_lookup.specs.Standings as spec;

use std::alloc::{AllocError, Global};
use std::marker::Model;
use std::net::SocketAddr;

/// Where an origin listens, and whether a connection to it couldn't be made since that was known.
#[derive(Clone, Copy, Debug)]
struct Standing {
    address: SocketAddr,
    is_lost: bool,
}

/// Where each origin of an edge listens, and which of them can't be reached. An origin's place is that of its option
/// among all `--origin`, from 0.
#[derive(Drop)]
pub struct Standings {
    list: Vec<Standing>,
}

impl Model for Standings {
    ghost use Rattle.std.specs.Prelude.{List};
    ghost use Rattle.origin_lookup.specs.declared.standings.Standing.{Standing};

    ghost Value = { List Standing };

    ghost view = { λ s. s.list.items };
}

impl Standings {
    /// No origins.
    pub fn new(alloc: Global) -> Standings
        ensures { result ≡ [] }
    {
        Standings {
            list: Vec::new(alloc),
        }
    }

    /// Adds an origin that listens here and can be reached, behind all others.
    ///
    /// `AllocError` if there is no room for it; then nothing has changed.
    pub fn add(&mut self, address: SocketAddr) -> Result<(), AllocError>
        ensures { OnOk result (self.new ≡ self.old ++ spec.standing address ∷ []) }
    {
        let standing = Standing {
            address,
            is_lost: false,
        };
        match self.list.push(standing) {
            Ok(()) => Ok(()),
            Err(_) => Err(AllocError),
        }
    }

    /// Where the origin at this place listens; none if there is no such origin. Takes no memory.
    pub fn address_at(&self, place: usize) -> Option<SocketAddr>
        ensures { result ≡ spec.address_at self.now place }
    {
        match self.list.get(place) {
            Some(standing) => Some(standing.address),
            None => None,
        }
    }

    /// Whether the origin at this place can't be reached. Takes no memory.
    pub fn is_lost(&self, place: usize) -> bool
        ensures { result ≡ spec.is_lost_at self.now place }
    {
        match self.list.get(place) {
            Some(standing) => standing.is_lost,
            None => false,
        }
    }

    /// Whether some origin can't be reached. Takes no memory.
    pub fn has_lost(&self) -> bool
        ensures { result ≡ spec.has_lost self.now }
    {
        self.list.iter().any(|standing| standing.is_lost)
    }

    /// A connection to the origin at this place couldn't be made. Takes no memory.
    pub fn lose(&mut self, place: usize)
        ensures { self.new ≡ spec.lost place self.old }
    {
        let Some(standing) = self.list.get(place) else {
            return;
        };
        self.list[place] = Standing {
            address: standing.address,
            is_lost: true,
        };
    }

    /// The name of the origin at this place was looked up: it listens here, or the system knew no address, and where it
    /// listens stays. It isn't lost until a connection can't be made again. Takes no memory.
    pub fn looked_up(&mut self, place: usize, found: Option<SocketAddr>)
        ensures { self.new ≡ spec.looked_up place found self.old }
    {
        let Some(standing) = self.list.get(place) else {
            return;
        };
        self.list[place] = Standing {
            address: found.unwrap_or(standing.address),
            is_lost: false,
        };
    }
}
