//! Where origins listen: of those that are named, by the addresses that the system knows, at the start and, if that is asked
//! for, once they can't be reached.

use edge_commands::Status;
use edge_setup::{Origin, Place};
use edge_types::NoMemory;
use origin_lookup::{SharedStandings, Standings};
use std::alloc::{AllocGlobal, Global};
use std::io::Eprint;
use std::net::{Net, SocketAddr, ToSocketAddrs};
use std::sync::{Arc, Wait};
use std::time::{Clock, Duration};
use std::{io, str};

/// Origins with the addresses at which they listen now, and their places as the options name them.
#[derive(Drop)]
pub(crate) struct Known {
    /// As they are asked.
    pub origins: Vec<origins::Origin>,
    /// What the options say of that.
    pub places: Vec<Place>,
}

impl Known {
    /// Where these origins listen now. Refused if the system knows no address of a host, which is reported, or if there is
    /// no memory.
    pub(crate) fn now<R>(rt: &R, origins: Vec<Origin>) -> Result<Known, Status>
    where
        R: AllocGlobal + Net + Eprint,
    {
        let mut known = Known::with_room_for(rt.alloc(), origins.len())?;
        for origin in origins {
            let Origin { authority, place } = origin;
            let address = address_of(rt, &place)?;
            known.add(origins::Origin { authority, address }, place)?;
        }
        Ok(known)
    }

    // None, with room for so many.
    fn with_room_for(alloc: Global, count: usize) -> Result<Known, NoMemory> {
        Ok(Known {
            origins: Vec::with_capacity(alloc, count)?,
            places: Vec::with_capacity(alloc, count)?,
        })
    }

    fn add(&mut self, origin: origins::Origin, place: Place) -> Result<(), NoMemory> {
        self.origins.push(origin)?;
        self.places.push(place)?;
        Ok(())
    }
}

// Where an origin listens: of a host that is named, the first address that the system knows now. Reports a host that has
// none.
fn address_of<R: Net + Eprint>(rt: &R, place: &Place) -> Result<SocketAddr, Status> {
    match found(rt, place) {
        Ok(Some(address)) => Ok(address),
        Err(error) if error.kind() == io::ErrorKind::OutOfMemory => Err(Status::NoMemory),
        Ok(None) | Err(_) => Err(unknown(rt, place)),
    }
}

// Where an origin listens, as far as the system knows.
fn found<R: Net>(rt: &R, place: &Place) -> io::Result<Option<SocketAddr>> {
    match place {
        Place::Address(address) => Ok(Some(*address)),
        Place::Host(host, port) => {
            Ok((text(host.as_slice()), *port).to_socket_addrs(rt)?.next())
        }
    }
}

// Reports the host that has no address.
fn unknown(rt: &impl Eprint, place: &Place) -> Status {
    if let Place::Host(host, _) = place {
        let host = text(host.as_slice());
        // If standard error can't be written, only the status says it.
        let _ = eprintln!(rt; "error: --origin: the system knows no address of {host}");
    }
    Status::UnknownHost
}

// The printable form of the name of a host.
fn text(bytes: &[u8]) -> &str {
    match str::from_utf8(bytes) {
        Ok(text) if !text.is_empty() => text,
        _ => "-",
    }
}

/// What looks the names of origins up again that can't be reached.
#[derive(Drop)]
pub struct Lookups {
    // Of each origin, in the order of the options.
    places: Vec<Place>,
    standings: Arc<SharedStandings>,
    // How long lies between two rounds of look-ups.
    rest: Duration,
}

impl Lookups {
    /// Look-ups of these origins at these places, with so many seconds between two. Refused if there is no memory.
    pub(crate) fn of(
        alloc: Global,
        places: Vec<Place>,
        origins: &[origins::Origin],
        seconds: u32,
    ) -> Result<Lookups, NoMemory> {
        let mut standings = Standings::new(alloc);
        for origin in origins {
            standings.add(origin.address)?;
        }
        Ok(Lookups {
            places,
            standings: Arc::new(alloc, SharedStandings::new(standings))?,
            rest: Duration::from_secs(u64::from(seconds)),
        })
    }

    /// One more owner of where the origins listen.
    pub(crate) fn standings(&self) -> Result<Arc<SharedStandings>, NoMemory> {
        Ok(Arc::try_clone(&self.standings)?)
    }

    /// Looks up what can't be reached, in rounds, until it is ended.
    pub fn run<R: Net + Wait + Clock>(&self, rt: &R) {
        for _ in rt.forever() {
            if !self.standings.waits_for_lost(rt) {
                return;
            }
            self.look_up_lost(rt);
            self.standings.rest(rt, self.rest);
        }
    }

    // Looks up each origin that can't be reached. One whose look-up fails stays where it was.
    fn look_up_lost<R: Net + Wait>(&self, rt: &R) {
        for (i, place) in self.places.iter().enumerate() {
            if self.standings.is_lost(rt, i) {
                let found = found(rt, place).unwrap_or(None);
                self.standings.looked_up(rt, i, found);
            }
        }
    }

    /// Nothing more is looked up.
    pub fn end<R: Wait>(&self, rt: &R) {
        self.standings.close(rt);
    }
}
