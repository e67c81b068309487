//! For how many connections the system lets a server have descriptors.
ghost use Rattle.std.specs.Prelude.{◌≡◌, ◌≤◌, ◌<◌, max};
ghost use Rattle.edge_parts.specs.OpenFiles as spec;

use crate::server_options::ServerOptions;
use libc::RLIMIT_NOFILE;
use libc::types::rlimit;

/// The descriptors of the process itself: standard streams, what accepts and what waits.
const OWN: u64 = 32;

/// The descriptors of what waits for a fetch: the fetch's socket, and two by which the wait ends.
const OF_A_WAIT: u64 = 3;

/// How many of something a server may have, by its options.
#[derive(Clone, Copy, Drop)]
pub struct Numbers {
    /// `--connections`.
    pub connections: u32,
    /// `--threads`.
    pub threads: u16,
    /// `--workers`.
    pub workers: u8,
    /// `--fetches`.
    pub fetches: u16,
}

impl Numbers {
    /// The numbers that are asked for.
    pub fn of(options: &ServerOptions) -> Numbers
        ensures { spec.AreOf options.now result }
    {
        Numbers {
            connections: options.at_once.connections,
            threads: options.at_once.threads,
            workers: options.pages.workers,
            fetches: options.pages.fetches,
        }
    }

    /// How many descriptors so many connections may need: each has its socket, and its page a fetch's and two by which a
    /// thread is told that it may go on; where the page holds its thread, each of its workers has these.
    pub fn needed(self, connections: u32) -> u64
        ensures { result ≡ spec.needed self connections }
    {
        let connections = u64::from(connections);
        if self.fetches == 1 {
            let holding = connections.min(2 * u64::from(self.threads));
            OWN + connections + OF_A_WAIT * u64::from(self.workers) * holding
        } else {
            OWN + connections + OF_A_WAIT * connections
        }
    }

    /// How many connections may be open at once where no more descriptors than these may be: as many as are asked for, or
    /// as many of them as have room; one, even if that has none.
    pub fn room(self, limit: u64) -> u32
        ensures { spec.IsRoom self limit result }
    {
        if self.connections <= 1 || self.needed(self.connections) <= limit {
            return self.connections.max(1);
        }
        let mut room = 1;
        let mut beyond = self.connections;
        while beyond - room > 1 {
            let between = room + (beyond - room) / 2;
            if self.needed(between) <= limit {
                room = between;
            } else {
                beyond = between;
            }
        }
        room
    }
}

/// How many descriptors the process may have open; `None` if the system doesn't say.
pub(crate) fn open_files_limit() -> Option<u64> {
    let mut limit = rlimit {
        rlim_cur: 0,
        rlim_max: 0,
    };
    if libc::getrlimit(RLIMIT_NOFILE, &mut limit) == 0 {
        Some(limit.rlim_cur)
    } else {
        None
    }
}
