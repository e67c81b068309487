//! What is asked of a server, as its parts take it.
ghost use Rattle.std.specs.Prelude.{◌≤◌};

use access_log::LogFormat;
use edge_connections::{Capacity, Limits};
use edge_setup::{Addresses, Flags, Origin, PrivateUrls};
use edge_types::HeadFields;
use fetch_workers::Assembling;
use origin_http::BodyLimits;
use origins::Bounds;
use std::time::Duration;

/// How origins are asked.
#[derive(Clone, Copy)]
pub struct Fetches {
    /// How long a fetch may take.
    pub limit: Option<Duration>,
    /// How many idle connections are kept to each address.
    pub idle: u16,
    /// When an address may be asked, where that is bounded.
    pub bounds: Option<Bounds>,
    /// How many may wait for a fetch that another page has begun, where that is bounded.
    pub crowd: Option<u32>,
    /// How many seconds lie between two look-ups of the names of origins that can't be reached; 0 where there is none.
    pub lookup: u32,
    /// For how many seconds a URL that failed isn't asked again.
    pub url_rest: u32,
    /// How long their bodies may be.
    pub bodies: BodyLimits,
}

/// What is asked of a server that is to run.
#[derive(Drop)]
pub struct ServerOptions {
    /// Where it listens, for clients and for its operator.
    pub addresses: Addresses,
    /// Which origins it asks.
    pub origins: Vec<Origin>,
    /// How it asks them.
    pub fetches: Fetches,
    /// The edge's name among others, where it has one.
    pub name: Option<Vec<u8>>,
    /// How long a client may take.
    pub clients: Limits,
    /// How pages are assembled.
    pub pages: Assembling,
    /// How long a page may take until nothing more is fetched for it.
    pub page: Option<Duration>,
    /// How many answers each shard of the cache keeps.
    pub capacity: usize,
    /// How many threads serve clients, and how many connections may be open at once.
    pub at_once: Capacity,
    /// After how many connections it ends.
    pub accept: u64,
    /// What is asked for by flags.
    pub flags: Flags,
    /// How requests are reported on standard error, where they are.
    pub log: Option<LogFormat>,
    /// The name of the field by which a trusted proxy names the client to log, where there is one.
    pub forwarded: Option<Vec<u8>>,
    /// The names of hosts by which its operator may ask, with commas between, where there are some.
    pub admin_hosts: Option<Vec<u8>>,
    /// The names of the fields of a page's own answer that reach its reader, with commas between, where there are some.
    pub pass_fields: Option<Vec<u8>>,
    /// The fields that each request to an origin carries.
    pub send_fields: HeadFields,
    /// What is one reader's own.
    pub private: PrivateUrls,
    ghost some_capacity: { 1 ≤ capacity },
    ghost few_capacity: { capacity ≤ 1024 },
}
