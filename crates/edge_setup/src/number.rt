//! The options that take a number. This is the one table of them.
ghost use Rattle.std.specs.Prelude.{◌≡◌, false, Some, slice_get};
ghost use Rattle.clap.specs.Words.{found_of, rows_of, rule_of};
ghost use Rattle.edge_setup.specs.Numbers.{number_in, numbers, numeric_option, place_of, row_of, said_of, shown};
ghost use Rattle.edge_setup.specs.Rules.{named_option};

use crate::options::option;
use crate::words::word_of;
use clap::{Arg, ArgMatches};
use edge_types::decimal_of;
use std::alloc::Global;

/// An option that takes a number.
#[derive(Clone, Copy, Debug, Drop, PartialEq, Eq)]
pub enum Number {
    /// The threads that may work for a page.
    Workers,
    /// The fetches that a page may have in flight.
    Fetches,
    /// How many slots posts may open ahead.
    Ahead,
    /// The levels of includes under a page.
    Levels,
    /// The answers that each shard of the cache keeps.
    Capacity,
    /// The bytes that an answer may have that is no template.
    BodyBytes,
    /// The bytes that a template may have.
    TemplateBytes,
    /// The bytes that a page may have; 0 means any number.
    PageBytes,
    /// The milliseconds that a fetch may take; 0 means no limit.
    Timeout,
    /// The milliseconds that a page may take until nothing more is fetched for it; 0 means no limit.
    PageTimeout,
    /// The idle connections that are kept to each address; 0 means that each fetch has its own.
    OriginKeepAlive,
    /// The fetches that may be in flight to each address; 0 means no bound.
    OriginFetches,
    /// The fetches to each address that may wait until one of those has ended.
    OriginQueue,
    /// The seconds for which an address isn't asked after five failures in succession; 0 means that it is asked on.
    OriginRest,
    /// The seconds between two look-ups of the names of origins that can't be reached; 0 means that there is none.
    OriginLookup,
    /// The seconds for which a URL that failed isn't asked again; 0 means that it is asked on.
    UrlRest,
    /// After how many connections the server ends.
    Accept,
    /// The milliseconds that a client may take; 0 means no limit.
    ClientTimeout,
    /// The seconds that a connection is kept for its client's next request; 0 means that none is kept.
    KeepAlive,
    /// The threads that serve clients; as many more may go on with those who were waited for.
    Threads,
    /// The connections that may be open at once.
    Connections,
}

/// What there is to say of such an option.
#[derive(Clone, Copy)]
pub(crate) struct NumberRow {
    /// Its name, without the dashes.
    pub name: &'static str,
    /// The smallest number that it takes.
    pub least: u64,
    /// The largest.
    pub most: u64,
    /// The word that counts where the option isn't there; without one, its number rests on other options.
    pub default: Option<&'static str>,
    /// What its number is, as help says it.
    pub help: &'static str,
    /// The line for a word that is no such number.
    pub refusal: &'static str,
}

// A row: its name, its limits, its default, what help says before and behind these limits, and what it takes.
macro_rules! row {
    ($name:literal, $least:literal, $most:literal, $default:expr, $help:literal, $more:literal, $takes:literal) => {
        NumberRow {
            name: $name,
            least: $least,
            most: $most,
            default: $default,
            help: concat!($help, ", from ", $least, " to ", $most, $more),
            refusal: concat!("error: --", $name, " takes ", $takes, " from ", $least, " to ", $most),
        }
    };
}

// The row of each.
const WORKERS: NumberRow = row!(
    "workers",
    1,
    16,
    Some("4"),
    "Threads that may fetch for a page",
    "",
    "a number"
);

const FETCHES: NumberRow = row!(
    "fetches",
    1,
    256,
    Some("1"),
    "Fetches that a page may have in flight",
    "; above 1 it holds no thread while it waits",
    "a number"
);

const AHEAD: NumberRow = row!(
    "ahead",
    0,
    256,
    None,
    "Fragments that may be fetched before it is known that they are needed",
    " [default: 16; 256 with --fetches above 1]",
    "a number"
);

const LEVELS: NumberRow = row!(
    "levels",
    1,
    8,
    Some("4"),
    "Levels of includes under a page",
    "",
    "a number"
);

const CAPACITY: NumberRow = row!(
    "capacity",
    1,
    1024,
    Some("128"),
    "Answers that each of 8 shards keeps",
    "",
    "a number"
);

const BODY_BYTES: NumberRow = row!(
    "body-bytes",
    262144,
    16777216,
    Some("262144"),
    "Bytes of an answer that is no template",
    "; a longer one can't be fetched",
    "a number"
);

const TEMPLATE_BYTES: NumberRow = row!(
    "template-bytes",
    262144,
    16777216,
    Some("262144"),
    "Bytes of a template",
    "; a longer one can't be fetched",
    "a number"
);

const PAGE_BYTES: NumberRow = row!(
    "page-bytes",
    0,
    4294967295,
    Some("0"),
    "Bytes that a page may have",
    "; a longer one is refused, 0 for no bound",
    "a number"
);

const TIMEOUT: NumberRow = row!(
    "timeout",
    0,
    86400000,
    Some("10000"),
    "Milliseconds that a fetch may take",
    "; 0 for no limit",
    "milliseconds,"
);

const PAGE_TIMEOUT: NumberRow = row!(
    "page-timeout",
    0,
    86400000,
    Some("0"),
    "Milliseconds after which nothing more is fetched for a page",
    "; 0 for no limit",
    "milliseconds,"
);

const ORIGIN_KEEP_ALIVE: NumberRow = row!(
    "origin-keep-alive",
    0,
    1024,
    Some("0"),
    "Idle connections that are kept to each origin's address",
    "; 0 to fetch once over each",
    "a number"
);

const ORIGIN_FETCHES: NumberRow = row!(
    "origin-fetches",
    0,
    65535,
    Some("0"),
    "Fetches that may be in flight to each origin's address",
    "; further ones wait, 0 for no bound",
    "a number"
);

const ORIGIN_QUEUE: NumberRow = row!(
    "origin-queue",
    0,
    65536,
    None,
    "Fetches over --origin-fetches that may wait for each origin's address",
    "; 0 to fail at once [default: --connections]",
    "a number"
);

const ORIGIN_REST: NumberRow = row!(
    "origin-rest",
    0,
    86400,
    Some("0"),
    "Seconds for which an origin isn't asked after five failures in succession",
    "; 0 to ask on",
    "seconds,"
);

const ORIGIN_LOOKUP: NumberRow = row!(
    "origin-lookup",
    0,
    86400,
    Some("0"),
    "Seconds between two look-ups of the names of origins that can't be reached",
    "; 0 for none",
    "seconds,"
);

const URL_REST: NumberRow = row!(
    "url-rest",
    0,
    86400,
    Some("0"),
    "Seconds for which a URL that failed isn't asked again, and its failing answer counts",
    "; 0 to ask on",
    "seconds,"
);

const ACCEPT: NumberRow = row!(
    "accept",
    0,
    18446744073709551615,
    None,
    "Connections after which the server ends",
    " [default: no end]",
    "a number"
);

const CLIENT_TIMEOUT: NumberRow = row!(
    "client-timeout",
    0,
    86400000,
    Some("60000"),
    "Milliseconds that a client may take",
    "; 0 for no limit",
    "milliseconds,"
);

const KEEP_ALIVE: NumberRow = row!(
    "keep-alive",
    0,
    86400,
    Some("0"),
    "Seconds that a connection is kept for its client's next request",
    "; 0 to serve one request each",
    "seconds,"
);

const THREADS: NumberRow = row!(
    "threads",
    1,
    64,
    Some("64"),
    "Threads that serve clients",
    "; up to as many more go on with those who were waited for",
    "a number"
);

const CONNECTIONS: NumberRow = row!(
    "connections",
    1,
    65536,
    Some("64"),
    "Connections that may be open at once",
    "; a client who is waited for holds no thread",
    "a number"
);

impl Number {
    /// All of them, in the order of the options.
    pub const ALL: [Number; 21] = [
        Number::Workers,
        Number::Fetches,
        Number::Ahead,
        Number::Levels,
        Number::Capacity,
        Number::BodyBytes,
        Number::TemplateBytes,
        Number::PageBytes,
        Number::Timeout,
        Number::PageTimeout,
        Number::OriginKeepAlive,
        Number::OriginFetches,
        Number::OriginQueue,
        Number::OriginRest,
        Number::OriginLookup,
        Number::UrlRest,
        Number::Accept,
        Number::ClientTimeout,
        Number::KeepAlive,
        Number::Threads,
        Number::Connections,
    ];

    // Its place in `ALL`.
    pub(crate) fn place(self) -> usize
        ensures place { result ≡ place_of self }
        ensures there { slice_get numbers result ≡ Some self }
    {
        self as usize
    }

    // Its row.
    pub(crate) fn row(self) -> NumberRow
        ensures { shown result ≡ row_of self }
    {
        match self {
            Number::Workers => WORKERS,
            Number::Fetches => FETCHES,
            Number::Ahead => AHEAD,
            Number::Levels => LEVELS,
            Number::Capacity => CAPACITY,
            Number::BodyBytes => BODY_BYTES,
            Number::TemplateBytes => TEMPLATE_BYTES,
            Number::PageBytes => PAGE_BYTES,
            Number::Timeout => TIMEOUT,
            Number::PageTimeout => PAGE_TIMEOUT,
            Number::OriginKeepAlive => ORIGIN_KEEP_ALIVE,
            Number::OriginFetches => ORIGIN_FETCHES,
            Number::OriginQueue => ORIGIN_QUEUE,
            Number::OriginRest => ORIGIN_REST,
            Number::OriginLookup => ORIGIN_LOOKUP,
            Number::UrlRest => URL_REST,
            Number::Accept => ACCEPT,
            Number::ClientTimeout => CLIENT_TIMEOUT,
            Number::KeepAlive => KEEP_ALIVE,
            Number::Threads => THREADS,
            Number::Connections => CONNECTIONS,
        }
    }

    /// The option, as `clap` takes it.
    pub(crate) fn arg<'a>(self, alloc: Global) -> Arg<'a>
        ensures rule { rule_of result ≡ numeric_option (row_of self) }
        ensures local { result.global ≡ false }
    {
        let row = self.row();
        let named = row.named(alloc);
        match row.default {
            Some(word) => named.default_value(word),
            None => named,
        }
    }

    /// What the matches say of it: `None` if that is no number within its limits.
    pub(crate) fn said(self, matches: &ArgMatches<'_>) -> Option<Option<u64>>
        ensures { result ≡ said_of (row_of self) (rows_of (found_of matches.now)) }
    {
        let row = self.row();
        match word_of(matches, row.name).or(row.default) {
            Some(word) => Some(Some(row.number_in(word)?)),
            None => Some(None),
        }
    }
}

impl NumberRow {
    // The option without a default.
    fn named<'a>(&self, alloc: Global) -> Arg<'a>
        ensures rule { rule_of result ≡ named_option self.now.name.now }
        ensures local { result.global ≡ false }
    {
        option(alloc, self.name, "N", self.help)
    }

    // The number that a word writes, where that is within the limits.
    fn number_in(&self, word: &str) -> Option<u64>
        ensures { result ≡ number_in self.now.least self.now.most word.now }
    {
        let number = decimal_of(word.as_bytes(), self.most)?;
        if self.least <= number {
            Some(number)
        } else {
            None
        }
    }
}
