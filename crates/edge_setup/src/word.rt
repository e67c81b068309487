//! The options of `serve` that take a word. This is the one table of them.
ghost use Rattle.std.specs.Prelude.{◌≡◌, false, map, option_map};
ghost use Rattle.clap.specs.Words.{found_of, rows_of, rule_of};
ghost use Rattle.edge_setup.specs.Options.{all_words_said, shown, word_option, word_row, word_said};
ghost use Rattle.edge_setup.specs.Rules.{named_option};

use crate::options::option;
use crate::words::word_of;
use clap::{Arg, ArgAction, ArgMatches};
use std::alloc::Global;

/// An option that takes a word.
#[derive(Clone, Copy)]
pub(crate) enum Word {
    /// Where clients are served.
    Listen,
    /// An origin, and where it is asked.
    Origin,
    /// Where the operator is answered.
    Admin,
    /// The names of hosts by which the operator may ask.
    AdminHost,
    /// The format in which requests are reported.
    LogFormat,
    /// The field by which a trusted proxy names the client.
    Forwarded,
    /// The edge's name among others.
    Name,
    /// The names of the fields of a page's own answer that reach its reader.
    PassFields,
    /// A field that each request to an origin carries.
    SendFields,
    /// The prefixes of URLs whose answers are one reader's own.
    Private,
    /// The names of the cookies by which those are fetched.
    PrivateCookies,
    /// The names of the reader's fields that go with them.
    ForwardFields,
    /// The file of further options.
    Config,
}

/// How often an option may be given.
#[derive(Clone, Copy)]
pub(crate) enum Occurrence {
    /// It has to be there.
    Once,
    /// It may be left out.
    AtMostOnce,
    /// It may also be repeated.
    AnyTimes,
}

/// What there is to say of such an option.
#[derive(Clone, Copy)]
pub(crate) struct WordRow {
    /// Its name, without the dashes.
    pub name: &'static str,
    /// How often it may be given.
    pub occurs: Occurrence,
    /// What help calls its word.
    pub value: &'static str,
    /// What its word is, as help says it.
    pub help: &'static str,
}

// The row of each.
const LISTEN: WordRow = WordRow {
    name: "listen",
    occurs: Occurrence::Once,
    value: "ADDR",
    help: "Where to listen, as 127.0.0.1:8080; port 0 for a free one",
};

const ORIGIN: WordRow = WordRow {
    name: "origin",
    occurs: Occurrence::AnyTimes,
    value: "AUTHORITY=ADDR",
    help: "Address for requests to an authority; * for each that has no --origin of its own",
};

const ADMIN: WordRow = WordRow {
    name: "admin",
    occurs: Occurrence::AtMostOnce,
    value: "ADDR",
    help: "Where to answer the operator, as 127.0.0.1:9090: GET /, /health, /metrics; POST /purge, /stop",
};

const ADMIN_HOST: WordRow = WordRow {
    name: "admin-host",
    occurs: Occurrence::AtMostOnce,
    value: "NAMES",
    help: "Names of hosts, with commas between, by which the operator may ask at --admin besides IP addresses and localhost",
};

const LOG_FORMAT: WordRow = WordRow {
    name: "log-format",
    occurs: Occurrence::AtMostOnce,
    value: "FORMAT",
    help: "Reports each request on standard error in this format: line, combined or json",
};

const FORWARDED: WordRow = WordRow {
    name: "forwarded",
    occurs: Occurrence::AtMostOnce,
    value: "FIELD",
    help: "Field by which a trusted proxy names the client to report, as x-forwarded-for",
};

const NAME: WordRow = WordRow {
    name: "name",
    occurs: Occurrence::AtMostOnce,
    value: "TOKEN",
    help: "The edge's name: a request that has passed it before is refused",
};

const PASS_FIELDS: WordRow = WordRow {
    name: "pass-fields",
    occurs: Occurrence::AtMostOnce,
    value: "NAMES",
    help: "Names of fields, with commas between, that a page's reader gets from the answer of the page itself",
};

const SEND_FIELDS: WordRow = WordRow {
    name: "send-fields",
    occurs: Occurrence::AnyTimes,
    value: "FIELD",
    help: "Field that each request to an origin carries, as 'x-forwarded-proto: https'; once for each",
};

const PRIVATE: WordRow = WordRow {
    name: "private",
    occurs: Occurrence::AtMostOnce,
    value: "PREFIXES",
    help: "URL prefixes, with commas between, whose answers are one reader's own: never kept, and fetched with --private-cookies",
};

const PRIVATE_COOKIES: WordRow = WordRow {
    name: "private-cookies",
    occurs: Occurrence::AtMostOnce,
    value: "NAMES",
    help: "Names of a reader's cookies, with commas between, that fetches of --private URLs carry",
};

const FORWARD_FIELDS: WordRow = WordRow {
    name: "forward-fields",
    occurs: Occurrence::AtMostOnce,
    value: "NAMES",
    help: "Names of a reader's fields, with commas between, that fetches of --private URLs carry",
};

const CONFIG: WordRow = WordRow {
    name: "config",
    occurs: Occurrence::AtMostOnce,
    value: "FILE",
    help: "TOML file of further options, by their names; what stands on the command line wins",
};

impl Word {
    /// All of them, in the order of the options.
    pub const ALL: [Word; 13] = [
        Word::Listen,
        Word::Origin,
        Word::Admin,
        Word::AdminHost,
        Word::LogFormat,
        Word::Forwarded,
        Word::Name,
        Word::PassFields,
        Word::SendFields,
        Word::Private,
        Word::PrivateCookies,
        Word::ForwardFields,
        Word::Config,
    ];

    // Its row.
    fn row(self) -> WordRow
        ensures { shown result ≡ word_row self }
    {
        match self {
            Word::Listen => LISTEN,
            Word::Origin => ORIGIN,
            Word::Admin => ADMIN,
            Word::AdminHost => ADMIN_HOST,
            Word::LogFormat => LOG_FORMAT,
            Word::Forwarded => FORWARDED,
            Word::Name => NAME,
            Word::PassFields => PASS_FIELDS,
            Word::SendFields => SEND_FIELDS,
            Word::Private => PRIVATE,
            Word::PrivateCookies => PRIVATE_COOKIES,
            Word::ForwardFields => FORWARD_FIELDS,
            Word::Config => CONFIG,
        }
    }

    /// The option, as `clap` takes it.
    pub(crate) fn arg<'a>(self, alloc: Global) -> Arg<'a>
        ensures rule { rule_of result ≡ word_option (word_row self) }
        ensures local { result.global ≡ false }
    {
        let row = self.row();
        let named = row.named(alloc);
        match row.occurs {
            Occurrence::Once => named.required(true),
            Occurrence::AtMostOnce => named,
            Occurrence::AnyTimes => named.action(ArgAction::Append),
        }
    }

    /// Its word, where it is there.
    pub(crate) fn said<'a>(self, matches: &ArgMatches<'a>) -> Option<&'a str>
        ensures { option_map (λ word. word.now) result ≡ word_said self (rows_of (found_of matches.now)) }
    {
        word_of(matches, self.row().name)
    }

    /// All its words, where it is there.
    pub(crate) fn all_said<'b, 'a>(self, matches: &'b ArgMatches<'a>) -> Option<&'b [&'a str]>
        ensures { option_map (λ words. map (λ word. word.now) words.now) result ≡ all_words_said self (rows_of (found_of matches.now)) }
    {
        matches.get_raw(self.row().name)
    }
}

impl WordRow {
    // The option, where it may be given at most once.
    fn named<'a>(&self, alloc: Global) -> Arg<'a>
        ensures rule { rule_of result ≡ named_option self.now.name.now }
        ensures local { result.global ≡ false }
    {
        option(alloc, self.name, self.value, self.help)
    }
}
