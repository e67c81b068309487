//! The options of `serve` without a value. This is the one table of them.
ghost use Rattle.std.specs.Prelude.{◌≡◌, false};
ghost use Rattle.clap.specs.Words.{found_of, rows_of, rule_of};
ghost use Rattle.edge_setup.specs.Options.{flag_name, flag_place, is_flag_set};
ghost use Rattle.edge_setup.specs.Rules.{named_flag};

use crate::options::flag;
use crate::words::{is_set, word_of};
use clap::{Arg, ArgMatches};
use std::alloc::Global;

/// An option without a value.
#[derive(Clone, Copy)]
pub enum Flag {
    /// HEAD is answered like GET, without the body.
    Head,
    /// A client that has ended its input has left.
    AbortOnClose,
    /// Answers are kept as `Cache-Control` asks where `Surrogate-Control` says nothing of it.
    CacheControl,
    /// Pages are made of errors that are templates.
    ProcessErrors,
    /// Pages have entity tags, and aren't sent to clients that have them already.
    Etag,
    /// The server stops once standard input has ended.
    StopWithInput,
    /// Each request is reported on standard error.
    Log,
    /// The options that hold are printed.
    PrintConfig,
}

/// What there is to say of such an option.
#[derive(Clone, Copy)]
pub(crate) struct FlagRow {
    /// Its name, without the dashes.
    pub name: &'static str,
    /// What it does, as help says it.
    pub help: &'static str,
}

// The row of each.
const HEAD: FlagRow = FlagRow {
    name: "head",
    help: "Answers HEAD like GET, without the body",
};

const ABORT_ON_CLOSE: FlagRow = FlagRow {
    name: "abort-on-close",
    help: "Fetches nothing more for a client that has ended its input",
};

const CACHE_CONTROL: FlagRow = FlagRow {
    name: "cache-control",
    help: "Keeps answers as Cache-Control asks where Surrogate-Control doesn't say for how long",
};

const PROCESS_ERRORS: FlagRow = FlagRow {
    name: "process-errors",
    help: "Makes a page of its own answer under status 400 to 599 too, where that is a template",
};

const ETAG: FlagRow = FlagRow {
    name: "etag",
    help: "Gives pages an ETag, and answers 304 where If-None-Match has it",
};

const STOP_WITH_INPUT: FlagRow = FlagRow {
    name: "stop-with-input",
    help: "Stops once standard input has ended: accepts nobody more, and ends what is under way",
};

const LOG: FlagRow = FlagRow {
    name: "log",
    help: "Reports each request on standard error",
};

const PRINT_CONFIG: FlagRow = FlagRow {
    name: "print-config",
    help: "Prints the options that hold, as such a file, and ends",
};

impl Flag {
    /// All of them, in the order of the options.
    pub const ALL: [Flag; 8] = [
        Flag::Head,
        Flag::AbortOnClose,
        Flag::CacheControl,
        Flag::ProcessErrors,
        Flag::Etag,
        Flag::StopWithInput,
        Flag::Log,
        Flag::PrintConfig,
    ];

    // Its place in `ALL`.
    pub(crate) fn place(self) -> usize
        ensures { result ≡ flag_place self }
    {
        self as usize
    }

    // Its row.
    fn row(self) -> FlagRow
        ensures { result.name.now ≡ flag_name self }
    {
        match self {
            Flag::Head => HEAD,
            Flag::AbortOnClose => ABORT_ON_CLOSE,
            Flag::CacheControl => CACHE_CONTROL,
            Flag::ProcessErrors => PROCESS_ERRORS,
            Flag::Etag => ETAG,
            Flag::StopWithInput => STOP_WITH_INPUT,
            Flag::Log => LOG,
            Flag::PrintConfig => PRINT_CONFIG,
        }
    }

    /// The option, as `clap` takes it.
    pub(crate) fn arg<'a>(self, alloc: Global) -> Arg<'a>
        ensures rule { rule_of result ≡ named_flag (flag_name self) }
        ensures local { result.global ≡ false }
    {
        self.row().named(alloc)
    }

    /// Whether the matches set it.
    pub(crate) fn is_set(self, matches: &ArgMatches<'_>) -> bool
        ensures { result ≡ is_flag_set self (rows_of (found_of matches.now)) }
    {
        is_set(word_of(matches, self.row().name))
    }
}

impl FlagRow {
    // The option.
    fn named<'a>(&self, alloc: Global) -> Arg<'a>
        ensures rule { rule_of result ≡ named_flag self.now.name.now }
        ensures local { result.global ≡ false }
    {
        flag(alloc, self.name, self.help)
    }
}
