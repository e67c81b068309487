//! Why a fetch got no answer.

ghost use Rattle.std.specs.Prelude.{◌≡◌};
ghost use Rattle.fetch_outcomes.specs.Names.{name_of};

/// Why a fetch got no answer.
///
/// Our profile.
#[derive(Clone, Copy, Debug, Drop, PartialEq, Eq)]
pub enum FetchFault {
    /// No origin has the URL's authority.
    NoOrigin,
    /// As many fetches from the origin as may be were under way.
    TooMany,
    /// The origin rests, since fetches didn't reach it.
    AtRest,
    /// The connection was refused or reset, or no way leads to the origin.
    Connect,
    /// The time was up.
    Timeout,
    /// The connection ended before the response did, or what came was no HTTP.
    Cut,
    /// The body is longer than that of an answer may be.
    TooLong,
    /// The body is coded, though nobody has asked for that.
    Coded,
    /// No answer may have the status of the response.
    Status,
    /// The fields for the page's reader are more than an answer may have.
    Fields,
}

impl FetchFault {
    /// The fault's name, in a word for logs and metrics. Takes no memory.
    pub fn name(self) -> &'static str
        ensures { result.now ≡ name_of self }
    {
        match self {
            FetchFault::NoOrigin => "no_origin",
            FetchFault::TooMany => "too_many",
            FetchFault::AtRest => "at_rest",
            FetchFault::Connect => "connect",
            FetchFault::Timeout => "timeout",
            FetchFault::Cut => "cut",
            FetchFault::TooLong => "too_long",
            FetchFault::Coded => "coded",
            FetchFault::Status => "status",
            FetchFault::Fields => "fields",
        }
    }
}
