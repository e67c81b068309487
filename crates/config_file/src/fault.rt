//! What may be wrong with a configuration file.

ghost use Rattle.std.specs.Prelude.{◌≡◌};
ghost use Rattle.config_file.specs.Reasons.{words_of};

/// Why a line is refused.
#[derive(Clone, Copy, Drop, PartialEq, Eq)]
pub enum Reason {
    /// It isn't a line of TOML by itself.
    Form,
    /// It begins a table other than `[origins]`.
    Header,
    /// Its key has a dot that isn't in quotes, or its value is a table.
    Table,
    /// No option has this name.
    Unknown,
    /// The option belongs on the command line.
    OfLine,
    /// Origins are rows of `[origins]`.
    Origin,
    /// A flag's value is neither `true` nor `false`.
    NoFlag,
    /// The value is neither a string nor an integer.
    NoWord,
    /// An element of the list is no string.
    NoList,
    /// The name stands in an earlier line.
    Twice,
}

impl Reason {
    /// The reason in words.
    pub fn words(self) -> &'static str
        ensures { result.now ≡ words_of self }
    {
        match self {
            Reason::Form => "isn't TOML of one line: NAME = VALUE, [origins] or a comment",
            Reason::Header => "the only table is [origins]",
            Reason::Table => "takes no table; a name with a dot stands in quotes, as \"a.test\"",
            Reason::Unknown => "no option of serve has this name",
            Reason::OfLine => "belongs on the command line",
            Reason::Origin =>
                "an origin is a row of the table [origins], as \"a.test\" = \"127.0.0.1:8080\"",
            Reason::NoFlag => "takes true or false",
            Reason::NoWord => "takes a string or an integer",
            Reason::NoList => "takes a string, or a list of strings",
            Reason::Twice => "stands in an earlier line too",
        }
    }
}

/// The first line of a file that is refused.
#[derive(Drop)]
pub struct ConfigFault {
    /// Its number, from 1.
    pub line: usize,
    /// The name that stands there; empty where none can be read.
    pub name: String,
    /// Why it is refused.
    pub reason: Reason,
}
