//! The setup of a server.

ghost use Rattle.std.specs.Prelude.{◌≡◌};
ghost use Rattle.edge_setup.specs.Words.{refusal_of};
ghost use Rattle.edge_setup.specs.declared.setup.SetupFault.TheVariants as fault;

use crate::flags::Flags;
use crate::number::Number;
use crate::numbers::Numbers;
use crate::origin::{OriginFault, Place};
use access_log::LogFormat;
use edge_types::{HeadFields, NoMemory, PageUrl};
use std::alloc::AllocError;
use std::net::SocketAddr;

/// An authority, and where it is asked.
#[derive(Drop)]
pub struct Origin {
    /// The host, with `:port` where that isn't 80, as URLs have it; or `*` for every other authority.
    pub authority: Vec<u8>,
    /// Where it listens.
    pub place: Place,
}

/// Where a server listens.
#[derive(Clone, Copy)]
pub struct Addresses {
    /// For its clients.
    pub listen: SocketAddr,
    /// For its operator, where it answers one.
    pub admin: Option<SocketAddr>,
}

/// What the words of `serve` ask for.
#[derive(Drop)]
pub struct Setup {
    /// Where the server listens.
    pub addresses: Addresses,
    /// The origins, no two with the same authority.
    pub origins: Vec<Origin>,
    /// The numbers of the options.
    pub numbers: Numbers,
    /// What is asked for by flags.
    pub flags: Flags,
    /// How each request is reported on standard error, where it is.
    pub log: Option<LogFormat>,
    /// The edge's name among others, a token of at most 64 bytes, where it has one.
    pub name: Option<Vec<u8>>,
    /// The name of the field by which a trusted proxy names the client, a token of at most 64 bytes, where there is one.
    pub forwarded: Option<Vec<u8>>,
    /// The names of hosts by which the operator may ask, with commas between, where there are some.
    pub admin_hosts: Option<Vec<u8>>,
    /// The names of the fields of a page's own answer that reach its reader, with commas between and blanks around them, where
    /// there are some.
    pub pass_fields: Option<Vec<u8>>,
    /// The fields that each request to an origin carries.
    pub send_fields: HeadFields,
    /// What is one reader's own.
    pub private: PrivateUrls,
}

/// The URLs whose answers are one reader's own, and what of the reader goes with their fetches.
#[derive(Drop)]
pub struct PrivateUrls {
    /// Their prefixes, each with a `/` at its end and no query.
    pub prefixes: Vec<PageUrl>,
    /// The names of his cookies, with commas between and blanks around them, where there are some.
    pub cookies: Option<Vec<u8>>,
    /// The names of his fields, in lower case, with commas between and blanks around them, where there are some.
    pub fields: Option<Vec<u8>>,
}

/// The options of `serve` whose values may be invalid.
#[derive(Clone, Copy, Drop, PartialEq, Eq)]
pub enum Named {
    /// `--listen`: not an address.
    Listen,
    /// `--admin`: not an address.
    Admin,
    /// `--origin`: this is wrong with its words.
    Origin(OriginFault),
    /// One that takes a number: not one within its limits.
    Number(Number),
    /// `--log-format`: not the name of a format.
    LogFormat,
    /// `--name`: not a token, or too long.
    Name,
    /// `--forwarded`: not the name of a field, or too long.
    Forwarded,
    /// `--admin-host`: not names of hosts, or nowhere to ask by them.
    AdminHost,
    /// `--pass-fields`: not names of fields that may be passed.
    PassFields,
    /// `--send-fields`: not fields that requests may carry, or too many.
    SendFields,
    /// `--private`: not prefixes of URLs.
    Private,
    /// `--private-cookies`: not names of cookies, or no URLs to fetch with them.
    PrivateCookies,
    /// `--forward-fields`: not names of fields that may be told, or no URLs to fetch with them.
    ForwardFields,
}

impl Named {
    /// The line for its words, where they are no use.
    pub fn refusal(self) -> &'static str
        ensures { result.now ≡ refusal_of self }
    {
        match self {
            Named::Listen => "error: --listen takes an address with a port, as 127.0.0.1:8080",
            Named::Admin => "error: --admin takes an address with a port, as 127.0.0.1:9090",
            Named::Origin(fault) => fault.refusal(),
            Named::Number(number) => number.row().refusal,
            Named::LogFormat => "error: --log-format takes line, combined or json",
            Named::Name =>
                "error: --name takes 1 to 64 letters, digits and marks of a token, as edge-1",
            Named::Forwarded => "error: --forwarded takes the name of a field, as x-forwarded-for",
            Named::AdminHost =>
                "error: --admin-host takes names of hosts with commas between, as edge.internal,edge-1, beside --admin",
            Named::PassFields =>
                "error: --pass-fields takes field names with commas between, as location,cache-control, none of a connection, of a body's length, type or coding, nor set-cookie without --private",
            Named::SendFields =>
                "error: --send-fields takes a field with a value, as x-forwarded-proto: https, and at most 8192 bytes of fields; none that the edge sets, nor one of a connection, a body, a condition or a range",
            Named::Private =>
                "error: --private takes URL prefixes with commas between, as http://shop.test/box/, each with its host and a / at its end",
            Named::PrivateCookies =>
                "error: --private-cookies takes names of cookies with commas between, as SHOPSESS, beside --private",
            Named::ForwardFields =>
                "error: --forward-fields takes names of fields with commas between, as x-forwarded-for,user-agent, beside --private; none that the edge sets, nor one of a connection, a body, a condition or a range",
        }
    }
}

/// Why the words of `serve` are refused.
#[derive(Clone, Copy, Drop, PartialEq, Eq)]
pub enum SetupFault {
    /// The value of this option is invalid.
    Wrong(Named),
    /// An allocation failed.
    NoMemory,
}

impl From<Named> for SetupFault {
    ghost from_gives = { λ named refusal. refusal ≡ fault.Wrong named };

    fn from(named: Named) -> SetupFault {
        SetupFault::Wrong(named)
    }
}

impl From<AllocError> for SetupFault {
    ghost from_gives = { λ _ refusal. refusal ≡ fault.NoMemory };

    fn from(_: AllocError) -> SetupFault {
        SetupFault::NoMemory
    }
}

impl From<NoMemory> for SetupFault {
    ghost from_gives = { λ _ refusal. refusal ≡ fault.NoMemory };

    fn from(_: NoMemory) -> SetupFault {
        SetupFault::NoMemory
    }
}
