//! The outcome of a page.

ghost use Rattle.std.specs.Prelude.{◌≡◌};

use crate::head::Head;
use crate::page_body::PageBody;

/// A finished page, or the one fault that keeps it from being one.
#[derive(Drop)]
pub enum Outcome {
    /// The page.
    Page {
        /// What its head says to the reader: that of the page's own answer.
        head: Head,
        /// The body.
        body: PageBody,
    },
    /// The fault.
    Fault(PageFault),
}

/// Why a page can't be assembled.
#[derive(Clone, Copy, Debug, Drop, PartialEq, Eq)]
pub enum PageFault {
    /// The page itself could not be fetched.
    PageFetch,
    /// The page isn't a template; the place of the fault, in bytes.
    BadTemplate(usize),
    /// An include could not be fetched, and nothing stood in for it.
    IncludeFailed,
    /// The page tries more legs than the edge allows.
    TooManyLegs,
}

impl PageFault {
    ghost use Rattle.edge_types.specs.Outcome.{number_of, name_of};

    /// The fault's number, from 1. Takes no memory.
    pub fn number(&self) -> u8
        ensures { result ≡ number_of self.now }
    {
        match self {
            PageFault::PageFetch => 1,
            PageFault::BadTemplate(_) => 2,
            PageFault::IncludeFailed => 3,
            PageFault::TooManyLegs => 4,
        }
    }

    /// The fault's name. Takes no memory.
    pub fn name(&self) -> &'static str
        ensures { result.now ≡ name_of self.now }
    {
        match self {
            PageFault::PageFetch => "PageFetch",
            PageFault::BadTemplate(_) => "BadTemplate",
            PageFault::IncludeFailed => "IncludeFailed",
            PageFault::TooManyLegs => "TooManyLegs",
        }
    }
}
