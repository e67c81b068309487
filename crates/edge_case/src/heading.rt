//! The lines before the answers.
ghost use Rattle.std.specs.Prelude.{◌≡◌, IfOk};
ghost use Rattle.std.specs.Option.{option_map};
ghost use Rattle.edge_case.specs.Document.{field_words};
ghost use Rattle.edge_case.specs.Case.{request_of};
ghost use Rattle.edge_case.specs.Reading.{fields_at, heading_at, lent_heading, lent_values, shown_heading};

use crate::bytes::lent_or_empty;
use crate::line::{field_at, line_at};
use edge_types::{NoMemory, Request, RequestField, SaysFields, SharedBytes, query_of};
use std::alloc::Global;

// How many fields a request has.
const FIELDS: usize = RequestField::ALL.len();

/// The lines before the answers, without their leading words.
#[derive(Clone, Copy, Drop)]
pub(crate) struct Heading<'a> {
    pub(crate) page: &'a [u8],
    /// Of each field, in the order of `RequestField::ALL`.
    pub(crate) values: [Option<&'a [u8]>; FIELDS],
}

// The lines of the fields, and what follows them.
fn fields_at(text: &[u8]) -> Option<([Option<&[u8]>; FIELDS], &[u8])>
    ensures { option_map lent_values result ≡ fields_at field_words text.now }
{
    let mut values = [None; FIELDS];
    let mut rest = text;
    for (i, field) in RequestField::ALL.iter().enumerate() {
        let (value, after) = field_at(field.heading_word(), rest)?;
        values[i] = value;
        rest = after;
    }
    Some((values, rest))
}

/// The lines before the answers, and what follows them.
#[tactic(auto, unfolding(crate::specs::Reading::heading_at))]
pub(crate) fn heading_at(text: &[u8]) -> Option<(Heading<'_>, &[u8])>
    ensures { option_map lent_heading result ≡ heading_at text.now }
{
    let (page, text) = line_at(b"page ", text)?;
    let (values, text) = fields_at(text)?;
    Some((Heading { page, values }, text))
}

impl SaysFields for Heading<'_> {
    ghost use Rattle.edge_case.specs.Case.{value_of};
    ghost use Rattle.edge_case.specs.Reading.{shown_heading};

    ghost says = { λ heading field. value_of (shown_heading heading).values field };

    fn said(&self, alloc: Global, field: RequestField) -> Result<SharedBytes, NoMemory> {
        SharedBytes::copy_of(alloc, lent_or_empty(self.values[field.place()]))
    }
}

impl Heading<'_> {
    /// The request that the lines denote.
    pub(crate) fn request(&self, alloc: Global) -> Result<Request, NoMemory>
        ensures { IfOk result (λ request. request ≡ request_of (shown_heading self.now)) }
    {
        let query = SharedBytes::copy_of(alloc, query_of(self.page))?;
        Request::said_by(alloc, self, query)
    }
}
