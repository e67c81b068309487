//! The parts of a header's value, one after another.

ghost use Rattle.std.specs.Prelude.{◌≡◌, ◌∷◌};
ghost use Rattle.std.specs.Iterator.{YieldsFirstRef, item_count};
ghost use Rattle.surrogate_headers.specs.Cut.{parts_of, parts_after, parts_left};

/// The parts of a value that are still to come: it is cut at each comma outside quotes.
#[derive(Drop)]
pub(crate) struct Parts<'a> {
    rest: Option<&'a [u8]>,
}

impl<'a> Parts<'a> {
    pub(crate) fn of(value: &'a [u8]) -> Parts<'a>
        ensures { parts_left result ≡ parts_of value.now }
    {
        Parts { rest: Some(value) }
    }
}

impl<'a> Iterator for Parts<'a> {
    type Item = &'a [u8];

    ghost next_gives = { YieldsFirstRef parts_left };

    ghost remaining = { item_count parts_left };

    fn next(&mut self) -> Option<&'a [u8]> {
        let (part, rest) = first_part(self.rest?);
        self.rest = rest;
        Some(part)
    }
}

// The part before the first comma outside quotes, and what follows that comma.
fn first_part(value: &[u8]) -> (&[u8], Option<&[u8]>)
    ensures { parts_of value.now ≡ result.0.now ∷ parts_after result.1 }
{
    let mut quoted = false;
    for (i, byte) in value.iter().enumerate() {
        match byte {
            b',' if !quoted => return (&value[..i], Some(&value[i + 1..])),
            b'"' => quoted = !quoted,
            _ => {}
        }
    }
    (value, None)
}
