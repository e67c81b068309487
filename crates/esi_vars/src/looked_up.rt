//! Values that are looked up in a field of the request.

ghost use Rattle.std.specs.Prelude.{◌≡◌};
ghost use Rattle.esi_vars.specs.Shown.{said};

/// A value that was looked up.
#[derive(Clone, Copy)]
pub(crate) enum LookedUp<'a> {
    /// A name of the language's own, or nothing.
    Name(&'static [u8]),
    /// A part of the field, and the place from which on it is likely to stand there. Nothing is promised of the place:
    /// whoever takes the field's bytes from there looks whether they are those of the value.
    Part(&'a [u8], usize),
}

impl<'a> LookedUp<'a> {
    /// A value that stands in its field this many bytes behind the front of `rest`, with which the field ends.
    pub(crate) fn behind(value: &'a [u8], field: &[u8], rest: &[u8], bytes: usize) -> LookedUp<'a>
        ensures { said result ≡ value.now }
    {
        let before = field.len().saturating_sub(rest.len());
        LookedUp::Part(value, before.saturating_add(bytes))
    }

    /// Its bytes.
    pub(crate) fn value(self) -> &'a [u8]
        ensures { result.now ≡ said self.entry }
    {
        match self {
            LookedUp::Name(name) => name,
            LookedUp::Part(value, _) => value,
        }
    }
}
