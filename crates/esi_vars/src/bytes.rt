// Runs of bytes at the front of a text.

ghost use Rattle.std.specs.Prelude.{◌≡◌, ◌≤◌, length};
ghost use Rattle.std.specs.List.{prefix_len};
ghost use Rattle.std.specs.Option.{option_copied};
ghost use Rattle.esi_vars.specs.Reading.{run_at, after_byte};
ghost use Rattle.esi_vars.specs.Shown.{shown_run};
ghost use Rattle.esi_vars.specs.Reference as spec;

use edge_types::is_ws;

/// The classes of bytes that make up parts of references and of fields.
#[derive(Clone, Copy)]
pub(crate) enum ByteClass {
    Name,
    Key,
    Default,
    Version,
}

impl ByteClass {
    /// Whether the byte is of the class.
    pub(crate) fn allows(self, byte: u8) -> bool
        ensures { result ≡ spec.allows self byte }
    {
        match self {
            ByteClass::Name => byte.is_ascii_alphanumeric() || byte == b'_',
            ByteClass::Key => !is_ws(byte)
                && !matches!(byte, b'{' | b'}' | b'(' | b')' | b'|' | b'\'' | b'"'),
            ByteClass::Default => !is_ws(byte) && !matches!(byte, b'\'' | b'(' | b')' | b'$'),
            ByteClass::Version => byte.is_ascii_digit() || byte == b'.',
        }
    }
}

/// How many bytes of the class are at the front.
pub(crate) fn run_len(class: ByteClass, text: &[u8]) -> usize
    ensures value { result ≡ prefix_len (spec.allows class) text.now }
    ensures within { result ≤ length text.now }
{
    for (i, byte) in text.iter().enumerate() {
        if !class.allows(*byte) {
            return i;
        }
    }
    text.len()
}

/// The run of bytes of the class at the front, if there is one, and what follows it.
#[tactic(auto, unfolding(crate::specs::Reading::run_at))]
pub(crate) fn run_at(class: ByteClass, text: &[u8]) -> Option<(&[u8], &[u8])>
    ensures { shown_run result ≡ run_at (spec.allows class) text.now }
{
    let len = run_len(class, text);
    if len == 0 {
        None
    } else {
        Some(text.split_at(len))
    }
}

/// What follows this byte at the front; `None` if the text begins otherwise. Takes no memory.
pub fn after_byte(byte: u8, text: &[u8]) -> Option<&[u8]>
    ensures { option_copied result ≡ after_byte byte text.now }
{
    match text.split_first() {
        Some((first, rest)) if *first == byte => Some(rest),
        _ => None,
    }
}
