//! White space of templates, tests and headers.

ghost use Rattle.std.specs.Prelude.{◌≡◌, ◌≤◌, length};
ghost use Rattle.edge_types.specs.WhiteSpace as spec;

/// Whether the byte is a space, a tab, a carriage return or a line feed. Takes no memory.
pub fn is_ws(byte: u8) -> bool
    ensures { result ≡ spec.is_ws byte }
{
    matches!(byte, b' ' | b'\t' | b'\r' | b'\n')
}

/// How many bytes of white space stand at the front. Takes no memory.
pub fn ws_len(text: &[u8]) -> usize
    ensures value { result ≡ spec.ws_len text.now }
    ensures within { result ≤ length text.now }
{
    for (i, byte) in text.iter().enumerate() {
        if !is_ws(*byte) {
            return i;
        }
    }
    text.len()
}

/// What follows the white space at the front. Takes no memory.
pub fn after_ws(text: &[u8]) -> &[u8]
    ensures value { result.now ≡ spec.after_ws text.now }
    ensures within { length result.now ≤ length text.now }
{
    let (_, after) = text.split_at(ws_len(text));
    after
}
