//! Runs of bytes at the front of a text.

ghost use Rattle.std.specs.Prelude.{◌≡◌, ◌≤◌, length};
ghost use Rattle.esi_scanner.specs.Bytes as spec;

use edge_types::is_ws;

// Whether the byte may be part of an element's name.
fn is_element_byte(byte: u8) -> bool
    ensures { result ≡ spec.is_element_byte byte }
{
    !(is_ws(byte) || byte == b'/' || byte == b'>')
}

// Whether the byte may be part of an attribute's name.
fn is_attribute_byte(byte: u8) -> bool
    ensures { result ≡ spec.is_attribute_byte byte }
{
    byte.is_ascii_alphanumeric() || matches!(byte, b'-' | b'_' | b':' | b'.')
}

// How many bytes of an element's name are at the front.
pub(crate) fn element_len(text: &[u8]) -> usize
    ensures value { result ≡ spec.element_len text.now }
    ensures within { result ≤ length text.now }
{
    for (i, byte) in text.iter().enumerate() {
        if !is_element_byte(*byte) {
            return i;
        }
    }
    text.len()
}

// How many bytes of an attribute's name are at the front.
pub(crate) fn attribute_len(text: &[u8]) -> usize
    ensures value { result ≡ spec.attribute_len text.now }
    ensures within { result ≤ length text.now }
{
    for (i, byte) in text.iter().enumerate() {
        if !is_attribute_byte(*byte) {
            return i;
        }
    }
    text.len()
}

/// Whether the first byte is white space. Takes no memory.
pub(crate) fn begins_ws(text: &[u8]) -> bool
    ensures { result ≡ spec.begins_ws text.now }
{
    match text {
        [byte, ..] => is_ws(*byte),
        [] => false,
    }
}
