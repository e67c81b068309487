//! Reads the whole input, or as much of it as shows that it is too long.
ghost use Rattle.std.specs.Prelude.{◌≡◌, ◌≢◌, ◌+◌, ◌<◌, ◌≤◌, ◌^◌, length, vec_len, IfOk, IfErr, OnOk, OnErr};
ghost use Rattle.edge_case.specs.Bytes.{TakesAtMost, Moves, IsInput, IsLonger, IsReadThrough};

use crate::case_text::MAX_CASE;
use crate::ending::CaseFault;
use std::alloc::{AllocError, Global};
use std::io::Read;

// How many bytes one read asks for.
const CHUNK: usize = 65_536;

// This many zeros, as room for a read.
fn zeros(alloc: Global, len: usize) -> Result<Vec<u8>, AllocError>
    ensures { IfOk result (λ zeros. vec_len zeros ≡ len) }
{
    vec![in alloc; 0u8; len]
}

// One read of at most this many bytes, which are added to the text.
fn read_some<R: Read>(
    reader: &mut R,
    chunk: &mut [u8],
    room: usize,
    text: &mut Vec<u8>,
) -> Result<usize, CaseFault>
    requires { room ≤ length chunk.old }
    ensures ok { IfOk result (λ n. Moves room n (R.remaining reader.old) (R.remaining reader.new) text.old.items text.new.items) }
    ensures len { IfOk result (λ n. vec_len text.new ≡ vec_len text.old + n) }
    ensures err { OnErr result (TakesAtMost room (R.remaining reader.old) (R.remaining reader.new)) }
    ensures never_write { IfErr result (λ e. e ≢ CaseFault.Write) }
    ensures never_bad { IfErr result (λ e. e ≢ CaseFault.BadCase) }
{
    let (buffer, _) = chunk.split_at_mut(room);
    add_read(reader, buffer, text)
}

// One read into the buffer, whose bytes are added to the text.
fn add_read<R: Read>(
    reader: &mut R,
    buffer: &mut [u8],
    text: &mut Vec<u8>,
) -> Result<usize, CaseFault>
    ensures ok { IfOk result (λ n. Moves (length buffer.old) n (R.remaining reader.old) (R.remaining reader.new) text.old.items text.new.items) }
    ensures len { IfOk result (λ n. vec_len text.new ≡ vec_len text.old + n) }
    ensures err { OnErr result (TakesAtMost (length buffer.old) (R.remaining reader.old) (R.remaining reader.new)) }
    ensures never_write { IfErr result (λ e. e ≢ CaseFault.Write) }
    ensures never_bad { IfErr result (λ e. e ≢ CaseFault.BadCase) }
{
    match reader.read(buffer) {
        Ok(n) => {
            text.extend_from_slice(&buffer[..n])?;
            Ok(n)
        }
        Err(_) => Err(CaseFault::Read),
    }
}

// The whole input; if it is longer than this limit, one byte more than the limit.
fn read_up_to<R: Read>(
    alloc: Global,
    reader: &mut R,
    chunk: &mut [u8],
    most: usize,
) -> Result<Vec<u8>, CaseFault>
    requires room { 0 < length chunk.old }
    requires fits { most < 2 ^ 63 }
    ensures whole { IfOk result (λ text. vec_len text ≤ most → IsInput (R.remaining reader.old) text.items) }
    ensures longer { IfOk result (λ text. most < vec_len text → IsLonger most (R.remaining reader.old)) }
    ensures through { OnOk result (IsReadThrough most (R.remaining reader.old) (R.remaining reader.new)) }
    ensures at_most { TakesAtMost (most + 1) (R.remaining reader.old) (R.remaining reader.new) }
    ensures never_write { IfErr result (λ e. e ≢ CaseFault.Write) }
    ensures never_bad { IfErr result (λ e. e ≢ CaseFault.BadCase) }
{
    let mut text = Vec::new(alloc);
    while text.len() <= most {
        let room = chunk.len().min(most + 1 - text.len());
        let n = read_some(reader, chunk, room, &mut text)?;
        if n == 0 {
            return Ok(text);
        }
    }
    Ok(text)
}

/// The whole input; if it is longer than a case text may be, its first `MAX_CASE + 1` bytes.
///
/// `NoMemory` if an allocation fails, `Read` if a read fails.
pub(crate) fn read_input<R: Read>(alloc: Global, reader: &mut R) -> Result<Vec<u8>, CaseFault>
    ensures whole { IfOk result (λ text. vec_len text ≤ MAX_CASE → IsInput (R.remaining reader.old) text.items) }
    ensures longer { IfOk result (λ text. MAX_CASE < vec_len text → IsLonger MAX_CASE (R.remaining reader.old)) }
    ensures through { OnOk result (IsReadThrough MAX_CASE (R.remaining reader.old) (R.remaining reader.new)) }
    ensures at_most { TakesAtMost (MAX_CASE + 1) (R.remaining reader.old) (R.remaining reader.new) }
    ensures never_write { IfErr result (λ e. e ≢ CaseFault.Write) }
    ensures never_bad { IfErr result (λ e. e ≢ CaseFault.BadCase) }
{
    let mut chunk = zeros(alloc, CHUNK)?;
    read_up_to(alloc, reader, &mut chunk, MAX_CASE)
}
