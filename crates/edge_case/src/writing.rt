//! Writes bytes to the last one.
ghost use Rattle.std.specs.Prelude.{◌≡◌, ◌++◌, OnOk, OnErr};
ghost use Rattle.std.specs.Io.KnownBytes.{Appends};
ghost use Rattle.edge_types.specs.Pieces.{joined};
ghost use Rattle.edge_case.specs.Bytes.{AppendsPart};
ghost use Rattle.edge_case.specs.declared.ending.CaseFault.TheVariants as fault;

use crate::ending::CaseFault;
use edge_types::PageBody;
use std::io::Write;

/// A write failed, or took no byte.
#[derive(Clone, Copy, Debug, Drop)]
pub(crate) struct WriteFailed;

impl From<WriteFailed> for CaseFault {
    ghost from_gives = { λ _ e. e ≡ fault.Write };

    fn from(_: WriteFailed) -> CaseFault {
        CaseFault::Write
    }
}

/// Writes the bytes. Takes no memory.
pub(crate) fn write_bytes<W: Write>(writer: &mut W, bytes: &[u8]) -> Result<(), WriteFailed>
    ensures ok { OnOk result (Appends (W.contents writer.old) (W.contents writer.new) bytes.now) }
    ensures err { OnErr result (AppendsPart (W.contents writer.old) (W.contents writer.new) bytes.now) }
{
    let mut rest = bytes;
    while !rest.is_empty() {
        match writer.write(rest) {
            Ok(0) | Err(_) => return Err(WriteFailed),
            Ok(n) => {
                let (_, after) = rest.split_at(n);
                rest = after;
            }
        }
    }
    Ok(())
}

/// Writes the pieces of a body. Takes no memory.
pub(crate) fn write_body<W: Write>(writer: &mut W, body: &PageBody) -> Result<(), WriteFailed>
    ensures ok { OnOk result (Appends (W.contents writer.old) (W.contents writer.new) (joined body.now)) }
    ensures err { OnErr result (AppendsPart (W.contents writer.old) (W.contents writer.new) (joined body.now)) }
{
    for at in 0..body.mark() {
        if let Some(piece) = body.piece(at) {
            write_bytes(writer, piece)?;
        }
    }
    Ok(())
}

/// Writes a line and a body. Takes no memory.
pub(crate) fn write_page<W: Write>(
    writer: &mut W,
    line: &[u8],
    body: &PageBody,
) -> Result<(), WriteFailed>
    ensures ok { OnOk result (Appends (W.contents writer.old) (W.contents writer.new) (line.now ++ joined body.now)) }
    ensures err { OnErr result (AppendsPart (W.contents writer.old) (W.contents writer.new) (line.now ++ joined body.now)) }
{
    write_bytes(writer, line)?;
    write_body(writer, body)
}
