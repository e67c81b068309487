//! The lines of the text.

ghost use Rattle.std.specs.Prelude.{◌≡◌, ◌++◌, decimal, OnOk};
ghost use Rattle.edge_metrics.specs.Text as spec;

use itoa::Buffer;
use std::alloc::AllocError;

/// Appends the lines that say what a metric means, and of which kind it is.
pub(crate) fn push_head(
    text: &mut Vec<u8>,
    name: &[u8],
    help: &[u8],
    kind: &[u8],
) -> Result<(), AllocError>
    ensures { OnOk result (text.new.items ≡ text.old.items ++ spec.head name.now help.now kind.now) }
{
    push_help(text, name, help)?;
    push_type(text, name, kind)
}

fn push_help(text: &mut Vec<u8>, name: &[u8], help: &[u8]) -> Result<(), AllocError>
    ensures { OnOk result (text.new.items ≡ text.old.items ++ spec.help_line name.now help.now) }
{
    text.extend_from_slice(b"# HELP ")?;
    text.extend_from_slice(name)?;
    text.extend_from_slice(b" ")?;
    text.extend_from_slice(help)?;
    text.extend_from_slice(b"\n")
}

fn push_type(text: &mut Vec<u8>, name: &[u8], kind: &[u8]) -> Result<(), AllocError>
    ensures { OnOk result (text.new.items ≡ text.old.items ++ spec.type_line name.now kind.now) }
{
    text.extend_from_slice(b"# TYPE ")?;
    text.extend_from_slice(name)?;
    text.extend_from_slice(b" ")?;
    text.extend_from_slice(kind)?;
    text.extend_from_slice(b"\n")
}

/// Appends a line with a value.
pub(crate) fn push_sample(text: &mut Vec<u8>, name: &[u8], number: u64) -> Result<(), AllocError>
    ensures { OnOk result (text.new.items ≡ text.old.items ++ spec.sample name.now number) }
{
    text.extend_from_slice(name)?;
    text.extend_from_slice(b" ")?;
    push_number(text, number)?;
    text.extend_from_slice(b"\n")
}

/// Appends a number.
pub(crate) fn push_number(text: &mut Vec<u8>, number: u64) -> Result<(), AllocError>
    ensures { OnOk result (text.new.items ≡ text.old.items ++ decimal number) }
{
    let mut buffer = Buffer::new();
    text.extend_from_slice(buffer.format(number).as_bytes())
}
