//! What the system tells of the memory of a process.

ghost use Rattle.std.specs.Prelude.{◌≡◌};
ghost use Rattle.std.specs.Option.{option_copied};
ghost use Rattle.edge_metrics.specs.Memory as spec;

use edge_types::{around, decimal_of};

// The bytes of a page.
const PAGE: u64 = 4_096;

// As many as have a number of bytes in 64 bits.
const MOST_PAGES: u64 = u64::MAX / PAGE;

/// How many bytes of its memory are resident, by the text of the process's `statm`; `None` where that is another text.
/// Takes no memory.
///
/// Source: proc(5), "/proc/pid/statm"; pages of 4,096 bytes are our profile.
pub fn resident_of(statm: &[u8]) -> Option<u64>
    ensures { result ≡ spec.resident_of statm.now }
{
    let pages = decimal_of(second_field(statm)?, MOST_PAGES)?;
    Some(pages * PAGE)
}

fn second_field(text: &[u8]) -> Option<&[u8]>
    ensures { option_copied result ≡ spec.second_field text.now }
{
    let (_, behind) = around(b' ', text)?;
    let (field, _) = around(b' ', behind)?;
    Some(field)
}
