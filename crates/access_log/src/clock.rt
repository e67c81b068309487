//! The time of day, as logs write it.

ghost use Rattle.std.specs.Prelude.{◌≡◌, ◌++◌, OnOk};
ghost use Rattle.access_log.specs.Clock.{IsDateOf, internet_time, late_month, log_time, month_number};
ghost use Rattle.access_log.specs.Text.{IsPrintable};

use crate::text::OpenLine;
use httpdate::HttpDate;
use std::alloc::AllocError;

// The last second that dates of four digits have.
const LAST_SECOND: u64 = 253_402_300_799;

/// The date of a second since 1970, as HTTP writes it; from the year 10000 on, that of the last second before.
///
/// Source: RFC 9110, "Date/Time Formats".
pub fn date_of(second: u64) -> [u8; 29]
    ensures { IsDateOf second result }
{
    let date = HttpDate::from_unix_secs(second.min(LAST_SECOND)).unwrap();
    date.to_bytes()
}

// The number of a month, from 1, by its first three letters.
#[tactic(auto, unfolding(crate::specs::Clock::month_number))]
fn month_number(name: &[u8]) -> u8
    ensures { result ≡ month_number name.now }
{
    if name == b"Jan".as_slice() {
        1
    } else if name == b"Feb".as_slice() {
        2
    } else if name == b"Mar".as_slice() {
        3
    } else if name == b"Apr".as_slice() {
        4
    } else if name == b"May".as_slice() {
        5
    } else if name == b"Jun".as_slice() {
        6
    } else {
        late_month(name)
    }
}

// The same in the second half of a year.
#[tactic(auto, unfolding(crate::specs::Clock::late_month))]
fn late_month(name: &[u8]) -> u8
    ensures { result ≡ late_month name.now }
{
    if name == b"Jul".as_slice() {
        7
    } else if name == b"Aug".as_slice() {
        8
    } else if name == b"Sep".as_slice() {
        9
    } else if name == b"Oct".as_slice() {
        10
    } else if name == b"Nov".as_slice() {
        11
    } else {
        12
    }
}

/// Appends a date as access logs write it, as in `26/Nov/2026:16:18:10 +0000`.
///
/// Source: Apache's module mod_log_config, "%t".
pub(crate) fn push_log_time(line: &mut OpenLine, date: &[u8; 29]) -> Result<(), AllocError>
    requires { IsPrintable date.now }
    ensures { OnOk result (line.new ≡ line.old ++ log_time date.now) }
{
    line.push(&date[5..7])?;
    line.push(b"/")?;
    line.push(&date[8..11])?;
    line.push(b"/")?;
    line.push(&date[12..16])?;
    line.push(b":")?;
    line.push(&date[17..25])?;
    line.push(b" +0000")
}

/// Appends a date as in `2026-11-26T16:18:10Z`.
///
/// Source: RFC 3339, "Internet Date/Time Format".
#[tactic(auto, unfolding(crate::specs::Clock::internet_time))]
pub(crate) fn push_internet_time(line: &mut OpenLine, date: &[u8; 29]) -> Result<(), AllocError>
    requires { IsPrintable date.now }
    ensures { OnOk result (line.new ≡ line.old ++ internet_time date.now) }
{
    let month = month_number(&date[8..11]);
    line.push(&date[12..16])?;
    line.push(&[b'-', b'0' + month / 10, b'0' + month % 10, b'-'])?;
    line.push(&date[5..7])?;
    line.push(b"T")?;
    line.push(&date[17..25])?;
    line.push(b"Z")
}
