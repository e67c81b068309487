//! Checks templates, file by file.
ghost use Rattle.std.specs.Prelude.{◌≡◌, ◌+◌, length, IfOk, OnOk};
ghost use Rattle.template_check.specs.Report.{told_of};
ghost use Rattle.edge_commands.specs.Checked.{checked_as, with_text};

use crate::status::Status;
use edge_setup::Checking;
use edge_types::SharedBytes;
use std::alloc::AllocGlobal;
use std::io::{BufWriter, Eprint, ErrorKind, Input, IsTerminal, Print, Read, Write};
use std::rt::Files;
use std::{fs, io};
use template_check::report;

/// The totals over all files.
#[derive(Clone, Copy, Drop)]
struct Sum {
    /// How many files were checked.
    files: u64,
    /// How many files couldn't be read.
    unread: u64,
    /// How many files have a fault.
    errors: u64,
    /// How many warnings were reported.
    warnings: u64,
}

impl Sum {
    // How the program ends.
    fn status(self, is_strict: bool) -> Status
        ensures { result ≡ checked_as is_strict self.unread self.errors self.warnings }
    {
        if self.unread > 0 {
            Status::InputOutput
        } else if self.errors > 0 || (is_strict && self.warnings > 0) {
            Status::FaultFound
        } else {
            Status::Checked
        }
    }
}

/// Checks the files in order, and reports on standard output what is wrong with each. A file that can't
/// be read is reported on standard error, and the others are checked all the same.
pub fn check(rt: &HostRuntime, checking: &Checking<'_>) -> Status {
    match check_files(rt, checking.files.as_slice()) {
        Ok(sum) => {
            if rt.stderr().is_terminal() {
                told(rt, sum);
            }
            sum.status(checking.is_strict)
        }
        Err(status) => status,
    }
}

// Prints the totals. If standard error can't be written, only the status reports them.
fn told(rt: &impl Eprint, sum: Sum) {
    let Sum {
        files,
        unread,
        errors,
        warnings,
    } = sum;
    let _ = eprintln!(rt;
        "{files} checked, {unread} unread; {errors} with a fault, {warnings} warnings"
    );
}

// Checks the files: each is counted, as checked or as unread.
fn check_files<R>(rt: &R, files: &[&str]) -> Result<Sum, Status>
where
    R: Files + AllocGlobal + Input + Print + Eprint,
    R::Reader: Drop,
    ensures { IfOk result (λ sum. sum.files + sum.unread ≡ length files.now) }
{
    let mut sum = Sum {
        files: 0,
        unread: 0,
        errors: 0,
        warnings: 0,
    };
    let mut writer = BufWriter::new(rt.alloc(), io::writer(rt))?;
    for name in files {
        match text_of(rt, name) {
            Ok(text) => check_text(rt, &mut writer, name, text, &mut sum)?,
            Err(error) if error.kind() == ErrorKind::OutOfMemory => return Err(Status::NoMemory),
            Err(_) => {
                sum.unread = sum.unread.saturating_add(1);
                let _ = eprintln!(rt; "{name}: can't be read");
            }
        }
    }
    writer.flush()?;
    Ok(sum)
}

// The bytes of a file; `-` is standard input.
fn text_of<R>(rt: &R, name: &str) -> io::Result<Vec<u8>>
where
    R: Files + AllocGlobal + Input,
{
    if name != "-" {
        return fs::read(rt, name);
    }
    let mut text = Vec::new(rt.alloc());
    rt.reader().read_to_end(&mut text)?;
    Ok(text)
}

// Checks a file's text, reports on it, and adds what was reported to the totals.
fn check_text<R: AllocGlobal, W: Write>(
    rt: &R,
    writer: &mut W,
    name: &str,
    text: Vec<u8>,
    sum: &mut Sum,
) -> Result<(), Status>
    ensures { OnOk result (sum.new ≡ with_text (told_of text.items) sum.old) }
{
    let text = SharedBytes::of(text)?;
    let told = report(rt.alloc(), writer, name, &text)?;
    sum.files = sum.files.saturating_add(1);
    sum.errors = sum.errors.saturating_add(told.errors as u64);
    sum.warnings = sum.warnings.saturating_add(told.warnings as u64);
    Ok(())
}
