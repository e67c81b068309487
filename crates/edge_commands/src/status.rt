//! Exit statuses.
ghost use Rattle.std.specs.Prelude.{◌≡◌, option_map};
ghost use Rattle.std.specs.IoError.{error_kind};
ghost use Rattle.std.specs.Process.{exit_status};
ghost use Rattle.edge_commands.specs.Status.{code_of, failed_as, help_status, line_of, listening_status, status_of, unreported_as};
ghost use Rattle.edge_commands.specs.declared.status.Status.TheVariants as ends;

use edge_case::{CaseEnd, CaseFault};
use edge_setup::Named;
use edge_types::NoMemory;
use std::io;
use std::process::ExitCode;
use template_check::ReportFault;

/// How the program ends.
#[derive(Clone, Copy, Drop, PartialEq, Eq)]
pub enum Status {
    /// A page, or help, was printed.
    Page,
    /// A page's fault was printed.
    PageFault,
    /// The server has served the number of connections that it was to.
    Served,
    /// The files were checked and have no fault.
    Checked,
    /// A file has a fault, or a warning that counts as one.
    FaultFound,
    /// The command line is invalid.
    Usage,
    /// The value of `--order` isn't a list of events.
    BadOrder,
    /// What an option names is no use.
    BadOption(Named),
    /// A word of the command line isn't UTF-8.
    NotText,
    /// Standard input isn't a case text.
    BadCase,
    /// An allocation failed.
    NoMemory,
    /// A read or a write failed.
    InputOutput,
    /// Another process listens where the server is to listen.
    AddressInUse,
    /// The user may not listen there.
    AddressDenied,
    /// The system knows no address of an origin; it was reported which one.
    UnknownHost,
}

impl Status {
    /// The status of a case that was run.
    pub fn of(ended: Result<CaseEnd, CaseFault>) -> Status
        ensures { result ≡ status_of ended }
    {
        match ended {
            Ok(CaseEnd::PagePrinted) => Status::Page,
            Ok(CaseEnd::FaultPrinted) => Status::PageFault,
            Err(CaseFault::BadCase) => Status::BadCase,
            Err(CaseFault::NoMemory) => Status::NoMemory,
            Err(CaseFault::Read | CaseFault::Write) => Status::InputOutput,
        }
    }

    /// The status where the server can't listen.
    pub fn of_listening(error: io::Error) -> Status
        ensures { result ≡ listening_status (error_kind error) }
    {
        match error.kind() {
            io::ErrorKind::AddrInUse => Status::AddressInUse,
            io::ErrorKind::PermissionDenied => Status::AddressDenied,
            _ => Status::from(error),
        }
    }

    /// The status after printing help, by how that ended.
    pub fn of_help(printed: io::Result<()>) -> Status
        ensures { result ≡ help_status printed }
    {
        match printed {
            Ok(()) => Status::Page,
            Err(_) => Status::InputOutput,
        }
    }

    /// The exit status.
    pub fn exit_code(self) -> ExitCode
        ensures { exit_status result ≡ code_of self }
    {
        ExitCode::from(match self {
            Status::Page | Status::Served | Status::Checked => 0,
            Status::PageFault | Status::FaultFound => 1,
            Status::Usage | Status::BadOrder | Status::BadOption(_) | Status::NotText => 2,
            Status::BadCase => 3,
            Status::NoMemory => 4,
            Status::InputOutput
            | Status::AddressInUse
            | Status::AddressDenied
            | Status::UnknownHost => 5,
        })
    }

    /// The line for standard error, if there is one; on usage `clap` writes its own text, and a host that has no
    /// address was reported with its name.
    pub fn line(self) -> Option<&'static str>
        ensures { option_map (λ line. line.now) result ≡ line_of self }
    {
        match self {
            Status::NotText => Some("error: a word of the command line isn't UTF-8"),
            Status::BadOrder => Some(
                "error: --order takes events with commas between: c, a, or p and one to four digits",
            ),
            Status::BadOption(option) => Some(option.refusal()),
            Status::BadCase => Some("bad case text"),
            Status::NoMemory => Some("no memory"),
            Status::InputOutput => Some("input or output failed"),
            Status::AddressInUse => Some(
                "error: the address of --listen or --admin is in use: another process listens there",
            ),
            Status::AddressDenied => Some(
                "error: permission for the address of --listen or --admin is denied: a port below 1024 takes the right to it (CAP_NET_BIND_SERVICE)",
            ),
            Status::Page
            | Status::PageFault
            | Status::Served
            | Status::Checked
            | Status::FaultFound
            | Status::Usage
            | Status::UnknownHost => None,
        }
    }
}

impl From<NoMemory> for Status {
    ghost from_gives = { λ _ status. status ≡ ends.NoMemory };

    fn from(_: NoMemory) -> Status {
        Status::NoMemory
    }
}

impl From<io::Error> for Status {
    ghost from_gives = { λ error status. status ≡ failed_as (error_kind error) };

    fn from(error: io::Error) -> Status {
        match error.kind() {
            io::ErrorKind::OutOfMemory => Status::NoMemory,
            _ => Status::InputOutput,
        }
    }
}

impl From<ReportFault> for Status {
    ghost from_gives = { λ fault status. status ≡ unreported_as fault };

    fn from(fault: ReportFault) -> Status {
        match fault {
            ReportFault::NoMemory => Status::NoMemory,
            ReportFault::Write => Status::InputOutput,
        }
    }
}
