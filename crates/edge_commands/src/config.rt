//! The configuration file of `serve`: its words stand before those of the command line.
ghost use Rattle.std.specs.Prelude.{◌≡◌, bytes_eq, codes, string_bytes};
ghost use Rattle.std.specs.List.{list_any};

use crate::command::Refusal;
use crate::command_line::invocation_of;
use crate::status::Status;
use clap::Command;
use clap::error::ErrorKind;
use config_file::{ConfigFault, OptionNames, Setting, config_named, is_given, merged, settings_of};
use edge_setup::{Named, held_text, is_origin_word, option_names, serve_command};
use std::alloc::{AllocError, AllocGlobal, Global};
use std::fs::File;
use std::io::{Eprint, Print, Read};
use std::rt::Files;
use std::{io, str};

// The most bytes of a file.
const MAX_FILE: u64 = 1_048_576;

/// The words of a command line, with those of a configuration file before the options, where they name one.
#[derive(Drop)]
pub struct Words<'a> {
    // The command line.
    line: &'a [String],
    // The file.
    file: Option<ConfigFile<'a>>,
}

// A file that was read.
#[derive(Drop)]
struct ConfigFile<'a> {
    // Its name.
    name: &'a str,
    // What its lines set.
    settings: Vec<Setting>,
    // The words of the command line with its own.
    words: Vec<String>,
}

impl<'a> Words<'a> {
    /// The words of a command line, and of the file that they name; reports on standard error why it can't be used. It
    /// isn't read where the line by itself is refused.
    pub fn of<R>(rt: &R, line: &'a [String]) -> Result<Words<'a>, Status>
    where
        R: Files + AllocGlobal + Eprint,
        R::File: Drop,
    {
        let Some(name) = config_named(line) else {
            return Ok(Words { line, file: None });
        };
        if !wants_file(rt.alloc(), line)? {
            return Ok(Words { line, file: None });
        }
        let file = ConfigFile::read(rt, name, line)?;
        Ok(Words {
            line,
            file: Some(file),
        })
    }

    /// All words.
    pub fn all(&self) -> &[String] {
        match &self.file {
            Some(file) => file.words.as_slice(),
            None => self.line,
        }
    }

    /// Reports the refusal of an option's value with the line of the file that has it; where it isn't of the file, the
    /// status reports it.
    pub fn refused<R>(&self, rt: &R, option: Named) -> Status
    where
        R: AllocGlobal + Eprint,
    {
        let Some(file) = &self.file else {
            return Status::BadOption(option);
        };
        match file.line_of(rt.alloc(), self.line, option) {
            Ok(Some(number)) => refused_in(rt, file.name, number, option),
            Ok(None) => Status::BadOption(option),
            Err(AllocError) => Status::NoMemory,
        }
    }
}

// Whether the words of a command line may be used once its file is read: `clap` takes them, but for an option that has
// to be there. What the values of options are worth is judged with those of the file.
fn wants_file(alloc: Global, line: &[String]) -> Result<bool, Status> {
    match invocation_of(alloc, line) {
        Ok(_) | Err(Refusal::Serve(_)) => Ok(true),
        // Without its file it would be another server.
        Err(Refusal::NoMemory) => Err(Status::NoMemory),
        Err(Refusal::Words(error)) => match error.kind() {
            ErrorKind::OutOfMemory => Err(Status::NoMemory),
            kind => Ok(kind == ErrorKind::MissingRequiredArgument),
        },
        Err(_) => Ok(false),
    }
}

// Reports the refusal of an option's value, which stands in this line of a file.
fn refused_in(rt: &impl Eprint, file: &str, number: usize, option: Named) -> Status {
    let refusal = option.refusal();
    let reason = refusal.strip_prefix("error: ").unwrap_or(refusal);
    // If standard error can't be written, only the status says it.
    let _ = match option {
        Named::Origin(_) => eprintln!(rt;
            "error: {file}:{number}: {reason}; a row of [origins] is an origin, options stand above"
        ),
        _ => eprintln!(rt; "error: {file}:{number}: {reason}"),
    };
    Status::Usage
}

impl<'a> ConfigFile<'a> {
    // Reads a file.
    fn read<R>(rt: &R, name: &'a str, line: &[String]) -> Result<ConfigFile<'a>, Status>
    where
        R: Files + AllocGlobal + Eprint,
        R::File: Drop,
    {
        let text = match text_of(rt, name) {
            Ok(text) => text,
            Err(error) => return Err(unread(rt, name, error)),
        };
        let Some(text) = checked(rt, name, text.as_slice()) else {
            return Err(Status::Usage);
        };
        match settings_in(rt.alloc(), text) {
            Ok(Ok(settings)) => ConfigFile::of(rt.alloc(), name, settings, line),
            Ok(Err(fault)) => Err(refused(rt, name, &fault)),
            Err(AllocError) => Err(Status::NoMemory),
        }
    }

    // A file with these settings.
    fn of(
        alloc: Global,
        name: &'a str,
        settings: Vec<Setting>,
        line: &[String],
    ) -> Result<ConfigFile<'a>, Status> {
        match merged(alloc, line, settings.as_slice()) {
            Ok(words) => Ok(ConfigFile {
                name,
                settings,
                words,
            }),
            Err(AllocError) => Err(Status::NoMemory),
        }
    }

    // The line that gives an option its value, where the command line doesn't.
    fn line_of(
        &self,
        alloc: Global,
        line: &[String],
        option: Named,
    ) -> Result<Option<usize>, AllocError> {
        for setting in &self.settings {
            if !is_given(line, setting) && gives(alloc, setting, option)? {
                return Ok(Some(setting.line));
            }
        }
        Ok(None)
    }
}

// Whether a setting gives the value that an option refuses.
fn gives(alloc: Global, setting: &Setting, option: Named) -> Result<bool, AllocError> {
    let subject = setting.subject.as_str();
    let Named::Origin(_) = option else {
        return Ok(subject == named_in(option.refusal()));
    };
    let Some(word) = setting.words.first() else {
        return Ok(false);
    };
    match word.as_str().strip_prefix("--origin=") {
        Some(origin) => Ok(!is_origin_word(alloc, origin)?),
        None => Ok(false),
    }
}

// The option that a refusal names: the word behind `error: `.
fn named_in(refusal: &str) -> &str {
    refusal.split(' ').nth(1).unwrap_or("")
}

// The bytes of a file, and one more than it may have.
fn text_of<R>(rt: &R, name: &str) -> io::Result<Vec<u8>>
where
    R: Files + AllocGlobal,
    R::File: Drop,
{
    let mut text = Vec::new(rt.alloc());
    File::open(rt, name)?
        .take(MAX_FILE + 1)
        .read_to_end(&mut text)?;
    Ok(text)
}

// Reports why a file can't be read.
fn unread(rt: &impl Eprint, name: &str, error: io::Error) -> Status {
    if error.kind() == io::ErrorKind::OutOfMemory {
        return Status::NoMemory;
    }
    let reason = match error.kind() {
        io::ErrorKind::NotFound => "there is no such file",
        io::ErrorKind::PermissionDenied => "permission is denied",
        io::ErrorKind::IsADirectory => "it is a folder",
        _ => "input failed",
    };
    // If standard error can't be written, only the status says it.
    let _ = eprintln!(rt; "error: {name}: can't be read: {reason}");
    Status::Usage
}

// The text of a file, if it is short enough and UTF-8; reports what is wrong with it.
fn checked<'b>(rt: &impl Eprint, name: &str, bytes: &'b [u8]) -> Option<&'b str> {
    if bytes.len() as u64 > MAX_FILE {
        let _ = eprintln!(rt; "error: {name}: has more than {MAX_FILE} bytes");
        return None;
    }
    match str::from_utf8(bytes) {
        Ok(text) => Some(text),
        Err(error) => {
            let (valid, _) = bytes.split_at(error.valid_up_to());
            let line = valid.iter().filter(|byte| **byte == b'\n').count() + 1;
            let _ = eprintln!(rt; "error: {name}:{line}: isn't UTF-8");
            None
        }
    }
}

// What the lines of a file set.
fn settings_in(alloc: Global, text: &str) -> Result<Result<Vec<Setting>, ConfigFault>, AllocError> {
    let command = serve_command(alloc)?;
    let names: OptionNames<'_> = option_names(alloc, &command)?;
    settings_of(alloc, &names, text)
}

// Reports why a line is refused.
fn refused(rt: &impl Eprint, file: &str, fault: &ConfigFault) -> Status {
    let line = fault.line;
    let reason = fault.reason.words();
    let name = fault.name.as_str();
    // If standard error can't be written, only the status says it.
    let _ = if name.is_empty() {
        eprintln!(rt; "error: {file}:{line}: {reason}")
    } else {
        eprintln!(rt; "error: {file}:{line}: {name}: {reason}")
    };
    Status::Usage
}

/// Whether the words of `serve` ask for the options that hold.
pub fn prints_config(words: &[String]) -> bool
    ensures { result ≡ list_any (λ word. bytes_eq (string_bytes word) (codes "--print-config")) words.now }
{
    words.iter().any(|word| word.as_str() == "--print-config")
}

/// Prints the options that hold, by the words of `serve`.
pub fn print_config<R>(rt: &R, words: &[String]) -> Status
where
    R: AllocGlobal + Print,
{
    match held_by(rt.alloc(), words) {
        Ok(text) => Status::of_help(print!(rt; "{text}")),
        Err(status) => status,
    }
}

// A file of the options that hold.
fn held_by(alloc: Global, words: &[String]) -> Result<String, Status> {
    let (_, own) = words.split_at(words.len().min(1));
    let (Ok(command), Ok(parsing)) = (serve_command(alloc), serve_command(alloc)) else {
        return Err(Status::NoMemory);
    };
    let command: Command<'_> = command;
    let Ok(matches) = parsing.try_get_matches_from(own) else {
        return Err(Status::NoMemory);
    };
    match held_text(alloc, &command, &matches) {
        Ok(text) => Ok(text),
        Err(AllocError) => Err(Status::NoMemory),
    }
}
