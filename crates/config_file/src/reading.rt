//! The settings of a configuration file.

ghost use Rattle.std.specs.Prelude.{◌≡◌, ◌++◌, ◌∷◌, [], map, Ok, Err, string_bytes, IfOk, OnOk, MatchResult};
ghost use Rattle.std.specs.Str.Lines.{lines};
ghost use Rattle.config_file.specs.Reading as spec;

use crate::fault::{ConfigFault, Reason};
use crate::line::{Line, line_of};
use crate::naming::OptionNames;
use std::alloc::{AllocError, Global};

/// What a line sets.
#[derive(Drop)]
pub struct Setting {
    /// The line's number, from 1.
    pub line: usize,
    /// The option, as `--threads`; of an origin with its authority, as `--origin=a.test`.
    pub subject: String,
    /// The words of the command line, as `--threads=64`: one, none for a flag that isn't set, and of a list one for each
    /// of its elements.
    pub words: Vec<String>,
}

/// What the lines of a file set, in order, or the first line that is refused.
///
/// Our profile of TOML 1.1: each line is a pair, the header `[origins]`, a comment or blank.
pub fn settings_of(
    alloc: Global,
    names: &OptionNames<'_>,
    text: &str,
) -> Result<Result<Vec<Setting>, ConfigFault>, AllocError>
    ensures { IfOk result (λ found. MatchResult found
        (λ settings. spec.AreSettings names.now (lines text.now) settings.items)
        (spec.IsFault names.now (lines text.now))) }
{
    let lines = lines_of(alloc, text)?;
    settings_in(alloc, names, lines.as_slice())
}

fn lines_of<'a>(alloc: Global, text: &'a str) -> Result<Vec<&'a str>, AllocError>
    ensures { IfOk result (λ found. map (λ line. line.now) found.items ≡ lines text.entry.now) }
{
    text.lines().collect(alloc)
}

// What these lines set, or the first that is refused.
fn settings_in(
    alloc: Global,
    names: &OptionNames<'_>,
    lines: &[&str],
) -> Result<Result<Vec<Setting>, ConfigFault>, AllocError>
    ensures { IfOk result (λ found. MatchResult found
        (λ settings. spec.AreSettings names.now (map (λ line. line.now) lines.now) settings.items)
        (spec.IsFault names.now (map (λ line. line.now) lines.now))) }
{
    let mut file = Reading {
        among_origins: false,
        settings: Vec::new(alloc),
    };
    for (index, line) in lines.iter().enumerate() {
        if let Err(fault) = file.read(alloc, names, index + 1, line)? {
            return Ok(Err(fault));
        }
    }
    Ok(Ok(file.settings))
}

// How far a file has been read.
#[derive(Drop)]
struct Reading {
    // Whether further rows are origins.
    among_origins: bool,
    // What the lines so far set.
    settings: Vec<Setting>,
}

impl Reading {
    // Reads one more line.
    fn read(
        &mut self,
        alloc: Global,
        names: &OptionNames<'_>,
        number: usize,
        text: &str,
    ) -> Result<Result<(), ConfigFault>, AllocError>
        ensures { IfOk result (λ found. MatchResult found
            (λ _. spec.with_line names.now number text.now (spec.shown_file self.old) ≡ Ok (spec.shown_file self.new))
            (λ fault. spec.with_line names.now number text.now (spec.shown_file self.old) ≡ Err (spec.shown_fault fault))) }
    {
        match line_of(alloc, names, self.among_origins, text)? {
            Ok(Line::Nothing) => {}
            Ok(Line::Origins) => self.among_origins = true,
            Ok(Line::Setting { subject, words }) => return self.add(number, subject, words),
            Err(fault) => {
                return Ok(Err(ConfigFault {
                    line: number,
                    name: fault.name,
                    reason: fault.reason,
                }));
            }
        }
        Ok(Ok(()))
    }

    // Adds what a line sets, if no earlier one sets the same.
    #[tactic(auto, using(crate::proofs::Settings::has_shown))]
    fn add(
        &mut self,
        line: usize,
        subject: String,
        words: Vec<String>,
    ) -> Result<Result<(), ConfigFault>, AllocError>
        ensures { IfOk result (λ found. MatchResult found
            (λ _. spec.with_setting line (string_bytes subject) (map string_bytes words.items) (spec.shown_file self.old) ≡ Ok (spec.shown_file self.new))
            (λ fault. spec.with_setting line (string_bytes subject) (map string_bytes words.items) (spec.shown_file self.old) ≡ Err (spec.shown_fault fault))) }
    {
        if is_set(self.settings.as_slice(), subject.as_str()) {
            return Ok(Err(ConfigFault {
                line,
                name: subject,
                reason: Reason::Twice,
            }));
        }
        let setting = Setting {
            line,
            subject,
            words,
        };
        push(&mut self.settings, setting)?;
        Ok(Ok(()))
    }
}

// Adds a setting.
fn push(settings: &mut Vec<Setting>, setting: Setting) -> Result<(), AllocError>
    ensures { OnOk result (map spec.shown_setting settings.new.items ≡ map spec.shown_setting settings.old.items ++ spec.shown_setting setting ∷ []) }
{
    match settings.push(setting) {
        Ok(()) => Ok(()),
        Err(_) => Err(AllocError),
    }
}

// Whether one of the settings is of this subject.
fn is_set(settings: &[Setting], subject: &str) -> bool
    ensures { result ≡ spec.is_set subject.now settings.now }
{
    settings
        .iter()
        .any(|setting| setting.subject.as_str() == subject)
}
