//! The program `esi_edge`: it reads a case text, assembles its page and prints the outcome,
//! serves pages over HTTP, or reports what is wrong with templates.
#![tactic(auto)]

ghost use Rattle.clap.specs.Words.{kind_of};
ghost use Rattle.edge_main.specs.Ending.{IsEndOf, IsRefusedAs};

mod ending;
mod program;
mod serving;

use clap::error::ErrorKind;
use edge_commands::{Refusal, Status, Words, check, explain, print_config, prints_config};
use edge_setup::{Named, Number};
use ending::status_of_serving;
use program::{Done, run_words};
use serving::serve;
use std::io;
use std::process::ExitCode;

fn main(rt: HostRuntime) -> ExitCode {
    let status = match words(&rt) {
        Ok(line) => match Words::of(&rt, line.as_slice()) {
            Ok(words) => match run(&rt, &words) {
                Done::Ran(status) => status,
                Done::Explains(ran) => explain(&rt, &ran),
                Done::Serves(mut options) => status_of_serving(serve(&rt, &mut options)),
                Done::Checks(checking) => check(&rt, &checking),
            },
            Err(status) => status,
        },
        Err(status) => status,
    };
    if let Some(line) = status.line() {
        // If standard error can't be written, only the status says it.
        let _ = eprintln!(rt; "{line}");
    }
    status.exit_code()
}

fn words(rt: &HostRuntime) -> Result<Vec<String>, Status> {
    match std::env::args(rt) {
        Ok(words) => words.collect(rt.alloc()).map_err(|_| Status::NoMemory),
        Err(error) if error.kind() == io::ErrorKind::InvalidData => Err(Status::NotText),
        Err(_) => Err(Status::NoMemory),
    }
}

// Judges the words, and runs the case that they ask for over standard input and output, or prints the options that hold.
fn run<'a>(rt: &HostRuntime, words: &'a Words<'_>) -> Done<'a> {
    let all = words.all();
    match run_words(rt.alloc(), all, &mut rt.reader(), &mut io::writer(rt)) {
        Ok(Done::Serves(_)) if prints_config(all) => Done::Ran(print_config(rt, all)),
        Ok(done) => done,
        Err(Refusal::Serve(option)) => Done::Ran(words.refused(rt, option)),
        Err(refusal) => Done::Ran(refused(rt, &refusal)),
    }
}

// Reports why the words are refused.
fn refused(rt: &HostRuntime, refusal: &Refusal) -> Status
    ensures { IsRefusedAs refusal.now result }
{
    match refusal {
        Refusal::Words(error) => told(rt, error),
        Refusal::Order => Status::BadOrder,
        Refusal::Ahead => Status::BadOption(Named::Number(Number::Ahead)),
        Refusal::Levels => Status::BadOption(Named::Number(Number::Levels)),
        Refusal::Serve(option) => Status::BadOption(*option),
        Refusal::NoMemory => Status::NoMemory,
    }
}

// Prints what `clap` has to say about the words.
fn told(rt: &HostRuntime, error: &clap::Error) -> Status
    ensures { IsEndOf (kind_of error.now) result }
{
    match error.kind() {
        ErrorKind::OutOfMemory => Status::NoMemory,
        ErrorKind::DisplayHelp | ErrorKind::DisplayVersion => Status::of_help(error.print(rt)),
        _ => {
            // If standard error can't be written, only the status says it.
            let _ = error.print(rt);
            Status::Usage
        }
    }
}
