//! Configuration files.

use allocation_tools::printing::{answers, bytes, calls, number, out_of_memory};
use config_file::{OptionNames, Setting};
use std::alloc::{AllocError, Global};

const TEXT: &str =
    "threads = 8\nhead = true\nsend-fields = [\"a: b\", \"c: d\"]\n[origins]\n\"a.test\" = \"127.0.0.1:1\"\n";

fn names(alloc: Global) -> Option<OptionNames<'static>> {
    let mut names = OptionNames {
        flags: Vec::new(alloc),
        valued: Vec::new(alloc),
        repeated: Vec::new(alloc),
    };
    names.flags.push("head").ok()?;
    names.valued.push("threads").ok()?;
    names.repeated.push("send-fields").ok()?;
    Some(names)
}

fn settings(alloc: Global) -> Option<Vec<Setting>> {
    let names = names(alloc)?;
    config_file::settings_of(alloc, &names, TEXT).ok()?.ok()
}

pub fn settings_of(rt: &HostRuntime, name: &str) -> Option<()> {
    let names = names(rt.alloc())?;
    calls(rt, name)?;
    let read = config_file::settings_of(rt.alloc(), &names, TEXT);
    answers(rt)?;
    match &read {
        Ok(Ok(settings)) => print_settings(rt, settings),
        Ok(Err(fault)) => number(rt, fault.line),
        Err(AllocError) => out_of_memory(rt),
    }
}

fn print_settings(rt: &HostRuntime, settings: &[Setting]) -> Option<()> {
    for setting in settings {
        number(rt, setting.line)?;
        bytes(rt, setting.subject.as_bytes())?;
    }
    Some(())
}

pub fn merged(rt: &HostRuntime, name: &str) -> Option<()> {
    let settings = settings(rt.alloc())?;
    let mut line = Vec::new(rt.alloc());
    for word in ["esi_edge", "serve", "--threads", "9"] {
        line.push(String::from_str(rt.alloc(), word).ok()?).ok()?;
    }
    calls(rt, name)?;
    let words = config_file::merged(rt.alloc(), line.as_slice(), settings.as_slice());
    answers(rt)?;
    match &words {
        Ok(words) => print_words(rt, words),
        Err(AllocError) => out_of_memory(rt),
    }
}

fn print_words(rt: &HostRuntime, words: &[String]) -> Option<()> {
    for word in words {
        bytes(rt, word.as_bytes())?;
    }
    Some(())
}

pub fn push_list(rt: &HostRuntime, name: &str) -> Option<()> {
    let mut text = String::new(rt.alloc());
    calls(rt, name)?;
    let pushed = config_file::push_list(&mut text, "send-fields", &["a: b", "c: d"]);
    answers(rt)?;
    match pushed {
        Ok(()) => bytes(rt, text.as_str().trim_end().as_bytes()),
        Err(AllocError) => out_of_memory(rt),
    }
}

pub fn push_origin(rt: &HostRuntime, name: &str) -> Option<()> {
    let mut text = String::new(rt.alloc());
    calls(rt, name)?;
    let pushed = config_file::push_origin(&mut text, "a.test=127.0.0.1:1");
    answers(rt)?;
    match pushed {
        Ok(()) => bytes(rt, text.as_str().trim_end().as_bytes()),
        Err(AllocError) => out_of_memory(rt),
    }
}
