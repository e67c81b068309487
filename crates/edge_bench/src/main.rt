//! Benchmarks of single layers, and of whole pages, which are compared with the evaluator of the sequential meaning. Without
//! an argument the program lists their names; with names, or with `all`, it runs them. Each prints ratios of times taken in
//! one run.
#![tactic(auto)]

use std::{env, io};

mod boards;
mod caching;
mod cases;
mod headers;
mod held;
mod inputs;
mod kept_templates;
mod lookups;
mod orders;
mod plans;
mod references;
mod scanning;
mod sharing;
mod site;
mod tables;
mod templates;
mod timing;
mod workers;

const NAMES: [&str; 17] = [
    "tables",
    "headers",
    "scanning",
    "references",
    "lookups",
    "caching",
    "templates",
    "plans",
    "held-plans",
    "boards",
    "pages",
    "orders",
    "workers",
    "sharing",
    "kept-templates",
    "held-bodies",
    "held-page",
];

fn main(rt: HostRuntime) -> io::Result<()> {
    let mut is_named = false;
    for word in env::args(&rt)?.skip(1) {
        is_named = true;
        match word.as_str() {
            "all" => {
                run_all(&rt)?;
                workers::run(&rt, rt.alloc())?;
                sharing::run(&rt, rt.alloc())?;
                kept_templates::run(&rt, rt.alloc())?
            }
            "workers" => workers::run(&rt, rt.alloc())?,
            "sharing" => sharing::run(&rt, rt.alloc())?,
            "kept-templates" => kept_templates::run(&rt, rt.alloc())?,
            name => run(&rt, name)?,
        }
    }
    if is_named { Ok(()) } else { list(&rt) }
}

fn list(rt: &HostRuntime) -> io::Result<()> {
    for name in NAMES {
        println!(rt; "{name}")?;
    }
    Ok(())
}

// All that need no threads.
fn run_all(rt: &HostRuntime) -> io::Result<()> {
    for name in NAMES {
        run(rt, name)?;
    }
    Ok(())
}

fn run(rt: &HostRuntime, name: &str) -> io::Result<()> {
    match name {
        "tables" => tables::run(rt),
        "headers" => headers::run(rt),
        "scanning" => scanning::run(rt),
        "references" => references::run(rt),
        "lookups" => lookups::run(rt),
        "caching" => caching::run(rt),
        "templates" => templates::run(rt),
        "plans" => plans::run(rt),
        "held-plans" => plans::hold(rt),
        "boards" => boards::run(rt),
        "pages" => cases::run(rt),
        "orders" => orders::run(rt),
        "held-bodies" => held::bodies(rt),
        "held-page" => held::page(rt),
        _ => Ok(()),
    }
}
