//! Calls that fetch answers, and those that make pages of what they fetch, each made once with what it needs. Each
//! argument names a call; the program prints the name and, after ` =>`, the answer, and after `again` what a further
//! fetch through the same cache answers.
//!
//! Here memory is ample. `tests/allocations/run` makes the allocations of each call fail, one in each run.
#![tactic(auto)]

mod pages;
mod sources;
mod templates;

use allocation_tools::printing::ends;
use edge_connections::ServerRuntime;
use std::io::Print;
use std::net::{Net, TcpStream};
use std::{env, io};

fn main(rt: HostRuntime) -> io::Result<()> {
    for name in env::args(&rt)?.skip(1) {
        let told = call(&rt, name.as_str());
        ends(&rt, name.as_str(), told)?;
    }
    Ok(())
}

fn call<R>(rt: &R, name: &str) -> Option<()>
where
    R: ServerRuntime + Net<Stream = TcpStream> + Print + Sync,
{
    match name {
        "TableSource::fetch" => sources::fetch_from_table(rt, name, "/x"),
        "TableSource::fetch:failed" => sources::fetch_from_table(rt, name, "/none"),
        "Cache::new" => sources::new_cache(rt, name),
        "Cache::hashed" => sources::hashed_cache(rt, name),
        "Cache::on_behalf" => sources::cache_on_behalf(rt, name),
        "Cache::fetch" => sources::fetch_through_cache(rt, name, "/x"),
        "Cache::fetch:failed" => sources::fetch_through_cache(rt, name, "/none"),
        "Cache::fetch:hit" => sources::fetch_from_cache(rt, name),
        "Cache::fetch:no_memory" => sources::fetch_from_forgetful(rt, name),
        "Cache::prepared" => templates::prepare_by_cache(rt, name),
        "Cache::prepared:kept" => templates::prepare_from_cache(rt, name),
        "HyperSource::fetch:no_origin" => sources::fetch_by_http(rt, name, ""),
        "HyperSource::apart" => sources::source_apart(rt, name),
        // Nobody listens there.
        "HyperSource::fetch:no_socket" => sources::fetch_by_http(rt, name, "127.0.0.1:1"),
        _ => call_of_page(rt, name),
    }
}

fn call_of_page<R>(rt: &R, name: &str) -> Option<()>
where
    R: ServerRuntime + Net<Stream = TcpStream> + Print + Sync,
{
    match name {
        "assemble" => pages::assemble_page(rt, name),
        "assemble:cache" => pages::assemble_through_cache(rt, name),
        "assemble:fetches" => pages::assemble_with_flights(rt, name),
        "assemble_gated" => pages::assemble_page_gated(rt, name),
        "PageInProgress::go_on" => pages::go_on_with_page(rt, name),
        "respond" => pages::respond_with_page(rt, name),
        "run_events" => pages::run_page(rt, name),
        _ => sources::fetch_by_http(rt, name, name.strip_prefix("HyperSource::fetch@")?),
    }
}
