//! Calls of the libraries, each made once with what it needs. Each argument names a call; the program prints the name
//! and, after ` =>`, the answer and what is left of the values that the call was lent.
//!
//! Here memory is ample. `tests/allocations/run` makes the allocations of each call fail, one in each run.
#![tactic(auto)]

mod configs;
mod heads;
mod pages;
mod shards;
mod texts;
mod values;

use allocation_tools::printing::ends;
use std::{env, io};

fn main(rt: HostRuntime) -> io::Result<()> {
    for name in env::args(&rt)?.skip(1) {
        let told = call(&rt, name.as_str());
        ends(&rt, name.as_str(), told)?;
    }
    Ok(())
}

fn call(rt: &HostRuntime, name: &str) -> Option<()> {
    match name {
        "Request::copy" => values::copy_request(rt, name),
        "PageUrl::parse" => values::parse_url(rt, name),
        "PageUrl::resolve" => values::resolve_url(rt, name),
        "PageUrl::share" => values::share_url(rt, name),
        "SharedAnswer::share" => values::share_answer(rt, name),
        "Answer::share_body" => values::share_body(rt, name),
        "SharedBytes::part" => values::part(rt, name),
        "PageBody::push" => values::push_piece(rt, name),
        "Standings::add" => values::add_standing(rt, name),
        "Table::insert" => values::insert(rt, name),
        "capability" => values::capability(rt, name),
        "answer_head" => heads::answer_head(rt, name),
        "passed_edges" => heads::passed_edges(rt, name),
        "cookies_named" => heads::cookies_named(rt, name),
        "lines_named" => heads::lines_named(rt, name),
        "response_of:page" => heads::page_response(rt, name),
        "response_of:fault" => heads::fault_response(rt, name),
        "refusal_of:503" => heads::refusal(rt, name),
        "refusal_of:405" => heads::refusal_of_method(rt, name),
        "EdgeBody::poll_frame" => heads::frame(rt, name),
        _ => call_of_text(rt, name),
    }
}

fn call_of_text(rt: &HostRuntime, name: &str) -> Option<()> {
    match name {
        "scan" => texts::scan(rt, name),
        "trouble_at" => texts::trouble_at(rt, name),
        "parts" => texts::parts(rt, name),
        "substitute" => texts::substitute(rt, name),
        "substitute_within" => texts::substitute_within(rt, name),
        "push_values" => texts::push_values(rt, name),
        "reference_at" => texts::reference_at(rt, name),
        "trouble_of" => texts::trouble_of(rt, name),
        "template" => texts::template(rt, name),
        "check" => texts::check(rt, name),
        "warnings" => texts::warnings(rt, name),
        "report:fault" => texts::report_fault(rt, name),
        "report:warnings" => texts::report_warnings(rt, name),
        "read_events" => texts::read_events(rt, name),
        "settings_of" => configs::settings_of(rt, name),
        "merged" => configs::merged(rt, name),
        "push_list" => configs::push_list(rt, name),
        "push_origin" => configs::push_origin(rt, name),
        _ => call_of_page(rt, name),
    }
}

fn call_of_page(rt: &HostRuntime, name: &str) -> Option<()> {
    match name {
        "plain_page" => pages::plain_page(rt, name),
        "leg_url" => pages::leg_url(rt, name),
        "Leg::url" => pages::url_of_leg(rt, name),
        "compile" => pages::compile_template(rt, name),
        "Prepared::of" => pages::prepare(rt, name),
        "Prepared::share" => pages::share_prepared(rt, name),
        "Board::open" => pages::open(rt, name),
        "Shard::new" => shards::new_shard(rt, name),
        "Shard::hashed" => shards::hashed_shard(rt, name),
        "Shard::begin:lead" => shards::lead(rt, name),
        "Shard::begin:hit" => shards::hit(rt, name),
        "Shard::look" => shards::look(rt, name),
        "Shard::land" => shards::land(rt, name),
        "Shard::land:bridged" => shards::bridge(rt, name),
        "Shard::pick" => shards::pick(rt, name),
        "Shard::purge_prefix" => shards::purge_prefix(rt, name),
        _ => None,
    }
}
