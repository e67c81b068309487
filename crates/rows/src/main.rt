//! Tables of worked examples. Each argument names a table, a file of rows; the program prints each row and, after
//! ` => `, what the call with the table's name returns.
//!
//! In a row `[[3*ab]]` is `ababab`, and then `\n`, `\t`, `\r` and `\xNN` are bytes. In an answer a line feed, a
//! tabulator and a carriage return are written so, and of a long text the beginning and the length. What a row holds
//! besides a text is said at the function that reads it.
#![tactic(auto)]

mod checking;
mod headers;
mod heads;
mod language;
mod meaning;
mod responses;
mod row;
mod scanning;
mod shards;
mod trees;
mod values;

use row::{Line, written_out};
use std::{env, fs, io};

fn main(rt: HostRuntime) -> io::Result<()> {
    for table in env::args(&rt)?.skip(1) {
        let rows = fs::read_to_string(&rt, table.as_str())?;
        println!(rt; "== {table}")?;
        for row in rows.lines() {
            print_row(&rt, table.as_str(), row)?;
        }
    }
    Ok(())
}

fn print_row(rt: &HostRuntime, table: &str, row: &str) -> io::Result<()> {
    let mut line = Line::new(rt.alloc());
    if let (Some(()), Some(answer)) = (answered(rt, table, row, &mut line), line.whole()) {
        let space = if answer.is_empty() { "" } else { " " };
        return println!(rt; "{row} =>{space}{answer}");
    }
    eprintln!(rt; "{table}: {row}: no such table, a row that can't be read, or out of memory")?;
    Err(io::Error::from(io::ErrorKind::InvalidData))
}

fn answered(rt: &HostRuntime, table: &str, row: &str, line: &mut Line) -> Option<()> {
    let row = written_out(rt.alloc(), row)?;
    answer(rt, table, row.as_slice(), line)
}

// Makes the call of a table with a row.
fn answer(rt: &HostRuntime, table: &str, row: &[u8], line: &mut Line) -> Option<()> {
    let alloc = rt.alloc();
    match table {
        "parse" => values::parse(alloc, row, line),
        "resolve" => values::resolve(alloc, row, line),
        "authority" => values::authority(alloc, row, line),
        "compare" => values::compare(alloc, row, line),
        "query_of" => values::query(row, line),
        "is_ws" => values::white_space(row, line),
        "around" => values::halves(row, line),
        "got" => values::got(alloc, row, line),
        "failed" => values::failed(alloc, row, line),
        "table" => values::table(alloc, row, line),
        "body" => values::body(alloc, row, line),
        "page_fault" => values::page_fault(row, line),
        "control" => headers::control(row, line),
        "heeding" => headers::heeding(row, line),
        "is_token" => headers::token(row, line),
        "capability" => headers::capability(alloc, row, line),
        _ => answer_of_language(rt, table, row, line),
    }
}

// Does so for tables of texts of the language.
fn answer_of_language(rt: &HostRuntime, table: &str, row: &[u8], line: &mut Line) -> Option<()> {
    let alloc = rt.alloc();
    match table {
        "scan" => scanning::scan(alloc, row, line),
        "attributes" => scanning::attributes(alloc, row, line),
        "trouble_at" => scanning::trouble_at(alloc, row, line),
        "parts" => language::parts(alloc, row, line),
        "substitute" => language::substitute(alloc, row, line),
        "substitute_within" => language::substitute_within(alloc, row, line),
        "reference_at" => language::reference_at(alloc, row, line),
        "holds" => language::holds(alloc, row, line),
        "template" => trees::template(alloc, row, line),
        "tree_fault" => trees::tree_fault(row, line),
        "check" => checking::check(alloc, row, line),
        "trouble_of" => checking::trouble_of(alloc, row, line),
        "position_of" => checking::position_of(row, line),
        "report" => checking::report(alloc, row, line),
        _ => answer_of_pages(rt, table, row, line),
    }
}

// Does so for tables of pages, of what HTTP carries, and of the cache.
fn answer_of_pages(rt: &HostRuntime, table: &str, row: &[u8], line: &mut Line) -> Option<()> {
    let alloc = rt.alloc();
    match table {
        "plain_page" => meaning::plain_page(alloc, row, line),
        "error_page" => meaning::error_page(alloc, row, line),
        "leg_url" => meaning::leg_url(alloc, row, line),
        "are_levels" => meaning::are_levels(row, line),
        "answer_head" => heads::answer_head(alloc, row, line),
        "has_passed" => heads::has_passed(alloc, row, line),
        "passed_edges" => heads::passed_edges(alloc, row, line),
        "cookies_named" => heads::cookies_named(alloc, row, line),
        "lines_named" => heads::lines_named(alloc, row, line),
        "hosts" => heads::hosts(alloc, row, line),
        "response_of" => responses::response_of(rt, row, line),
        "fields" => responses::fields(rt, row, line),
        "refusal_of" => responses::refusal_of(rt, row, line),
        "frames" => responses::frames(rt, row, line),
        "shard" => shards::play(alloc, row, line),
        _ => None,
    }
}
