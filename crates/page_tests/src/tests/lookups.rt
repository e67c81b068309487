//! Values that are looked up in long fields, again and again.

use super::{answer, url_of};
use edge_types::{NoMemory, Octets, Outcome, Request, SharedBytes, Table};
use esi_vars::lookups::{LONG_FIELD, MAX_LOOKUPS};
use esi_vars::{Lookups, Reference, Variable, value_by};
use plan_runner::{Running, run_to_end};
use std::alloc::Global;
use std::fmt::Write;
use std::process::Abort;
use std::sync::Arc;
use std::test::Fail;

// This part of a field so many times, and then the others.
fn field(alloc: Global, part: &str, times: usize, others: &str) -> Result<SharedBytes, NoMemory> {
    let mut text = part.repeat(alloc, times)?;
    text.push_str(others)?;
    SharedBytes::copy_of(alloc, text.as_bytes())
}

// A request with as many cookies as 60,000 bytes hold, in whose names `b` occurs, and then these.
fn request(alloc: Global, others: &str) -> Result<Request, NoMemory> {
    let mut request = Request::empty();
    request.cookie = field(alloc, "ab=;", 15_000, others)?;
    Ok(request)
}

// Twenty comparisons of one cookie, with the numbers from 0.
fn comparisons(alloc: Global) -> Result<String, NoMemory> {
    let mut text = String::new(alloc);
    text.push_str("<esi:choose>")?;
    for number in 0..20 {
        write!(
            text,
            "<esi:when test=\"$(HTTP_COOKIE{{b}})=='{number}'\">branch {number}</esi:when>"
        )?;
    }
    text.push_str("</esi:choose>")?;
    Ok(text)
}

#[test]
fn twenty_comparisons_of_a_cookie_find_their_branch(rt: HostRuntime) -> Result<(), Fail> {
    let alloc = rt.alloc();
    let table = table_of(&rt, alloc, comparisons(alloc)?.as_str())?;
    let outcome = outcome_over(&rt, alloc, &table, "b=19; b=3")?;
    assert!(rt; is_page(&outcome, b"branch 19"));
    Ok(())
}

// A table of the page at `/p` with this text alone.
fn table_of(rt: &impl Abort, alloc: Global, text: &str) -> Result<Table, Fail> {
    let url = url_of(rt, alloc, "http://a.test/p")?;
    let page = answer(alloc, url, 200, true, text)?.ok_or("an answer")?;
    let mut table = Table::new(alloc);
    assert!(rt; table.insert(Arc::new(alloc, page)?).is_ok());
    Ok(table)
}

// The outcome of the page at `/p` for a request with these cookies.
fn outcome_over(
    rt: &impl Abort,
    alloc: Global,
    table: &Table,
    cookies: &str,
) -> Result<Arc<Outcome>, NoMemory> {
    let request = request(alloc, cookies)?;
    let url = url_of(rt, alloc, "http://a.test/p")?;
    let running = Running {
        ahead: 16,
        events: &[],
        levels: 4,
    };
    match run_to_end(alloc, url, request, table, running) {
        Ok((_, outcome)) => Ok(outcome),
        Err(NoMemory) => Err(NoMemory),
    }
}

// Whether it is a page that begins with this piece.
fn is_page(outcome: &Outcome, piece: &[u8]) -> bool {
    match outcome {
        Outcome::Page { body, .. } => body.piece(0) == Some(piece),
        Outcome::Fault(_) => false,
    }
}

fn reference(alloc: Global, variable: Variable, key: &str) -> Result<Reference, NoMemory> {
    Ok(Reference {
        variable,
        key: Some(Octets::copy_of(alloc, key.as_bytes())?),
        default: None,
    })
}

#[test]
fn each_request_has_its_own_value(rt: HostRuntime) -> Result<(), Fail> {
    let b = reference(rt.alloc(), Variable::HttpCookie, "b")?;
    let first = request(rt.alloc(), "b=1")?;
    let second = request(rt.alloc(), "b=2")?;
    looked_up_in_turns(&rt, &b, &first, &second, Lookups::new(rt.alloc()));
    Ok(())
}

fn looked_up_in_turns(
    rt: &impl Abort,
    b: &Reference,
    first: &Request,
    second: &Request,
    mut lookups: Lookups,
) {
    for _ in 0..2 {
        assert!(rt; value_by(first, b, &mut lookups) == b"1".as_slice());
        assert!(rt; value_by(second, b, &mut lookups) == b"2".as_slice());
    }
    assert!(rt; lookups.count() == 2);
}

// A request with a long field for each variable that has parts.
fn long_request(alloc: Global) -> Result<Request, NoMemory> {
    let mut request = request(alloc, "c=1")?;
    request.query = field(alloc, "q=1&", LONG_FIELD, "b=2")?;
    request.accept_language = field(alloc, "de, ", LONG_FIELD, "fr")?;
    request.user_agent = field(alloc, "x ", LONG_FIELD, "MSIE 6.0; Windows")?;
    Ok(request)
}

// Whether a variable has this value under a key.
fn says(
    alloc: Global,
    request: &Request,
    lookups: &mut Lookups,
    variable: Variable,
    key: &str,
    wanted: &str,
) -> Result<bool, NoMemory> {
    let asked = reference(alloc, variable, key)?;
    Ok(value_by(request, &asked, lookups) == wanted.as_bytes())
}

#[test]
fn values_of_all_kinds_are_the_same_again(rt: HostRuntime) -> Result<(), Fail> {
    let alloc = rt.alloc();
    let request = long_request(alloc)?;
    let mut lookups = Lookups::new(alloc);
    for _ in 0..2 {
        for (variable, key, wanted) in [
            (Variable::HttpCookie, "c", "1"),
            (Variable::HttpCookie, "b", ""),
            (Variable::QueryString, "b", "2"),
            (Variable::HttpAcceptLanguage, "fr", "true"),
            (Variable::HttpAcceptLanguage, "it", ""),
            (Variable::HttpUserAgent, "browser", "MSIE"),
            (Variable::HttpUserAgent, "version", "6.0"),
            (Variable::HttpUserAgent, "os", "WIN"),
        ] {
            assert!(rt;
                says(alloc, &request, &mut lookups, variable, key, wanted)?,
                "{wanted}"
            );
        }
        assert!(rt; lookups.count() == 8);
    }
    Ok(())
}

#[test]
fn values_past_the_most_that_are_remembered_are_right(rt: HostRuntime) -> Result<(), Fail> {
    let alloc = rt.alloc();
    let mut others = String::new(alloc);
    for number in 0..=MAX_LOOKUPS {
        write!(others, "n{number}=v{number};")?;
    }
    let request = request(alloc, others.as_str())?;
    let mut lookups = Lookups::new(alloc);
    for number in (0..=MAX_LOOKUPS).chain(0..=MAX_LOOKUPS) {
        assert!(rt;
            says_number(alloc, &request, &mut lookups, number)?,
            "{number}"
        );
    }
    assert!(rt; lookups.count() == MAX_LOOKUPS);
    Ok(())
}

// Whether the cookie with this number has it for its value too.
fn says_number(
    alloc: Global,
    request: &Request,
    lookups: &mut Lookups,
    number: usize,
) -> Result<bool, NoMemory> {
    let name = format!(in alloc; "n{number}")?;
    let wanted = format!(in alloc; "v{number}")?;
    says(
        alloc,
        request,
        lookups,
        Variable::HttpCookie,
        name.as_str(),
        wanted.as_str(),
    )
}

// How many values are known once the cookie `b` was looked up, if that is `1`.
fn known_after(request: &Request, b: &Reference, mut lookups: Lookups) -> Option<usize> {
    if value_by(request, b, &mut lookups) != b"1".as_slice() {
        return None;
    }
    Some(lookups.count())
}

// A request with a cookie `b` behind this many bytes.
fn request_behind(alloc: Global, bytes: usize) -> Result<Request, NoMemory> {
    let mut request = Request::empty();
    request.cookie = field(alloc, ";", bytes, "b=1")?;
    Ok(request)
}

#[test]
fn only_long_fields_are_remembered_and_only_where_asked(rt: HostRuntime) -> Result<(), Fail> {
    let b = reference(rt.alloc(), Variable::HttpCookie, "b")?;
    let short = request_behind(rt.alloc(), LONG_FIELD - 4)?;
    let long = request_behind(rt.alloc(), LONG_FIELD - 3)?;
    assert!(rt; known_after(&short, &b, Lookups::new(rt.alloc())) == Some(0));
    assert!(rt; known_after(&long, &b, Lookups::new(rt.alloc())) == Some(1));
    assert!(rt; known_after(&long, &b, Lookups::none()) == Some(0));
    Ok(())
}
