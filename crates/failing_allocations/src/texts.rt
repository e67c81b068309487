//! Texts: their tokens, references, tests and trees, what is wrong with them, and lists of events.

use allocation_tools::printing::{answers, bytes, calls, number, out_of_memory, word};
use allocation_tools::values::request;
use edge_types::{NoMemory, PageBody, Request, SharedBytes};
use esi_scanner::{Kind, ScanFault, Token};
use esi_tree::{Node, TreeFault};
use esi_vars::{Lookups, Part, Reference};
use std::alloc::Global;
use template_check::{Fault, Message, ReportFault, Told, Warned};

/// A template with each element.
pub const TEMPLATE: &str =
    "A<esi:include src=\"/x$(QUERY_STRING)&amp;\" alt='/y' onerror='continue'/><esi:inline name='/i'>I</esi:inline><esi:try><esi:attempt>T<esi:include src='/i'/></esi:attempt><esi:except>E</esi:except></esi:try><esi:choose><esi:when test=\"!($(HTTP_COOKIE{c})=='1')\">W</esi:when><esi:otherwise>O</esi:otherwise></esi:choose><esi:vars>V$(HTTP_COOKIE{c}|'d')</esi:vars><esi:comment text='c'/><esi:remove>R</esi:remove><!--esi B-->";

// References with a key, a default, and a name that isn't known.
const REFERENCES: &[u8] = b"a$(HTTP_COOKIE{c}|'d')b$(NAME{k}|e)";

// A text that is no template, and one that gets two warnings.
const BAD: &[u8] = b"<esi:vars>\n<esi:when test='1'>";

const DOUBTFUL: &[u8] = b"$(HTTP_HOST)\n<esi:vars>$(NAME)</esi:vars>";

/// Shared bytes of a text.
pub fn shared(alloc: Global, text: &[u8]) -> Option<SharedBytes> {
    SharedBytes::copy_of(alloc, text).ok()
}

pub fn scan(rt: &HostRuntime, name: &str) -> Option<()> {
    calls(rt, name)?;
    let scanned = esi_scanner::scan(rt.alloc(), TEMPLATE.as_bytes());
    answers(rt)?;
    match &scanned {
        Ok(tokens) => print_tokens(rt, tokens.as_slice()),
        Err(ScanFault::NoMemory) => out_of_memory(rt),
        Err(ScanFault::Malformed(at)) => number(rt, *at),
    }
}

// The places of the tokens, and the values of their attributes.
fn print_tokens(rt: &HostRuntime, tokens: &[Token]) -> Option<()> {
    for token in tokens {
        number(rt, token.span.start)?;
        if let Kind::Open(tag) = &token.kind {
            for attribute in tag.attributes.as_slice() {
                bytes(rt, attribute.value.as_bytes())?;
            }
        }
    }
    Some(())
}

pub fn trouble_at(rt: &HostRuntime, name: &str) -> Option<()> {
    calls(rt, name)?;
    let found = esi_scanner::trouble_at(rt.alloc(), b"<esi:include src='/x' src='/y'/>", 0);
    answers(rt)?;
    match &found {
        Ok(trouble) => print!(rt; " {:?} {}", trouble.problem, trouble.place).ok(),
        Err(NoMemory) => out_of_memory(rt),
    }
}

/// The parts of the references.
pub fn parts_of(alloc: Global) -> Option<Vec<Part>> {
    esi_vars::parts(alloc, &shared(alloc, REFERENCES)?).ok()
}

pub fn parts(rt: &HostRuntime, name: &str) -> Option<()> {
    let text = shared(rt.alloc(), REFERENCES)?;
    calls(rt, name)?;
    let found = esi_vars::parts(rt.alloc(), &text);
    answers(rt)?;
    match &found {
        Ok(parts) => {
            for part in parts {
                print_part(rt, part)?;
            }
        }
        Err(NoMemory) => out_of_memory(rt)?,
    }
    word(rt, "left")?;
    bytes(rt, text.as_bytes())
}

fn print_part(rt: &HostRuntime, part: &Part) -> Option<()> {
    match part {
        Part::Text(text) => bytes(rt, text.as_bytes()),
        Part::Reference(reference) => print_reference(rt, reference),
    }
}

fn print_reference(rt: &HostRuntime, reference: &Reference) -> Option<()> {
    word(rt, "reference")?;
    if let Some(key) = &reference.key {
        bytes(rt, key.as_bytes())?;
    }
    if let Some(default) = &reference.default {
        bytes(rt, default.as_bytes())?;
    }
    Some(())
}

pub fn substitute(rt: &HostRuntime, name: &str) -> Option<()> {
    let request = request(rt.alloc())?;
    let parts = parts_of(rt.alloc())?;
    calls(rt, name)?;
    print_text(
        rt,
        &esi_vars::substitute(rt.alloc(), &request, parts.as_slice()),
    )
}

fn print_text(rt: &HostRuntime, made: &Result<Vec<u8>, NoMemory>) -> Option<()> {
    answers(rt)?;
    match made {
        Ok(text) => bytes(rt, text.as_slice()),
        Err(NoMemory) => out_of_memory(rt),
    }
}

pub fn substitute_within(rt: &HostRuntime, name: &str) -> Option<()> {
    let request = request(rt.alloc())?;
    let parts = parts_of(rt.alloc())?;
    let mut lookups = Lookups::none();
    calls(rt, name)?;
    let made = esi_vars::substitute_within(rt.alloc(), &request, parts.as_slice(), 4, &mut lookups);
    print_within(rt, &made)
}

fn print_within(rt: &HostRuntime, made: &Result<Option<Vec<u8>>, NoMemory>) -> Option<()> {
    answers(rt)?;
    match made {
        Ok(Some(text)) => bytes(rt, text.as_slice()),
        Ok(None) => word(rt, "too long"),
        Err(NoMemory) => out_of_memory(rt),
    }
}

/// With a cookie whose value is a piece by itself: the lengths of the pieces.
pub fn push_values(rt: &HostRuntime, name: &str) -> Option<()> {
    let mut request = Request::empty();
    request.cookie = long_cookie(rt.alloc())?;
    let parts = parts_of(rt.alloc())?;
    calls(rt, name)?;
    push_values_of(rt, &request, parts.as_slice())
}

// The cookie `c`, of 300 bytes.
fn long_cookie(alloc: Global) -> Option<SharedBytes> {
    let mut cookie = b"c=".to_vec(alloc).ok()?;
    cookie.extend_from_slice(&[b'x'; 300]).ok()?;
    SharedBytes::of(cookie).ok()
}

fn push_values_of(rt: &HostRuntime, request: &Request, parts: &[Part]) -> Option<()> {
    let mut body = PageBody::new(rt.alloc());
    let put = esi_vars::push_values(
        rt.alloc(),
        request,
        parts,
        &mut body,
        400,
        &mut Lookups::none(),
    );
    print_put(rt, put, &body)
}

fn print_put(rt: &HostRuntime, put: Result<(), NoMemory>, body: &PageBody) -> Option<()> {
    answers(rt)?;
    match put {
        Ok(()) => print_lengths(rt, body),
        Err(NoMemory) => out_of_memory(rt),
    }
}

fn print_lengths(rt: &HostRuntime, body: &PageBody) -> Option<()> {
    for i in 0..body.mark() {
        number(rt, body.piece(i)?.len())?;
    }
    Some(())
}

pub fn reference_at(rt: &HostRuntime, name: &str) -> Option<()> {
    calls(rt, name)?;
    let found = esi_vars::reference_at(rt.alloc(), b"$(HTTP_COOKIE{c}|'d')b");
    answers(rt)?;
    match &found {
        Ok(Some((reference, rest))) => {
            print_reference(rt, reference)?;
            bytes(rt, rest)
        }
        Ok(None) => word(rt, "no reference"),
        Err(NoMemory) => out_of_memory(rt),
    }
}

pub fn trouble_of(rt: &HostRuntime, name: &str) -> Option<()> {
    calls(rt, name)?;
    let found = template_check::trouble_of(rt.alloc(), b"$(HTTP_COOKIE{c}|'d')=='1'&");
    answers(rt)?;
    match &found {
        Ok(trouble) => print!(rt; " {} {}", trouble.place, trouble.problem).ok(),
        Err(NoMemory) => out_of_memory(rt),
    }
}

pub fn template(rt: &HostRuntime, name: &str) -> Option<()> {
    let text = shared(rt.alloc(), TEMPLATE.as_bytes())?;
    calls(rt, name)?;
    let read = esi_tree::template(rt.alloc(), &text);
    answers(rt)?;
    match &read {
        Ok(template) => print_nodes(rt, template.nodes())?,
        Err(TreeFault::NoMemory) => out_of_memory(rt)?,
        Err(TreeFault::Bad(at)) => number(rt, *at)?,
    }
    word(rt, "left")?;
    number(rt, text.len())
}

fn print_nodes(rt: &HostRuntime, nodes: &[Node]) -> Option<()> {
    for node in nodes {
        match node {
            Node::Text(text) => bytes(rt, text.as_bytes())?,
            Node::Include(_) => word(rt, "include")?,
            _ => word(rt, "element")?,
        }
    }
    Some(())
}

pub fn check(rt: &HostRuntime, name: &str) -> Option<()> {
    let text = shared(rt.alloc(), BAD)?;
    calls(rt, name)?;
    let checked = template_check::check(rt.alloc(), &text);
    answers(rt)?;
    match checked {
        Ok(Some(fault)) => print_fault(rt, fault),
        Ok(None) => word(rt, "no fault"),
        Err(NoMemory) => out_of_memory(rt),
    }
}

fn print_fault(rt: &HostRuntime, fault: Fault) -> Option<()> {
    let message = Message { text: BAD, fault };
    print!(rt; " {message}").ok()
}

pub fn warnings(rt: &HostRuntime, name: &str) -> Option<()> {
    calls(rt, name)?;
    let found = template_check::warnings(rt.alloc(), DOUBTFUL);
    answers(rt)?;
    match &found {
        Ok(found) => print_warnings(rt, found.as_slice()),
        Err(NoMemory) => out_of_memory(rt),
    }
}

fn print_warnings(rt: &HostRuntime, found: &[Warned]) -> Option<()> {
    for warned in found {
        print!(rt; " {} {}", warned.place, warned.warning).ok()?;
    }
    Some(())
}

/// What is reported of a text that is no template, and of one that gets warnings. The lines that are written go into a
/// list of bytes, whose growths are the program's own.
pub fn report_fault(rt: &HostRuntime, name: &str) -> Option<()> {
    report(rt, name, BAD)
}

pub fn report_warnings(rt: &HostRuntime, name: &str) -> Option<()> {
    report(rt, name, DOUBTFUL)
}

fn report(rt: &HostRuntime, name: &str, text: &[u8]) -> Option<()> {
    let text = shared(rt.alloc(), text)?;
    let mut lines = Vec::with_capacity(rt.alloc(), 1000).ok()?;
    calls(rt, name)?;
    let told = template_check::report(rt.alloc(), &mut lines, "f", &text);
    answers(rt)?;
    print_told(rt, &told)?;
    word(rt, "left")?;
    number(rt, lines.len())
}

fn print_told(rt: &HostRuntime, told: &Result<Told, ReportFault>) -> Option<()> {
    match told {
        Ok(told) => print!(rt; " errors {} warnings {}", told.errors, told.warnings).ok(),
        Err(ReportFault::NoMemory) => out_of_memory(rt),
        Err(ReportFault::Write) => word(rt, "write"),
    }
}

pub fn read_events(rt: &HostRuntime, name: &str) -> Option<()> {
    calls(rt, name)?;
    let read = edge_case::read_events(rt.alloc(), b"c,p0,a,c,p12,c,p0,a,a");
    answers(rt)?;
    match &read {
        Ok(Some(events)) => {
            for event in events {
                print!(rt; " {event:?}").ok()?;
            }
            Some(())
        }
        Ok(None) => word(rt, "no list"),
        Err(NoMemory) => out_of_memory(rt),
    }
}
