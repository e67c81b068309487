//! Answers made ready, and second owners of them: their plans, which no page shows.

use super::{answer, url_of};
use edge_types::NoMemory;
use esi_vars::Part;
use plan_compiler::{Form, Plan, Prepared, Step};
use std::alloc::Global;
use std::fmt::Write;
use std::process::Abort;
use std::str;
use std::sync::Arc;
use std::test::Fail;

fn text_of<'a>(bytes: &'a [u8]) -> &'a str {
    str::from_utf8(bytes).unwrap_or("?")
}

// Adds a step to the line, and a space: a text as it is, `$` for values, `?n`, `+n`, `tryn` and
// `endn` for a test, a jump, a try and its end, with what they skip, a leg's text in braces.
fn push_step(line: &mut String, step: &Step) -> Result<(), NoMemory> {
    match step {
        Step::Text(text) => line.push_str(text_of(text.as_bytes()))?,
        Step::Values(_) => line.push_str("$")?,
        Step::Test { skip, .. } => write!(line, "?{skip}")?,
        Step::Jump { skip } => write!(line, "+{skip}")?,
        Step::Try { skip } => write!(line, "try{skip}")?,
        Step::EndTry { skip } => write!(line, "end{skip}")?,
        Step::Leg(leg) => {
            line.push_str("{")?;
            for part in leg.source() {
                match part {
                    Part::Text(bytes) => line.push_str(text_of(bytes.as_bytes()))?,
                    Part::Reference(_) => line.push_str("$")?,
                }
            }
            line.push_str("}")?;
        }
    }
    line.push_str(" ")?;
    Ok(())
}

// Adds the steps to the line, and after them the inlines, as `; name first..end`. No plan of
// these tests has more of either.
fn push_plan(line: &mut String, plan: &Plan) -> Result<(), NoMemory> {
    for i in 0..30 {
        if let Some(step) = plan.step(i) {
            push_step(line, step)?;
        }
    }
    for i in 0..30 {
        if let Some(inline) = plan.inline(i) {
            let name = text_of(inline.name.as_bytes());
            write!(line, "; {name} {}..{}", inline.first, inline.end)?;
        }
    }
    Ok(())
}

const PAGE: &str = "http://a.test/p";

// A second owner of the answer of the page's URL, made ready; its body is processed if `esi` says so.
fn second(rt: &impl Abort, alloc: Global, esi: bool, body: &str) -> Result<Prepared, NoMemory> {
    let url = url_of(rt, alloc, PAGE)?;
    let answer = answer(alloc, url, 200, esi, body)?.expect(rt, "an answer");
    Prepared::of(alloc, Arc::new(alloc, answer)?)?.share()
}

// `plain`, the plan's line, or `bad at` a place.
fn form_told(alloc: Global, prepared: &Prepared) -> Result<String, NoMemory> {
    let mut line = String::new(alloc);
    match prepared.form() {
        Form::Plain => line.push_str("plain")?,
        Form::Planned(plan) => push_plan(&mut line, plan)?,
        Form::BadAt(place) => write!(line, "bad at {place}")?,
    }
    Ok(line)
}

// `esi` or `plain`, a body, ` => `, and what it is, written by hand. Inlines are in text order, which isn't
// the order of the steps.
const FORMS: &str = r#"esi  => 
esi a<esi:remove>b</esi:remove><!--esi c--> => a  c
esi <esi:include src='/x'/> => {/x}
esi <esi:include src='/x' onerror='stop'/> => {/x}
esi <esi:include src='/x' onerror='continue'/> => try2 {/x} end0
esi <esi:include src='/x' alt='/y'/> => try2 {/x} end1 {/y}
esi <esi:include src='/x' alt='/y' onerror='continue'/> => try2 {/x} end3 try2 {/y} end0
esi <esi:try><esi:attempt>a<esi:include src='/x'/></esi:attempt><esi:except>e</esi:except></esi:try>b => try3 a {/x} end1 e b
esi <esi:try><esi:except>e</esi:except><esi:attempt>a</esi:attempt></esi:try> => try2 a end1 e
esi <esi:try><esi:attempt><esi:try><esi:attempt><esi:include src='/1'/></esi:attempt><esi:except>e</esi:except></esi:try></esi:attempt><esi:except>f</esi:except></esi:try> => try5 try2 {/1} end1 e end1 f
esi <esi:try><esi:attempt>a</esi:attempt><esi:except><esi:include src='/x' alt='/y'/></esi:except></esi:try> => try2 a end4 try2 {/x} end1 {/y}
esi <esi:choose><esi:when test="1">a</esi:when></esi:choose> => ?2 a +0
esi <esi:choose><esi:otherwise>o</esi:otherwise><esi:when test="1">a</esi:when><esi:when test="2">b</esi:when></esi:choose>c => ?2 a +4 ?2 b +1 o c
esi <esi:choose><esi:when test="1">a</esi:when><esi:otherwise>o</esi:otherwise><esi:when test="2">b</esi:when></esi:choose>c => ?2 a +4 ?2 b +1 o c
esi <esi:choose><esi:when test="1"></esi:when><esi:otherwise>o</esi:otherwise></esi:choose> => ?1 +1 o
esi <esi:vars>$(HTTP_HOST)<esi:comment text='c'/></esi:vars> => $
esi <esi:inline name='/i'>b</esi:inline>c => b c ; /i 0..1
esi <esi:inline name='/i'></esi:inline>c => c ; /i 0..0
esi <esi:vars><esi:inline name='/i'>$(HTTP_HOST)</esi:inline></esi:vars> => $ ; /i 0..1
esi a<esi:inline name='/o'>b<esi:inline name='/i'>c</esi:inline></esi:inline> => a b c ; /o 1..3; /i 2..3
esi <esi:choose><esi:when test="''"><esi:inline name='/i'>b</esi:inline></esi:when></esi:choose><esi:include src='/i'/> => ?2 b +0 {/i} ; /i 1..2
esi <esi:try><esi:except><esi:inline name='1'>e</esi:inline></esi:except><esi:attempt><esi:inline name='2'>a</esi:inline></esi:attempt></esi:try> => try2 a end1 e ; 1 3..4; 2 1..2
esi <esi:choose><esi:otherwise><esi:inline name='1'>o</esi:inline></esi:otherwise><esi:when test="1"><esi:inline name='2'>a</esi:inline></esi:when></esi:choose> => ?2 a +1 o ; 1 3..4; 2 1..2
esi <esi:choose><esi:when test="1"><esi:inline name='1'>a</esi:inline></esi:when><esi:otherwise><esi:inline name='2'>o</esi:inline></esi:otherwise><esi:when test="2"><esi:inline name='3'>b</esi:inline></esi:when></esi:choose> => ?2 a +4 ?2 b +1 o ; 1 1..2; 2 6..7; 3 4..5
plain 1 => plain
plain <esi:try> => plain
esi <esi:try> => bad at 9
esi A<esi:include src="/x"/>B => A {/x} B"#;

#[test]
fn a_second_owner_is_the_same_answer_plain_planned_or_bad(rt: HostRuntime) -> Result<(), Fail> {
    for row in FORMS.lines() {
        let (given, wanted) = row.split_once(" =>").unwrap_or((row, ""));
        let (kind, body) = given.split_once(' ').unwrap_or((given, ""));
        let second = second(&rt, rt.alloc(), kind == "esi", body)?;
        assert!(rt; second.url().as_bytes() == PAGE.as_bytes(), "{row}");
        assert!(rt; second.answer().body() == body.as_bytes(), "{row}");
        let found = form_told(rt.alloc(), &second)?;
        assert!(rt; found.as_str().trim_end() == wanted.trim_start(), "{row}");
    }
    Ok(())
}

const INLINES: &str =
    "0<esi:inline name='http://u:p@a.test/'>1</esi:inline><esi:inline name='/i'>2</esi:inline><esi:inline name='i'>3</esi:inline><esi:inline name='/j'>4</esi:inline>";

// The URL of each inline, `-` for none, and of what would come after the last.
const URLS: [&str; 5] = [
    "-",
    "http://a.test/i",
    "http://a.test/i",
    "http://a.test/j",
    "-",
];

// The first step of the inline that a URL names, if it names one.
const FOUND: [(&str, Option<usize>); 3] = [
    ("http://a.test/i", Some(2)),
    ("http://a.test/j", Some(4)),
    ("http://a.test/p", None),
];

fn inlines_hold(rt: &impl Abort, alloc: Global, prepared: &Prepared) -> Result<(), NoMemory> {
    for (i, wanted) in URLS.iter().enumerate() {
        let found = match prepared.inline_url(i) {
            Some(url) => text_of(url.as_bytes()),
            None => "-",
        };
        assert!(rt; found == *wanted, "{i}");
    }
    for (text, wanted) in FOUND {
        let url = url_of(rt, alloc, text)?;
        let found = match prepared.inline_for(&url) {
            Some(inline) if inline.end == inline.first.saturating_add(1) => Some(inline.first),
            _ => None,
        };
        assert!(rt; found == wanted, "{text}");
    }
    Ok(())
}

#[test]
fn each_inline_has_its_url_and_the_first_of_one_is_found(rt: HostRuntime) -> Result<(), Fail> {
    let prepared = second(&rt, rt.alloc(), true, INLINES)?;
    Ok(inlines_hold(&rt, rt.alloc(), &prepared)?)
}
