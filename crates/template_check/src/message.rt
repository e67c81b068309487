//! What is wrong with a text, in words.

ghost use Rattle.std.specs.Prelude.{◌≡◌, ◌≤◌, Some, length};
ghost use Rattle.std.specs.Fmt.{WritesOnOk};
ghost use Rattle.esi_scanner.specs.Bytes.{is_attribute_byte, attribute_len};
ghost use Rattle.template_check.specs.Messages as spec;

use crate::checker::Fault;
use crate::elements::Opened;
use crate::position::{Position, position_of};
use crate::reason::Reason;
use crate::trouble::TestTrouble;
use esi_scanner::{ElementName, KnownAttribute, Problem, Trouble};
use std::fmt::Write;
use std::{fmt, str};

/// A fault of a text, to be printed as `LINE:COLUMN: error: WORDS`, without a line feed.
#[derive(Clone, Copy, Drop)]
pub struct Message<'a> {
    pub text: &'a [u8],
    pub fault: Fault,
}

// Bytes as text, as all names are.
#[tactic(auto, using(crate::proofs::MessageLemmas::shown_text, crate::proofs::MessageLemmas::shown_none))]
fn shown(bytes: &[u8]) -> &str
    ensures { result.now ≡ spec.shown bytes.now }
{
    match str::from_utf8(bytes) {
        Ok(text) => text,
        Err(_) => "",
    }
}

fn element(name: ElementName) -> &'static str
    ensures { result.now ≡ spec.element_words name }
{
    shown(name.as_bytes())
}

fn attribute(name: KnownAttribute) -> &'static str
    ensures { result.now ≡ spec.attribute_words name }
{
    shown(name.as_bytes())
}

fn is_word_byte(byte: u8) -> bool
    ensures { result ≡ is_attribute_byte byte }
{
    byte.is_ascii_alphanumeric() || matches!(byte, b'-' | b'_' | b':' | b'.')
}

// How many bytes of a name are at the front.
fn word_len(text: &[u8]) -> usize
    ensures value { result ≡ attribute_len text.now }
    ensures within { result ≤ length text.now }
{
    for (i, byte) in text.iter().enumerate() {
        if !is_word_byte(*byte) {
            return i;
        }
    }
    text.len()
}

// The name that is at a place.
fn word_at(text: &[u8], place: usize) -> &str
    ensures { result.now ≡ spec.word_at text.now place }
{
    let (_, rest) = text.split_at(place.min(text.len()));
    let (word, _) = rest.split_at(word_len(rest));
    shown(word)
}

// What an attribute that an element needs may look like.
fn example_of(name: KnownAttribute) -> &'static str
    ensures { result.now ≡ spec.example_of name }
{
    match name {
        KnownAttribute::Test => "test=\"$(HTTP_COOKIE{name})=='text'\"",
        KnownAttribute::Name => "name=\"/box\"",
        _ => "src=\"/news\"",
    }
}

// A part that is missing in an element, with what the part needs itself.
fn part(name: ElementName) -> &'static str
    ensures { result.now ≡ spec.part_words name }
{
    match name {
        ElementName::When => "<esi:when test=\"..\">",
        ElementName::Attempt => "<esi:attempt>",
        _ => "<esi:except>",
    }
}

// An element that was opened in a text, by its name and the line of its tag.
#[derive(Clone, Copy, Drop)]
struct OpenedAt<'a> {
    text: &'a [u8],
    opened: Opened,
}

impl fmt::Display for OpenedAt<'_> {
    ghost output = { λ at. Some (spec.opened_at at.text.now at.opened) };

    #[tactic(auto, unfolding(crate::specs::Messages::opened_at))]
    fn fmt<W: fmt::Write>(&self, f: &mut fmt::Formatter<W>) -> fmt::Result {
        let name = element(self.opened.name);
        let Position { line, .. } = position_of(self.text, self.opened.place);
        write!(f, "<esi:{name}> from line {line}")
    }
}

fn write_trouble<W: fmt::Write>(
    f: &mut fmt::Formatter<W>,
    text: &[u8],
    trouble: Trouble,
) -> fmt::Result
    ensures { WritesOnOk W.write_str_gives f.old result (spec.trouble_words text.now trouble) f.new }
{
    let word = word_at(text, trouble.place);
    match trouble.problem {
        Problem::UnknownElement => write!(
            f,
            "no element has the name `{word}`: there are include, inline, choose, when, otherwise, try, attempt, except, vars, comment and remove"
        ),
        Problem::NoSpace => write!(f, "white space is missing before the attribute `{word}`"),
        Problem::NoEquals => write!(f, "`=` is missing after the attribute `{word}`"),
        Problem::NoQuote => write!(f, "the value of the attribute `{word}` needs quotes"),
        Problem::OpenQuote => write!(
            f,
            "the quote before the value of the attribute `{word}` has no second one"
        ),
        Problem::Twice => write!(f, "the attribute `{word}` is given twice"),
        Problem::TextEnds => f.write_str("the text ends before the tag does: `>` is missing"),
        Problem::StrayByte => f.write_str("this can't stand in a tag: is `>` or a quote missing?"),
        Problem::NoRemoveEnd => f.write_str(
            "<esi:remove> has no </esi:remove> after it: put it where the part to be left out ends",
        ),
        Problem::NoBlockEnd => f.write_str("<!--esi has no --> after it"),
    }
}

// An element that may not stand on its own.
fn write_alone<W: fmt::Write>(f: &mut fmt::Formatter<W>, name: ElementName) -> fmt::Result
    ensures { WritesOnOk W.write_str_gives f.old result (spec.alone_words name) f.new }
{
    let inner = element(name);
    match name {
        ElementName::When | ElementName::Otherwise => {
            write!(f, "<esi:{inner}> can stand in <esi:choose> alone")
        }
        _ => write!(f, "<esi:{inner}> can stand in <esi:try> alone"),
    }
}

fn write_misplaced<W: fmt::Write>(
    f: &mut fmt::Formatter<W>,
    text: &[u8],
    name: ElementName,
    within: Option<Opened>,
) -> fmt::Result
    ensures { WritesOnOk W.write_str_gives f.old result (spec.misplaced_words text.now name within) f.new }
{
    let Some(opened) = within else {
        return write_alone(f, name);
    };
    let inner = element(name);
    let outer = element(opened.name);
    let within = OpenedAt { text, opened };
    write!(
        f,
        "<esi:{inner}> can't stand directly in {within}: is </esi:{outer}> missing before it?"
    )
}

// Text in an element that takes only these parts.
fn write_parts<W: fmt::Write>(
    f: &mut fmt::Formatter<W>,
    parts: &str,
    text: &[u8],
    opened: Opened,
) -> fmt::Result
    ensures { WritesOnOk W.write_str_gives f.old result (spec.parts_words parts.now text.now opened) f.new }
{
    let outer = element(opened.name);
    let within = OpenedAt { text, opened };
    write!(
        f,
        "only {parts} can stand directly in {within}: move this into one of them, or out of <esi:{outer}>"
    )
}

fn write_run<W: fmt::Write>(f: &mut fmt::Formatter<W>, text: &[u8], opened: Opened) -> fmt::Result
    ensures { WritesOnOk W.write_str_gives f.old result (spec.run_words text.now opened) f.new }
{
    match opened.name {
        ElementName::Choose => write_parts(f, "<esi:when> and <esi:otherwise>", text, opened),
        ElementName::Try => write_parts(
            f,
            "<esi:attempt> and, for where that fails, <esi:except>",
            text,
            opened,
        ),
        _ => {
            let within = OpenedAt { text, opened };
            write!(f, "{within} is still open here: end its tag with `/>`")
        }
    }
}

fn write_second<W: fmt::Write>(
    f: &mut fmt::Formatter<W>,
    text: &[u8],
    name: ElementName,
    within: Option<Opened>,
) -> fmt::Result
    ensures { WritesOnOk W.write_str_gives f.old result (spec.second_words text.now name within) f.new }
{
    let inner = element(name);
    match within {
        Some(opened) => {
            let outer = OpenedAt { text, opened };
            write!(f, "{outer} has an <esi:{inner}> already")
        }
        None => write!(f, "a second <esi:{inner}>"),
    }
}

fn write_lack<W: fmt::Write>(
    f: &mut fmt::Formatter<W>,
    name: ElementName,
    lacked: KnownAttribute,
) -> fmt::Result
    ensures { WritesOnOk W.write_str_gives f.old result (spec.lack_words name lacked) f.new }
{
    let inner = element(name);
    let needed = attribute(lacked);
    let example = example_of(lacked);
    write!(
        f,
        "<esi:{inner}> needs the attribute `{needed}`, such as {example}"
    )
}

fn write_test<W: fmt::Write>(f: &mut fmt::Formatter<W>, trouble: TestTrouble) -> fmt::Result
    ensures { WritesOnOk W.write_str_gives f.old result (spec.test_words trouble) f.new }
{
    let byte = trouble.place.saturating_add(1);
    let problem = trouble.problem;
    write!(
        f,
        "the attribute `test` can't be read from its byte {byte} on: {problem}; a test looks like $(HTTP_COOKIE{{name}})=='text'"
    )
}

fn write_ending<W: fmt::Write>(
    f: &mut fmt::Formatter<W>,
    text: &[u8],
    opened: Opened,
    lacked: ElementName,
) -> fmt::Result
    ensures { WritesOnOk W.write_str_gives f.old result (spec.ending_words text.now opened lacked) f.new }
{
    let outer = OpenedAt { text, opened };
    let inner = part(lacked);
    write!(f, "{outer} has no {inner}")
}

fn write_closing<W: fmt::Write>(
    f: &mut fmt::Formatter<W>,
    text: &[u8],
    name: ElementName,
    within: Option<Opened>,
) -> fmt::Result
    ensures { WritesOnOk W.write_str_gives f.old result (spec.closing_words text.now name within) f.new }
{
    let ends = element(name);
    match within {
        Some(opened) => {
            let inner = OpenedAt { text, opened };
            write!(
                f,
                "</esi:{ends}> closes nothing here: {inner} is still open, so close that first"
            )
        }
        None => write!(f, "</esi:{ends}> closes nothing: no element is open"),
    }
}

fn write_ends<W: fmt::Write>(f: &mut fmt::Formatter<W>, text: &[u8], opened: Opened) -> fmt::Result
    ensures { WritesOnOk W.write_str_gives f.old result (spec.ends_words text.now opened) f.new }
{
    let outer = element(opened.name);
    let within = OpenedAt { text, opened };
    write!(
        f,
        "the text ends, and {within} is still open: </esi:{outer}> is missing"
    )
}

fn write_reason<W: fmt::Write>(
    f: &mut fmt::Formatter<W>,
    text: &[u8],
    reason: Reason,
) -> fmt::Result
    ensures { WritesOnOk W.write_str_gives f.old result (spec.reason_words text.now reason) f.new }
{
    match reason {
        Reason::Malformed(trouble) => write_trouble(f, text, trouble),
        Reason::NoRun(Some(opened)) => write_run(f, text, opened),
        Reason::NoRun(None) => f.write_str("nothing can stand here"),
        Reason::TooDeep => f.write_str("32 elements are open here, and no more may be"),
        Reason::Misplaced { name, within } => write_misplaced(f, text, name, within),
        Reason::Second { name, within } => write_second(f, text, name, within),
        Reason::Lacks { name, attribute } => write_lack(f, name, attribute),
        Reason::BadTest(trouble) => write_test(f, trouble),
        Reason::NoWhen(opened) => write_ending(f, text, opened, ElementName::When),
        Reason::NoHalf { part, opened } => write_ending(f, text, opened, part),
        Reason::Unopened(name) => write_closing(f, text, name, None),
        Reason::Crossed { name, opened } => write_closing(f, text, name, Some(opened)),
        Reason::Ends(Some(opened)) => write_ends(f, text, opened),
        Reason::Ends(None) => f.write_str("the text ends too early"),
    }
}

impl fmt::Display for Message<'_> {
    ghost output = { λ message. Some (spec.message_of message.text.now message.fault) };

    fn fmt<W: fmt::Write>(&self, f: &mut fmt::Formatter<W>) -> fmt::Result {
        let Position { line, column } = self.fault.position(self.text);
        write!(f, "{line}:{column}: error: ")?;
        write_reason(f, self.text, self.fault.reason)
    }
}
