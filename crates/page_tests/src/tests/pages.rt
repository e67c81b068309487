//! Pages that are run by lists of events over tables: how many slots, pieces and steps they have, and what
//! is logged, which no case shows. A table has a line for each answer: its path, `failed` or a status, `esi` or
//! `plain`, and the body. The page is at `/p`. Below a table are its rows: how many slots there may be ahead
//! (several numbers: each of them), how many levels, how many times each event happens or a list of events, a
//! name, and after ` => ` how the text about the page begins, or after a list of events the whole of it.
//! `{/x}` means an include of `/x`, and `{/x!}` one with onerror="continue"; between two `~` is what comes
//! several times, as `3*{/x^}`, with `^` for which time it is.

use super::{answer, url_of};
use edge_case::read_events;
use edge_types::{Answer, NoMemory, Outcome, PageFault, Request, Table};
use esi_meaning::are_levels;
use plan_runner::{Event, MAX_AHEAD, Page, Running, State, run_events};
use std::alloc::Global;
use std::fmt::Write;
use std::process::Abort;
use std::str;
use std::sync::Arc;
use std::test::Fail;

// The text with its repeated parts, includes and numbers written out.
fn written_out(alloc: Global, short: &str) -> Result<String, NoMemory> {
    let mut text = String::new(alloc);
    for part in short.split('~') {
        let (times, part) = part.split_once('*').unwrap_or(("1", part));
        for number in 0..times.parse::<u32>().unwrap_or(1) {
            for c in part.chars() {
                match c {
                    '{' => text.push_str("<esi:include src='")?,
                    '!' => text.push_str("' onerror='continue")?,
                    '}' => text.push_str("'/>")?,
                    '^' => write!(text, "{number}")?,
                    _ => text.push(c)?,
                }
            }
        }
    }
    Ok(text)
}

// Inserts the answer that a line describes.
fn insert(rt: &impl Abort, alloc: Global, table: &mut Table, line: &str) -> Result<(), NoMemory> {
    let (path, said) = line.split_once(' ').unwrap_or((line, ""));
    let (status, said) = said.split_once(' ').unwrap_or(("", ""));
    let (kind, body) = said.split_once(' ').unwrap_or(("", ""));
    let mut text = String::new(alloc);
    text.push_str("http://a.test")?;
    text.push_str(path)?;
    let url = url_of(rt, alloc, text.as_str())?;
    // Nothing was fetched if there is no status.
    let status = status.parse::<u16>().unwrap_or(0);
    if let Some(answer) = answer(alloc, url, status, kind == "esi", body)? {
        assert!(rt; table.insert(Arc::new(alloc, answer)?).is_ok(), "{line}");
    }
    Ok(())
}

fn text_of<'a>(bytes: &'a [u8]) -> &'a str {
    str::from_utf8(bytes).unwrap_or("?")
}

// The path of an answer.
fn path_of(answer: Option<&Arc<Answer>>) -> &str {
    match answer {
        Some(answer) => {
            let url = text_of(answer.url().as_bytes());
            url.strip_prefix("http://a.test").unwrap_or(url)
        }
        None => "nothing",
    }
}

// Adds to the line where a page is: `waits` and a URL; or the first bytes of the first pieces, a
// bar after each, or the fault, and of an include the answer at which it failed; how much there is of everything, and the
// paths of the logged answers.
fn push_state(line: &mut String, page: &Page, state: &State) -> Result<(), NoMemory> {
    match state {
        State::Waiting(url) => write!(line, "waits {};", text_of(url.as_bytes()))?,
        State::Done(outcome) => match &**outcome {
            Outcome::Page { body, .. } => {
                for i in 0..body.mark().min(10) {
                    let piece = body.piece(i).unwrap_or(&[]);
                    line.push_str(text_of(&piece[..piece.len().min(8)]))?;
                    line.push_str("|")?;
                }
                if body.piece(body.mark()).is_some() {
                    line.push_str("a piece past the end")?;
                }
                write!(line, "; bytes {}; pieces {};", body.len(), body.mark())?;
            }
            Outcome::Fault(PageFault::BadTemplate(at)) => write!(line, "fault 2 at {at};")?,
            Outcome::Fault(PageFault::IncludeFailed) => {
                write!(line, "fault 3 at {};", path_of(page.failed_leg()))?
            }
            Outcome::Fault(fault) => write!(line, "fault {};", fault.number())?,
        },
    }
    write!(line, " slots {}; steps {}; log", page.slots(), page.steps())?;
    for number in 0..page.posted() {
        write!(line, " {}", path_of(page.logged(number)))?;
    }
    if page.logged(page.posted()).is_some() {
        line.push_str(" an answer past the end")?;
    }
    Ok(())
}

// The state of a page over this table after these events.
fn told(
    rt: &impl Abort,
    alloc: Global,
    table: &Table,
    (ahead, levels): (u16, u8),
    events: &[Event],
) -> Result<String, NoMemory> {
    assert!(rt; ahead <= MAX_AHEAD && are_levels(levels));
    let url = url_of(rt, alloc, "http://a.test/p")?;
    let running = Running {
        ahead,
        events,
        levels,
    };
    match run_events(alloc, url, Request::empty(), table, running) {
        Ok((page, state)) => {
            assert!(rt; page.ahead() == ahead && page.levels() == levels);
            line_of(alloc, &page, &state)
        }
        Err(_) => Err(NoMemory),
    }
}

// The line about where a page is.
fn line_of(alloc: Global, page: &Page, state: &State) -> Result<String, NoMemory> {
    let mut line = String::new(alloc);
    push_state(&mut line, page, state)?;
    Ok(line)
}

// These events, this many times.
fn repeated(alloc: Global, times: usize, listed: &[Event]) -> Result<Vec<Event>, NoMemory> {
    let mut events = Vec::new(alloc);
    for _ in 0..times {
        events.extend_from_slice(listed)?;
    }
    Ok(events)
}

// Each answer as it comes, and three at a time, the newest first.
const ONE_BY_ONE: [Event; 3] = [Event::Claim, Event::Post(0), Event::Advance];

const NEWEST_FIRST: [Event; 7] = [
    Event::Claim,
    Event::Claim,
    Event::Claim,
    Event::Post(2),
    Event::Post(1),
    Event::Post(0),
    Event::Advance,
];

// Checks a row of this table: by its list of events; or in one order, and in both if there are many events.
fn row_holds(rt: &impl Abort, alloc: Global, table: &Table, row: &str) -> Result<(), NoMemory> {
    let (head, wanted) = row.split_once(" => ").expect(rt, "what is wanted");
    let mut words = head.split(' ');
    let aheads = words.next().unwrap_or("");
    let levels = words.next().unwrap_or("").parse::<u8>().unwrap_or(0);
    let times = words.next().unwrap_or("");
    let listed = read_events(alloc, times.as_bytes())?;
    let times = times.parse::<usize>().unwrap_or(0);
    for ahead in aheads.split(',') {
        let limits = (ahead.parse::<u16>().unwrap_or(u16::MAX), levels);
        if let Some(events) = &listed {
            let line = told(rt, alloc, table, limits, events)?;
            assert!(rt; line.as_str() == wanted, "{row} {line}");
            continue;
        }
        let line = told(
            rt,
            alloc,
            table,
            limits,
            &repeated(alloc, times, &ONE_BY_ONE)?,
        )?;
        assert!(rt; line.as_str().starts_with(wanted), "{row} {line}");
        if times > 10 {
            let line = told(
                rt,
                alloc,
                table,
                limits,
                &repeated(alloc, times, &NEWEST_FIRST)?,
            )?;
            assert!(rt; line.as_str().starts_with(wanted), "{row} {line}");
        }
    }
    Ok(())
}

const TABLES: &str = r#"/p 200 esi A{/x}B
/x 200 plain 1
0,16 4 300 one include => A|1|B|; bytes 3; pieces 3; slots 2;
2 4 300 a piece for each text => A|1|B|; bytes 3; pieces 3; slots 2;
0 4 p0,c,c,p5,p0,p0,c nothing is in hand, and nothing unclaimed => waits http://a.test/x; slots 2; steps 1; log /p
0 4 a,c,a,p0,a,c,p0,a,c,p0,a an advance at each turn => A|1|B|; bytes 3; pieces 3; slots 2; steps 3; log /p /x

/p 200 esi 
0,16 4 300 an empty page => ; bytes 0; pieces 0; slots 1;

/p 404 esi gone
0,16 4 300 a page that isn't there => gone|; bytes 4; pieces 1; slots 1;

/p 200 plain a
0,16 4 300 a page as it stands => a|; bytes 1; pieces 1; slots 1;

/p failed
0,16 4 300 a page that can't be had => fault 1; slots 1;

/p 200 esi <esi:try>
0,16 4 300 a page that is no template => fault 2 at 9; slots 1;

/p 200 esi {/x}
0,16 4 300 an include that nobody answers => fault 3 at /x; slots 2;

/p 200 esi {/b!}{/a}{/c!}
0,16 4 300 one include among those that are excused => fault 3 at /a;

/p 200 esi {/x!}{/y!}{/x}
0,16 4 300 the second of two includes that ask for one URL => fault 3 at /x;

/p 200 esi A<esi:include src='/x' alt='/y'/>B
/x 404 plain 1
/y 500 plain 2
0,16 4 300 an alternate that fails as well => fault 3 at /y;

/p 200 esi <esi:try><esi:attempt>{/x}</esi:attempt><esi:except>{/y}</esi:except></esi:try>{/z!}
0,16 4 300 an except that fails as well => fault 3 at /y;

/p 200 esi {/f}
/f 200 esi {/g}{/h!}
0,16 4 300 an include of a fragment => fault 3 at /g;

/p 200 esi {/f}
/f 200 esi <esi:try>
0,16 4 300 a fragment that is no template => fault 3 at /f;

/p 200 esi <esi:inline name='/i' fetchable='yes'>{/g!}</esi:inline>{/i}{//}
0,16 4 300 an include of what is no URL => fault 3 at nothing;

/p 200 esi A<esi:include src='/x' alt='/y'/>B
/x 404 plain 1
/y 200 plain 2
0,16 4 300 an alternate => A|2|B|; bytes 3; pieces 3; slots 3;
16 4 c,p0,c,c,p1,a the alternate before the source => waits http://a.test/x; slots 3; steps 2; log /p /y
16 4 c,p0,c,c,p1,a,p0 the alternate before a source that fails => A|2|B|; bytes 3; pieces 3; slots 3; steps 5; log /p /y /x

/p 200 esi <esi:try><esi:attempt>T{/x}</esi:attempt><esi:except>E</esi:except></esi:try>
0,16 4 300 an except => E|; bytes 1; pieces 1; slots 2;

/p 200 esi {/x}{/x#f}{http://a.test/x}
/x 200 plain 1
0,16 4 300 three names of one fragment => 1|1|1|; bytes 3; pieces 3; slots 2;
16 4 c,p0,c,p0 two answers for three names of one fragment => 1|1|1|; bytes 3; pieces 3; slots 2; steps 3; log /p /x

/p 200 esi P{/1}
/1 200 esi 1{/2}
/2 200 esi 2{/3}
/3 200 esi 3{/4}
/4 200 esi 4{/5}
/5 200 plain 5
0,16 4 300 a fragment too deep => fault 3 at nothing; slots 5;
1 5 300 five fragments, one in the other => P|1|2|3|4|5|; bytes 6; pieces 6; slots 6;

/p 200 esi P{/1}
/1 200 esi 1{/2}
/2 200 esi 2{/3}
/3 200 esi 3{/4}
/4 200 esi 4{/5!}
/5 200 plain 5
0,16 4 300 a fragment too deep, and it continues => P|1|2|3|4|; bytes 5; pieces 5; slots 5;

/p 200 esi P{/s}
/s 200 esi s{/s!}
0,16 4 300 a fragment that includes itself => P|s|s|s|s|; bytes 5; pieces 5; slots 2;
1 1 300 a fragment that includes itself => P|s|; bytes 2; pieces 2; slots 2;

/p 200 esi <esi:inline name='/i'>b</esi:inline>{/i}
/i 200 plain z
0,16 4 300 an inline taken by name => b|b|; bytes 2; pieces 2; slots 1;

/p 200 esi <esi:inline name='/i'>b{/i!}</esi:inline>
0,16 4 300 an inline that includes itself => b|b|b|b|b|; bytes 5; pieces 5; slots 1;
256 8 300 an inline that includes itself => b|b|b|b|b|b|b|b|b|; bytes 9; pieces 9; slots 1;

/p 200 esi <esi:choose><esi:when test="''"><esi:inline name='/i'>b</esi:inline></esi:when></esi:choose>{/i}
0,16 4 300 an inline in a branch that isn't taken => b|; bytes 1; pieces 1; slots 1;

/p 200 esi <esi:inline name='/i'>b</esi:inline>{/f}
/f 200 esi {/i}
/i 200 plain z
0,16 4 300 a fragment doesn't see its page's inlines => b|z|; bytes 2; pieces 2; slots 3;

/p 200 esi <esi:inline name='/i'>1</esi:inline><esi:inline name='i'>2</esi:inline>{/i}
0,16 4 300 the first of two inlines => 1|2|1|; bytes 3; pieces 3; slots 1;

/p 200 esi {/b}{/b}{/b}{/b}{/b}{/b}{/b}{/b}{/b}{/b}
/b 200 esi {/b!}{/b!}{/b!}{/b!}{/b!}{/b!}{/b!}{/b!}{/b!}{/b!}
0,16 4 300 too many legs => fault 4; slots 2;

/p 200 esi <esi:try><esi:attempt>T{/z}</esi:attempt><esi:except>E</esi:except></esi:try>
/z 404 plain 1
2 4 300 no piece of an attempt that failed => E|; bytes 1; pieces 1; slots 2;

/p 200 esi <esi:try><esi:attempt>{/x}</esi:attempt><esi:except>{/z}</esi:except></esi:try>
/x 200 plain 1
/z 404 plain 1
2 4 300 a fetch ahead that fails unasked changes nothing => 1|; bytes 1; pieces 1; slots 3;

/p 200 esi ~1000*{/x}~
/x 200 plain 1
0 4 300 a thousand legs => 1|1|1|1|1|1|1|1|1|1|; bytes 1000; pieces 1000; slots 2;

/p 200 esi ~1001*{/x}~
/x 200 plain 1
0 4 300 one leg more => fault 4; slots 2;

/p 200 esi <esi:try><esi:attempt>~1000*{/x}~</esi:attempt><esi:except>~300*{/z^}~</esi:except></esi:try>
/x 200 plain 1
~300*/z^ 404 plain 1
~
256 4 300 a thousand legs, and three hundred that are asked for ahead alone => 1|1|1|1|1|1|1|1|1|1|; bytes 1000; pieces 1000; slots 257;

/p 200 esi ~10*{/b}~
/b 200 esi ~10*{/b}~
0,1,256 4 300 a fragment that includes itself ten times => fault 3 at nothing; slots 2; steps 5;

/p 200 esi ~10*{/b}~
/b 200 esi ~10*{/b!}~
0,1,256 4 300 the same, and the page goes on without it => fault 4; slots 2;

/p 200 esi ~200*{/x^}~
~200*/x^ 200 plain 1
~
256 4 300 two hundred fragments => 1|1|1|1|1|1|1|1|1|1|; bytes 200; pieces 200; slots 201; steps 200;

/p 200 esi ~900*{/x}~
/x 200 plain ~262144*a~
1 4 300 a long fragment again and again => aaaaaaaa|aaaaaaaa|aaaaaaaa|aaaaaaaa|aaaaaaaa|aaaaaaaa|aaaaaaaa|aaaaaaaa|aaaaaaaa|aaaaaaaa|; bytes 235929600; pieces 900; slots 2;

/p 200 esi {/x}{/y}{/z}
/x 200 plain 1
/y 200 plain 2
/z 200 plain 3
2 4 1 after turn 1 => waits http://a.test/x;
2 4 2 after turn 2 => waits http://a.test/y;
2 4 3 after turn 3 => waits http://a.test/z;
2 4 4 after turn 4 => 1|2|3|; bytes 3; pieces 3; slots 4; steps 3;
2 4 5 after turn 5 => 1|2|3|; bytes 3; pieces 3; slots 4; steps 3;
3 4 300 three answers => 1|2|3|;
2 4 c,p0 two of three slots ahead => waits http://a.test/x; slots 3; steps 0; log /p
0 4 c,p0 no slot ahead, and one for what it waits for => waits http://a.test/x; slots 2; steps 0; log /p
3 4 c,p0,c,c,c,p0,p0,p0 three answers in this order => 1|2|3|; bytes 3; pieces 3; slots 4; steps 3; log /p /x /y /z
3 4 c,p0,c,c,c,p0,p1,p0 three answers in this order => 1|2|3|; bytes 3; pieces 3; slots 4; steps 3; log /p /x /z /y
3 4 c,p0,c,c,c,p1,p0,p0 three answers in this order => 1|2|3|; bytes 3; pieces 3; slots 4; steps 3; log /p /y /x /z
3 4 c,p0,c,c,c,p1,p1,p0 three answers in this order => 1|2|3|; bytes 3; pieces 3; slots 4; steps 3; log /p /y /z /x
3 4 c,p0,c,c,c,p2,p0,p0 three answers in this order => 1|2|3|; bytes 3; pieces 3; slots 4; steps 3; log /p /z /x /y
3 4 c,p0,c,c,c,p2,p1,p0 three answers in this order => 1|2|3|; bytes 3; pieces 3; slots 4; steps 3; log /p /z /y /x

/p 200 esi A<esi:include src='/x' alt='/y'/>B
/x 200 plain 1
/y 200 plain 2
16 4 c,p0,c,c,p1,a,p0 the alternate before its source => A|1|B|; bytes 3; pieces 3; slots 3; steps 5; log /p /y /x

/p 200 esi <esi:try><esi:attempt>{/x}</esi:attempt><esi:except>{/z}</esi:except></esi:try>
/x 200 plain 1
/z 200 plain 9
2 4 c,p0,c,c,p0 an except that is claimed and not posted => 1|; bytes 1; pieces 1; slots 3; steps 3; log /p /x
2 4 c,p0,c,c,p1,p0 an except that is posted first => 1|; bytes 1; pieces 1; slots 3; steps 3; log /p /z /x

/p 200 esi <esi:try><esi:attempt>~1000*{/x}~</esi:attempt><esi:except>~300*{/z^}~</esi:except></esi:try>
/x 200 plain 1
256 4 c,p0,c,p0 a thousand includes are done once the page and their fragment are posted => 1|1|1|1|1|1|1|1|1|1|; bytes 1000; pieces 1000; slots 257; steps 1002; log /p /x"#;

// Checks the rows below a table.
fn rows_hold(rt: &impl Abort, alloc: Global, text: &str) -> Result<(), NoMemory> {
    let mut table = Table::new(alloc);
    for line in text.lines() {
        if line.starts_with('/') {
            insert(rt, alloc, &mut table, line)?;
        } else if !line.is_empty() {
            row_holds(rt, alloc, &table, line)?;
        }
    }
    Ok(())
}

#[test]
fn pages_come_to_so_many_slots_pieces_and_steps(rt: HostRuntime) -> Result<(), Fail> {
    for short in TABLES.split("\n\n") {
        let text = written_out(rt.alloc(), short)?;
        rows_hold(&rt, rt.alloc(), text.as_str())?;
    }
    Ok(())
}
