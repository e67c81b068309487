//! What a process can't show of `run_case` and `read_events`: a writer that takes no byte, the items of
//! a list, and a list that is longer than a command line.

use edge_case::{CaseEnd, CaseFault, Running, read_events, run_case};
use plan_runner::Event;
use std::io;
use std::io::Write;
use std::test::Fail;

const CASE: &[u8] =
    b"page http://a.test/p\nanswer 200 25 http://a.test/p\ntype text/html\ncontrol content=\"ESI/1.0\"\nbody\nA<esi:include src=\"/x\"/>B\nanswer 200 1 http://a.test/x\nbody\n1\nend\n";

const PRINTED: &[u8] = b"200 3 text/html\nA1B";

// Takes this many bytes, and then none.
#[derive(Drop)]
struct FullWriter {
    taken: Vec<u8>,
    room: usize,
}

impl Write for FullWriter {
    fn write(&mut self, buf: &[u8]) -> io::Result<usize> {
        let n = self.room.min(buf.len());
        let (front, _) = buf.split_at(n);
        self.taken.extend_from_slice(front)?;
        self.room -= n;
        Ok(n)
    }

    fn flush(&mut self) -> io::Result<()> {
        Ok(())
    }
}

#[test]
fn a_writer_that_takes_none_has_a_first_part(rt: HostRuntime) {
    for room in 0..PRINTED.len() {
        let mut reader = CASE;
        let mut writer = FullWriter {
            taken: Vec::new(rt.alloc()),
            room,
        };
        let running = Running {
            ahead: 16,
            events: &[],
            levels: 4,
        };
        let ended = run_case(rt.alloc(), &mut reader, &mut writer, running);
        let (front, _) = PRINTED.split_at(room);
        assert!(rt;
            matches!(ended, Err(CaseFault::Write)) && writer.taken.as_slice() == front,
            "{room}"
        );
    }
}

const LISTED: [Event; 5] = [
    Event::Claim,
    Event::Post(0),
    Event::Advance,
    Event::Post(12),
    Event::Post(9_999),
];

// The command line can't have a list of more than a hundred thousand items; a caller can.
#[test]
fn lists_of_events_are_read_and_run(rt: HostRuntime) -> Result<(), Fail> {
    let mut text = b"c,p0,a,p0012,p9999".to_vec(rt.alloc())?;
    for _ in 0..60_000 {
        text.extend_from_slice(b",c,p0,a")?;
    }
    let events = read_events(rt.alloc(), &text)?.ok_or("a list")?;
    assert!(rt; events.len() == 180_005 && events.as_slice().starts_with(&LISTED));
    let mut reader = CASE;
    let mut written = Vec::new(rt.alloc());
    let running = Running {
        ahead: 0,
        events: &events,
        levels: 4,
    };
    match run_case(rt.alloc(), &mut reader, &mut written, running) {
        Ok(end) => assert!(rt; end == CaseEnd::PagePrinted),
        Err(_) => return Err("a run".into()),
    }
    assert!(rt; written.as_slice() == PRINTED);
    Ok(())
}
