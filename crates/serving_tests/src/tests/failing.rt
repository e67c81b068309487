//! Streams and acceptors that fail.

ghost use Rattle.std.specs.Prelude.{⊤};
ghost use Rattle.std.specs.Io.{ReadsAtMost, WritesAtMost};

use super::source_of;
use answer_sources::TableSource;
use edge_connections::{Accept, AcceptFault, Capacity, Executor, ServeEnd, Signals};
use fetch_workers::Assembling;
use futures::task::{Context, Poll};
use hyper_edge::{EdgeService, Journal, NoJournal, RequestRecord, serve_accepts, serve_io};
use std::alloc::AllocGlobal;
use std::io;
use std::io::{ErrorKind, Read};
use std::process::Abort;
use std::random::RandomSource;
use std::sync::atomic::{AtomicU64, Ordering};
use std::sync::{Arc, Wait};
use std::test::Fail;
use std::thread::Threads;
use std::time::Clock;
use tokio::io::{AsyncRead, AsyncWrite};

// A server of one thread.
const CAPACITY: Capacity = Capacity {
    threads: 1,
    connections: 64,
};

// What a client sends.
const ASKED: &[u8] = b"GET /p HTTP/1.1\r\nhost: a.test\r\n\r\n";

// A client in memory that sends this many requests, and whose reads and writes fail after this many. It counts
// what is written, and says when a response is out.
#[derive(Drop)]
struct Script {
    requests: u64,
    moves: u64,
    written: Arc<AtomicU64>,
    signals: Arc<Signals>,
}

impl Script {
    // One that counts and tells what it does there. `None` where there is no memory.
    fn of(
        requests: u64,
        moves: u64,
        written: &Arc<AtomicU64>,
        signals: &Arc<Signals>,
    ) -> Option<Script> {
        Some(Script {
            requests,
            moves,
            written: written.clone().ok()?,
            signals: signals.clone().ok()?,
        })
    }

    fn goes_on(&mut self) -> io::Result<()> {
        if self.moves == 0 {
            return Err(ErrorKind::BrokenPipe.into());
        }
        self.moves -= 1;
        Ok(())
    }

    // A whole request at once, and after the last one the end.
    fn read(&mut self, buf: &mut [u8]) -> io::Result<usize>
        ensures { ReadsAtMost result buf.new }
    {
        self.goes_on()?;
        if self.requests == 0 {
            return Ok(0);
        }
        self.requests -= 1;
        let mut input = ASKED;
        input.read(buf)
    }

    fn write(&mut self, buf: &[u8]) -> io::Result<usize>
        ensures { WritesAtMost result buf.now }
    {
        self.goes_on()?;
        self.written.fetch_add(buf.len() as u64, Ordering::SeqCst);
        Ok(buf.len())
    }
}

impl AsyncRead for Script {
    ghost reads = { λ _ _ _. ⊤ };

    ghost is_at_end = { λ _. ⊤ };

    ghost reads_nothing = { λ _. tt };

    ghost reads_in_order = { λ _ _ _ _ _ _ _. tt };

    fn poll_read(&mut self, _cx: &mut Context<'_>, buf: &mut [u8]) -> Poll<io::Result<usize>> {
        Poll::Ready(self.read(buf))
    }
}

impl AsyncWrite for Script {
    ghost writes = { λ _ _ _. ⊤ };

    ghost writes_nothing = { λ _. tt };

    ghost writes_in_order = { λ _ _ _ _ _ _ _. tt };

    fn poll_write(&mut self, _cx: &mut Context<'_>, buf: &[u8]) -> Poll<io::Result<usize>> {
        Poll::Ready(self.write(buf))
    }

    fn poll_flush(&mut self, _cx: &mut Context<'_>) -> Poll<io::Result<()>> {
        self.signals.wrote();
        Poll::Ready(Ok(()))
    }

    fn poll_shutdown(&mut self, _cx: &mut Context<'_>) -> Poll<io::Result<()>> {
        Poll::Ready(Ok(()))
    }
}

// A service over a page of one include.
fn service<R>(rt: &R) -> Result<EdgeService<TableSource, R>, Fail>
where
    R: RandomSource + AllocGlobal + Abort + Clone + Drop,
{
    let case = "/p 200 esi A<esi:include src='/x'/>B;/x 200 plain 1";
    let source = Arc::new(rt.alloc(), source_of(rt, rt.alloc(), case)?)?;
    let how = Assembling::new(16, 4, 4);
    Ok(EdgeService::new(rt.clone()?, rt.alloc(), source, how)?)
}

// How many bytes are sent to a client in memory whose reads and writes fail after this many.
fn written<R>(rt: &R, executor: &mut Executor, moves: u64) -> Result<u64, Fail>
where
    R: Wait + Threads + Clock + RandomSource + AllocGlobal + Abort + Clone + Drop + Send + Sync,
{
    let service = service(rt)?;
    let count = Arc::new(rt.alloc(), AtomicU64::new(0))?;
    let io = Script {
        requests: 1,
        moves,
        written: count.clone()?,
        signals: Arc::new(rt.alloc(), Signals::new())?,
    };
    serve_io(rt, executor, io, service);
    Ok(count.load(Ordering::SeqCst))
}

#[test]
fn a_stream_that_fails_ends_its_exchange_alone(rt: HostRuntime) -> Result<(), Fail> {
    let mut executor = Executor::new(&rt)?;
    let whole = written(&rt, &mut executor, 100)?;
    assert!(rt; whole > 3);
    for moves in 0..6 {
        let sent = written(&rt, &mut executor, moves)?;
        assert!(rt; sent <= whole, "{moves}");
        assert!(rt; written(&rt, &mut executor, 100)? == whole, "{moves}");
    }
    Ok(())
}

// Fails this many accepts, as for want of descriptors, lets a client in memory through, and fails from then on, while no
// connection is open.
#[derive(Drop)]
struct Failing {
    fails: u64,
    accepts: AtomicU64,
    written: Arc<AtomicU64>,
    signals: Arc<Signals>,
}

impl<R> Accept<R> for Failing {
    type Io = Script;

    fn accept(&self, _rt: &R) -> Result<Script, AcceptFault> {
        if self.accepts.fetch_add(1, Ordering::SeqCst) != self.fails {
            return Err(AcceptFault::Exhausted);
        }
        Script::of(1, 100, &self.written, &self.signals).ok_or(AcceptFault::Exhausted)
    }

    fn end(&self, _rt: &R) {}
}

// Checks that a server ends whose accepts fail this many times before and after one: after this many accepts,
// with this many bytes sent to its client.
fn ends<R>(rt: &R, fails: u64, accepts: u64, written: u64) -> Result<(), Fail>
where
    R: Wait + Threads + Clock + RandomSource + AllocGlobal + Abort + Clone + Drop + Send + Sync,
{
    let service = service(rt)?;
    let failing = Failing {
        fails,
        accepts: AtomicU64::new(0),
        written: Arc::new(rt.alloc(), AtomicU64::new(0))?,
        signals: Arc::new(rt.alloc(), Signals::new())?,
    };
    let end = serve_accepts(rt, &failing, &service, &NoJournal, CAPACITY, u64::MAX);
    assert!(rt; end == ServeEnd::AcceptsFailed);
    assert!(rt;
        failing.accepts.load(Ordering::SeqCst) == accepts,
        "{fails}"
    );
    assert!(rt;
        failing.written.load(Ordering::SeqCst) == written,
        "{fails}"
    );
    Ok(())
}

#[test]
fn sixteen_failed_accepts_end_a_server(rt: HostRuntime) -> Result<(), Fail> {
    let mut executor = Executor::new(&rt)?;
    let whole = written(&rt, &mut executor, 100)?;
    ends(&rt, 15, 32, whole)?;
    ends(&rt, 16, 16, 0)
}

// Gives clients in memory that send three requests each over a connection that is kept.
#[derive(Drop)]
struct Keeping {
    moves: u64,
    written: Arc<AtomicU64>,
    signals: Arc<Signals>,
}

impl<R> Accept<R> for Keeping {
    type Io = Script;

    fn accept(&self, _rt: &R) -> Result<Script, AcceptFault> {
        Script::of(3, self.moves, &self.written, &self.signals).ok_or(AcceptFault::Other)
    }

    fn keeps(&self) -> bool {
        true
    }

    fn signals(&self, io: &Script) -> Option<Arc<Signals>> {
        io.signals.clone().ok()
    }

    fn end(&self, _rt: &R) {}
}

// Counts the requests that are reported.
#[derive(Drop)]
struct Counting {
    records: AtomicU64,
}

impl<R> Journal<R> for Counting {
    fn is_enabled(&self) -> bool {
        true
    }

    fn served(&self, _rt: &R, record: &RequestRecord) {
        if record.status == 200 {
            self.records.fetch_add(1, Ordering::SeqCst);
        }
    }
}

// How many bytes are sent to a client in memory that is kept, and how many of its requests are reported, where its
// reads and writes fail after this many.
fn kept<R>(rt: &R, moves: u64) -> Result<(u64, u64), Fail>
where
    R: Wait + Threads + Clock + RandomSource + AllocGlobal + Abort + Clone + Drop + Send + Sync,
{
    let service = service(rt)?;
    let keeping = Keeping {
        moves,
        written: Arc::new(rt.alloc(), AtomicU64::new(0))?,
        signals: Arc::new(rt.alloc(), Signals::new())?,
    };
    let counting = Counting {
        records: AtomicU64::new(0),
    };
    let end = serve_accepts(rt, &keeping, &service, &counting, CAPACITY, 1);
    assert!(rt; end == ServeEnd::Served);
    let written = keeping.written.load(Ordering::SeqCst);
    Ok((written, counting.records.load(Ordering::SeqCst)))
}

#[test]
fn a_kept_stream_that_fails_ends_its_connection_alone(rt: HostRuntime) -> Result<(), Fail> {
    let (whole, records) = kept(&rt, 100)?;
    assert!(rt; records == 3);
    let mut before = 0;
    for moves in 0..12 {
        let (sent, told) = kept(&rt, moves)?;
        assert!(rt; before <= sent && sent <= whole && told <= 3, "{moves}");
        before = sent;
    }
    Ok(())
}
