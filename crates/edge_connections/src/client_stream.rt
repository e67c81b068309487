//! A socket to a client, whose polls hold no thread for long.

ghost use Rattle.std.specs.Prelude.{◌≡◌, ⊤, IfOk};
ghost use Rattle.std.specs.Io.{ReadsAtMost, WritesAtMost};

use crate::exchange::{Exchange, Limits, Stage, deadline};
use crate::set_aside::{SetAside, read_again};
use crate::signals::{Pause, PausedBy, Signals};
use bytes::Bytes;
use edge_sockets::{Readiness, was_interrupted, would_block};
use futures::task::{Context, Poll};
use std::alloc::{AllocError, Global};
use std::io;
use std::io::{ErrorKind, Read, Write};
use std::net::{IpAddr, Shutdown, TcpStream};
use std::os::fd::AsRawFd;
use std::sync::Arc;
use std::sync::atomic::{AtomicBool, Ordering};
use std::time::{Clock, Duration};
use tokio::io::{AsyncRead, AsyncWrite};

/// For how many milliseconds a read or write of a connection blocks, until its client lets one wait longer.
pub(crate) const PATIENCE_MILLIS: u64 = 10;

// After a response of more bytes than this the client may not have received all of it when its connection ends.
const LINGERS_AFTER: u64 = 65_536;
// For how many seconds, and for how many reads, what it still sends is read away then.
const LINGERS_SECONDS: u64 = 1;

const LINGERS_READS: usize = 16;

/// What the streams of one listener share.
#[derive(Drop)]
pub(crate) struct Shared {
    /// Whether there are threads to spare, so that a read or write may block for a moment.
    pub may_wait: AtomicBool,
    /// Whether each read and write fails.
    pub is_cut: AtomicBool,
}

impl Shared {
    /// There are threads to spare, and nothing is cut.
    pub(crate) fn new() -> Shared {
        Shared {
            may_wait: AtomicBool::new(true),
            is_cut: AtomicBool::new(false),
        }
    }
}

/// A connection to a client. A read or write that can't be done now blocks for a moment, as long as there is a
/// thread to spare and the client hasn't let the connection wait before; else the stream tells what it waits for, by
/// its signals. Past the limits of its exchange, where that has some, each read and write fails; so does each once the
/// streams of the listener are cut.
#[derive(Drop)]
pub struct ClientStream<R> {
    socket: TcpStream,
    client: IpAddr,
    rt: R,
    limits: Limits,
    exchange: Exchange,
    // Whether the client has let no read or write wait so far, so that one may block.
    is_prompt: bool,
    // What is read again before anything else.
    unread: Bytes,
    shared: Arc<Shared>,
    signals: Arc<Signals>,
}

impl<R: Clock + Drop> ClientStream<R> {
    /// A connection of this client whose first exchange begins now, and whose writes block for a moment.
    pub(crate) fn new(
        alloc: Global,
        socket: TcpStream,
        client: IpAddr,
        rt: R,
        limits: Limits,
        shared: Arc<Shared>,
    ) -> io::Result<ClientStream<R>> {
        let is_prompt = shared.may_wait.load(Ordering::SeqCst);
        if is_prompt {
            socket.set_read_timeout(Some(Duration::from_millis(PATIENCE_MILLIS)))?;
        } else {
            socket.set_nonblocking(true)?;
        }
        let aside = SetAside {
            socket,
            client,
            exchange: Exchange::begun(Stage::Accepted, deadline(&rt, limits.request)?),
            is_prompt,
            unread: Bytes::from_static(&[]),
        };
        Ok(ClientStream::taken_up(alloc, rt, limits, shared, aside)?)
    }

    /// A connection that was set aside goes on, within the same limits of time.
    pub(crate) fn taken_up(
        alloc: Global,
        rt: R,
        limits: Limits,
        shared: Arc<Shared>,
        aside: SetAside,
    ) -> Result<ClientStream<R>, AllocError>
        ensures socket { IfOk result (λ stream. stream.socket ≡ aside.socket) }
        ensures client { IfOk result (λ stream. stream.client ≡ aside.client) }
        ensures exchange { IfOk result (λ stream. stream.exchange ≡ aside.exchange) }
        ensures unread { IfOk result (λ stream. stream.unread ≡ aside.unread) }
    {
        let SetAside {
            socket,
            client,
            exchange,
            is_prompt,
            unread,
        } = aside;
        let signals = Signals::of_socket(socket.as_raw_fd());
        Ok(ClientStream {
            socket,
            client,
            rt,
            limits,
            exchange,
            is_prompt,
            unread,
            shared,
            signals: Arc::new(alloc, signals)?,
        })
    }

    /// What is kept of a connection that has nothing to do, and of which this is to be read again.
    pub(crate) fn set_aside(self, alloc: Global, unread: &[u8]) -> Result<SetAside, AllocError>
        ensures socket { IfOk result (λ aside. aside.socket ≡ self.socket) }
        ensures client { IfOk result (λ aside. aside.client ≡ self.client) }
        ensures exchange { IfOk result (λ aside. aside.exchange ≡ self.exchange) }
        ensures unread { IfOk result (λ aside. aside.unread ≡ unread.now) }
    {
        Ok(SetAside {
            socket: self.socket,
            client: self.client,
            exchange: self.exchange,
            is_prompt: self.is_prompt,
            unread: Bytes::from_vec(unread.to_vec(alloc)?)?,
        })
    }

    /// What it tells whoever serves it.
    pub(crate) fn signals(&self) -> Option<Arc<Signals>> {
        self.signals.clone().ok()
    }

    /// The client's address.
    pub(crate) fn client(&self) -> IpAddr {
        self.client
    }

    fn is_kept(&self) -> bool {
        self.limits.idle.is_some()
    }

    // Refused once the streams of the listener are cut.
    fn uncut(&self) -> io::Result<()> {
        if self.shared.is_cut.load(Ordering::SeqCst) {
            return Err(ErrorKind::ConnectionAborted.into());
        }
        Ok(())
    }

    // Has whoever serves the connection wait until its socket is ready. Refused if the client's time is over, or the
    // streams were cut meanwhile.
    fn waits(&mut self, readiness: Readiness) -> io::Result<()> {
        self.uncut()?;
        self.exchange.in_time(&self.rt)?;
        self.blocks_no_more()?;
        if self.exchange.stage == Stage::Kept {
            self.exchange.stage = Stage::Idle;
        }
        let by = match self.exchange.stage {
            Stage::Accepted => PausedBy::NewClient,
            Stage::Idle => PausedBy::IdleClient,
            _ => PausedBy::Client,
        };
        let pause = Pause {
            socket: self.socket.as_raw_fd(),
            readiness,
            until: self.exchange.until,
            by,
            client: None,
        };
        self.signals.pauses(pause);
        Ok(())
    }

    // No read or write holds the thread from now on.
    fn blocks_no_more(&mut self) -> io::Result<()> {
        if self.is_prompt {
            self.socket.set_nonblocking(true)?;
            self.is_prompt = false;
        }
        Ok(())
    }

    // Only the first read of a request may block, and only while there are threads to spare. Over a connection that
    // isn't kept, what comes after the request is never read.
    fn read(&mut self, buf: &mut [u8]) -> io::Result<usize>
        ensures { ReadsAtMost result buf.new }
    {
        self.uncut()?;
        match self.exchange.stage {
            Stage::Accepted | Stage::Kept | Stage::Idle => {
                if !self.shared.may_wait.load(Ordering::SeqCst) {
                    self.blocks_no_more()?;
                }
            }
            Stage::Asking => {
                self.exchange.in_time(&self.rt)?;
                self.blocks_no_more()?;
            }
            Stage::Answering | Stage::Answered | Stage::Lingering => return Ok(0),
        }
        let count = if self.unread.is_empty() {
            (&self.socket).read(buf)?
        } else {
            // What came before gives the client no further time.
            self.exchange.in_time(&self.rt)?;
            read_again(&mut self.unread, buf)?
        };
        self.has_read()?;
        Ok(count)
    }

    // The time of a further request counts from its first bytes.
    fn has_read(&mut self) -> io::Result<()> {
        if let Stage::Kept | Stage::Idle = self.exchange.stage {
            self.exchange.until = deadline(&self.rt, self.limits.request)?;
        }
        self.exchange.stage = Stage::Asking;
        Ok(())
    }

    // The time of a response begins with its first write. One that isn't done whole has blocked for as long as one may.
    fn write(&mut self, buf: &[u8]) -> io::Result<usize>
        ensures { WritesAtMost result buf.now }
    {
        self.uncut()?;
        if self.is_answering() {
            self.exchange.in_time(&self.rt)?;
        } else {
            let until = deadline(&self.rt, self.limits.response)?;
            self.exchange.goes_on(Stage::Answering, until);
        }
        let count = (&self.socket).write(buf)?;
        self.exchange.sent = self.exchange.sent.saturating_add(count as u64);
        if count < buf.len() {
            self.blocks_no_more()?;
        }
        Ok(count)
    }

    // Whether some of the response was written. What comes after all of it, over a connection that is kept,
    // is the response to a request that was read with the one before.
    fn is_answering(&self) -> bool {
        match self.exchange.stage {
            Stage::Answering => true,
            Stage::Answered => !self.is_kept(),
            _ => false,
        }
    }

    // Ends the output. What a client sends that is never read would have the system reset the connection, and
    // drop what is still on its way to the client; so after a long response it is read away for a moment.
    fn shut_down(&mut self) -> io::Result<()> {
        self.uncut()?;
        if self.exchange.stage != Stage::Lingering {
            self.socket.shutdown(Shutdown::Write)?;
            let limit = Duration::from_secs(LINGERS_SECONDS);
            let until = deadline(&self.rt, Some(limit))?;
            self.exchange.goes_on(Stage::Lingering, until);
        }
        if self.exchange.sent > LINGERS_AFTER {
            self.read_away()?;
        }
        Ok(())
    }

    fn read_away(&mut self) -> io::Result<()> {
        let mut room = [0; 4_096];
        for _ in 0..LINGERS_READS {
            if (&self.socket).read(&mut room)? == 0 {
                return Ok(());
            }
        }
        Ok(())
    }

    // The HTTP library flushes once nothing is left to write.
    fn flushed(&mut self) {
        if self.exchange.stage == Stage::Answering {
            self.exchange.stage = Stage::Answered;
            self.signals.wrote();
        }
    }

    // Begins a further exchange, of which nothing was read.
    fn is_kept_on(&mut self) -> io::Result<()> {
        let until = deadline(&self.rt, self.limits.idle)?;
        self.exchange = Exchange::begun(Stage::Kept, until);
        Ok(())
    }

    // Whether a further request is waited for without a look whether it has come, so that each connection gets its turn
    // at a thread.
    fn gives_way(&self) -> bool {
        let may_block = self.is_prompt && self.shared.may_wait.load(Ordering::SeqCst);
        self.exchange.stage == Stage::Kept && !may_block
    }
}

// Whether a call has to be made again once the socket is ready: it would block, or was interrupted by a signal.
fn has_to_wait<T>(done: &io::Result<T>) -> bool {
    would_block(done) || was_interrupted(done)
}

impl<R: Clock + Drop> AsyncRead for ClientStream<R> {
    ghost reads = { λ _ _ _. ⊤ };

    ghost is_at_end = { λ _. ⊤ };

    ghost reads_nothing = { λ _. tt };

    ghost reads_in_order = { λ _ _ _ _ _ _ _. tt };

    // Over a connection that is kept nothing is read while a response is under way, since the HTTP library reads
    // on before it has written all of it. Nor is it by the first read after that, by which it may ask for the rest
    // of a body that nobody wants; the next one is for a further request.
    fn poll_read(&mut self, cx: &mut Context<'_>, buf: &mut [u8]) -> Poll<io::Result<usize>> {
        if self.is_kept() && self.exchange.stage == Stage::Answering {
            return cx.yield_now();
        }
        if self.is_kept() && self.exchange.stage == Stage::Answered {
            return match self.is_kept_on() {
                Ok(()) => cx.yield_now(),
                Err(e) => Poll::Ready(Err(e)),
            };
        }
        if !self.gives_way() {
            let read = self.read(buf);
            if !has_to_wait(&read) {
                return Poll::Ready(read);
            }
        }
        match self.waits(Readiness::Readable) {
            Ok(()) => cx.yield_now(),
            Err(late) => Poll::Ready(Err(late)),
        }
    }
}

impl<R: Clock + Drop> AsyncWrite for ClientStream<R> {
    ghost writes = { λ _ _ _. ⊤ };

    ghost writes_nothing = { λ _. tt };

    ghost writes_in_order = { λ _ _ _ _ _ _ _. tt };

    fn poll_write(&mut self, cx: &mut Context<'_>, buf: &[u8]) -> Poll<io::Result<usize>> {
        let written = self.write(buf);
        if !has_to_wait(&written) {
            return Poll::Ready(written);
        }
        match self.waits(Readiness::Writable) {
            Ok(()) => cx.yield_now(),
            Err(late) => Poll::Ready(Err(late)),
        }
    }

    fn poll_flush(&mut self, _cx: &mut Context<'_>) -> Poll<io::Result<()>> {
        self.flushed();
        Poll::Ready(Ok(()))
    }

    // Without it a client that sent more than was read sees a reset after a whole answer.
    fn poll_shutdown(&mut self, cx: &mut Context<'_>) -> Poll<io::Result<()>> {
        let done = self.shut_down();
        if !has_to_wait(&done) {
            return Poll::Ready(done);
        }
        match self.waits(Readiness::Readable) {
            Ok(()) => cx.yield_now(),
            Err(late) => Poll::Ready(Err(late)),
        }
    }
}
