//! A socket to an origin, whose polls never block.

ghost use Rattle.std.specs.Prelude.{⊤};

use crate::intake::{BodyCount, Intake};
use crate::origin_socket::OriginSocket;
use crate::stream_signals::StreamSignals;
use edge_sockets::{Readiness, was_interrupted, would_block};
use futures::task::{Context, Poll};
use std::io;
use std::io::Write;
use std::sync::Arc;
use tokio::io::{AsyncRead, AsyncWrite};

/// A connection to an origin, for one fetch, on a socket that doesn't block. A read or write that would
/// block says so by the stream's signals.
///
/// A client reads before it writes: until something was written, a read asks to be polled again.
#[derive(Drop)]
pub struct OriginStream {
    socket: OriginSocket,
    stage: Stage,
    intake: Intake,
    signals: Arc<StreamSignals>,
}

// How far the exchange is.
#[derive(Clone, Copy, Debug, PartialEq, Eq)]
enum Stage {
    // Nothing was written, nor tried to be.
    Fresh,
    // Nothing was written, since that would block.
    Delayed,
    // Something was written by the first call, so no response can have come yet.
    Asked,
    // A response may have come.
    Answered,
}

impl OriginStream {
    /// A connection, made or still being made, over a socket that doesn't block, for an answer whose body is counted so.
    pub(crate) fn over(
        socket: OriginSocket,
        body: BodyCount,
        signals: Arc<StreamSignals>,
    ) -> OriginStream {
        OriginStream {
            socket,
            stage: Stage::Fresh,
            intake: Intake::new(body),
            signals,
        }
    }

    /// The connection, for a further fetch.
    pub fn into_socket(self) -> OriginSocket {
        self.socket
    }

    // Goes on after a write that was done or would block.
    fn has_tried(&mut self, is_done: bool) {
        self.stage = match self.stage {
            Stage::Fresh if is_done => Stage::Asked,
            Stage::Fresh => Stage::Delayed,
            Stage::Delayed if is_done => Stage::Answered,
            stage => stage,
        };
    }
}

impl AsyncRead for OriginStream {
    ghost reads = { λ _ _ _. ⊤ };

    ghost is_at_end = { λ _. ⊤ };

    ghost reads_nothing = { λ _. tt };

    ghost reads_in_order = { λ _ _ _ _ _ _ _. tt };

    // Right after the request a read would block, so it isn't tried.
    fn poll_read(&mut self, cx: &mut Context<'_>, buf: &mut [u8]) -> Poll<io::Result<usize>> {
        match self.stage {
            Stage::Fresh | Stage::Delayed => return cx.yield_now(),
            Stage::Asked => {
                self.stage = Stage::Answered;
                self.signals.awaits(Readiness::Readable);
                return cx.yield_now();
            }
            Stage::Answered => {}
        }
        let done = self.intake.read(self.socket.stream(), buf);
        if would_block(&done) {
            self.signals.awaits(Readiness::Readable);
            return cx.yield_now();
        }
        if was_interrupted(&done) {
            return cx.yield_now();
        }
        Poll::Ready(self.signals.has_read(done))
    }
}

impl AsyncWrite for OriginStream {
    ghost writes = { λ _ _ _. ⊤ };

    ghost writes_nothing = { λ _. tt };

    ghost writes_in_order = { λ _ _ _ _ _ _ _. tt };

    // The first write also tells whether the connection could be made.
    fn poll_write(&mut self, cx: &mut Context<'_>, buf: &[u8]) -> Poll<io::Result<usize>> {
        let done = self.socket.stream().write(buf);
        if was_interrupted(&done) {
            return cx.yield_now();
        }
        let blocks = would_block(&done);
        self.has_tried(!blocks);
        if blocks {
            self.signals.awaits(Readiness::Writable);
            return cx.yield_now();
        }
        Poll::Ready(self.signals.has_written(done))
    }

    fn poll_flush(&mut self, _cx: &mut Context<'_>) -> Poll<io::Result<()>> {
        Poll::Ready(Ok(()))
    }

    fn poll_shutdown(&mut self, _cx: &mut Context<'_>) -> Poll<io::Result<()>> {
        Poll::Ready(Ok(()))
    }
}
