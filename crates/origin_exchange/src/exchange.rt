//! One request and its response over one connection.

ghost use Rattle.std.specs.Prelude.{IfOk};
ghost use Rattle.origin_exchange.specs.Behind.{FollowsHead};

use crate::behind::Behind;
use crate::exchange_end::ExchangeEnd;
use crate::gathered::Rest;
use crate::intake::BodyCount;
use crate::origin_socket::OriginSocket;
use crate::origin_stream::OriginStream;
use crate::stream_signals::StreamSignals;
use bytes::Bytes;
use edge_sockets::Readiness;
use fetch_outcomes::{FetchFault, Lost};
use futures::Future;
use futures::task::{Context, Poll, Solo};
use http::Request;
use http_body_util::Empty;
use hyper::client;
use hyper::client::conn::http1::{ResponseFuture, WithoutShutdown};
use origin_http::Response;
use polled_futures::Pollable;
use std::alloc::Global;
use std::hash::RandomState;
use std::os::fd::{AsRawFd, RawFd};
use std::sync::Arc;

type Connection = WithoutShutdown<OriginStream, Empty<Bytes>>;

// How often an exchange is polled in one step, before another one makes its own.
const BUDGET: usize = 64;

/// What a step of an exchange has come to.
#[derive(Clone, Copy, Debug, PartialEq, Eq)]
pub enum ExchangeStep {
    /// It waits for its socket.
    Waits(Readiness),
    /// It goes on with its next step, without a wait.
    GoesOn,
    /// The response has come, or never will.
    Ended,
}

// What has come of a response.
#[derive(Drop)]
enum Page {
    Nothing(ResponseFuture<OriginStream>),
    Head(Rest<OriginStream>),
    Whole(Response),
}

/// A request that is sent over a connection of its own, and what has come of its response.
pub struct Exchange {
    page: Page,
    // `None` once it has ended.
    connection: Option<Pollable<Connection>>,
    // What a connection that has ended has left.
    behind: Behind<OriginStream>,
    socket: RawFd,
    // How many bytes of the body are gathered.
    most: usize,
    body: BodyCount,
    signals: Arc<StreamSignals>,
}

// By hand, so that who drops one needs no proof of what the HTTP library has of it.
impl Drop for Exchange {
    fn drop(self) {
        let Exchange {
            page: _,
            connection: _,
            behind: _,
            socket: _,
            most: _,
            body: _,
            signals: _,
        } = self;
    }
}

impl Exchange {
    /// Begins an exchange over a socket that doesn't block, by which a body of so many bytes may come. Nothing is sent
    /// before it is polled.
    pub fn begun(
        alloc: Global,
        keys: RandomState,
        socket: OriginSocket,
        signals: StreamSignals,
        request: Request<Empty<Bytes>>,
        most: usize,
    ) -> Result<Exchange, Lost> {
        let descriptor = socket.stream().as_raw_fd();
        let Ok(signals) = Arc::new(alloc, signals) else {
            return Err(Lost::NoMemory);
        };
        let Ok(told) = signals.clone() else {
            return Err(Lost::NoMemory);
        };
        let body = BodyCount::new(alloc)?;
        let io = OriginStream::over(socket, body.share()?, told);
        let Ok((mut sender, connection)) = client::conn::http1::handshake(alloc, keys, io) else {
            return Err(Lost::Fault(FetchFault::Cut));
        };
        let response = sender.send_request(request);
        // The connection ends with this response.
        drop(sender);
        let Ok(connection) = Pollable::new(alloc, connection.without_shutdown()) else {
            return Err(Lost::NoMemory);
        };
        Ok(Exchange {
            page: Page::Nothing(response),
            connection: Some(connection),
            behind: Behind::End,
            socket: descriptor,
            most,
            body,
            signals,
        })
    }

    /// The socket, which is open for as long as the exchange goes on.
    pub fn socket(&self) -> RawFd {
        self.socket
    }

    /// Whether a byte of the response has come.
    pub fn has_heard(&self) -> bool {
        self.signals.has_heard()
    }

    /// Goes on until the exchange waits or has ended, or others are to go on.
    pub fn step(&mut self, alloc: Global, task: &Solo) -> ExchangeStep {
        for _ in 0..BUDGET {
            self.poll_once(alloc, task);
            match (self.has_ended(), self.signals.awaited()) {
                (true, _) => return ExchangeStep::Ended,
                (false, Some(need)) => return ExchangeStep::Waits(need),
                (false, None) => {}
            }
        }
        ExchangeStep::GoesOn
    }

    // One poll. All exchanges of a thread are polled as one task, whose wakes say nothing: the sockets and the signals
    // tell which of them may go on.
    fn poll_once(&mut self, alloc: Global, task: &Solo) {
        self.signals.begins_poll();
        let mut cx = task.begin();
        self.poll_connection(&mut cx);
        self.poll_response(alloc, &mut cx);
        self.poll_rest(&mut cx);
        let _: Poll<()> = cx.yield_now();
        cx.park();
    }

    // Whether nothing more is waited for. Behind a whole response the connection ends without waiting, or isn't kept.
    fn has_ended(&self) -> bool {
        match &self.page {
            Page::Nothing(_) | Page::Head(_) => false,
            Page::Whole(Err(_)) => true,
            Page::Whole(Ok(_)) => self.connection.is_none() || self.signals.awaited().is_some(),
        }
    }

    fn poll_connection(&mut self, cx: &mut Context<'_>) {
        let Some(connection) = self.connection.take() else {
            return;
        };
        match connection.poll(cx) {
            Ok(parts) => self.behind = Behind::of(parts),
            Err(connection) => self.connection = Some(connection),
        }
    }

    fn poll_response(&mut self, alloc: Global, cx: &mut Context<'_>) {
        let Page::Nothing(response) = &mut self.page else {
            return;
        };
        match response.poll(cx) {
            Poll::Ready(Ok(response)) => {
                self.page = match self.body.share() {
                    Ok(body) => Page::Head(Rest::of(alloc, response, self.most, body)),
                    Err(lost) => Page::Whole(Err(lost)),
                }
            }
            Poll::Ready(Err(_)) => self.page = Page::Whole(Err(Lost::Fault(FetchFault::Cut))),
            Poll::Pending => {}
        }
    }

    fn poll_rest(&mut self, cx: &mut Context<'_>) {
        let Page::Head(rest) = &mut self.page else {
            return;
        };
        if let Poll::Ready(came) = rest.poll(cx) {
            self.page = Page::Whole(came);
        }
    }

    /// How it has ended.
    pub fn end(self) -> ExchangeEnd<OriginStream>
        ensures { IfOk result.came (λ page. FollowsHead page.0 result.behind) }
    {
        let Exchange {
            page,
            connection: _,
            behind,
            socket: _,
            most: _,
            body: _,
            signals: _,
        } = self;
        match page {
            Page::Whole(came) => ExchangeEnd::of(came, behind),
            Page::Nothing(_) | Page::Head(_) => ExchangeEnd::cut(),
        }
    }
}
