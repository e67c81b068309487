//! What passes between the HTTP library, which reads requests and writes responses, and the thread that answers them.

use futures::Future;
use futures::task::{Context, Poll};
use http::{Request, Response};
use http_body::Body;
use hyper::body::Incoming;
use hyper::service::Service;
use page_http::EdgeBody;
use std::alloc::AllocError;
use std::sync::{Arc, Mutex};
use tokio::io::{AsyncRead, AsyncWrite};

/// A request whose head has come.
#[derive(Drop)]
pub struct IncomingRequest {
    /// The head, as the HTTP library read it.
    pub head: Request<()>,
    /// Whether nothing of a body follows the head.
    pub is_whole: bool,
}

/// The response to a request. Without one its connection ends.
pub type Answered = Result<Response<EdgeBody>, AllocError>;

/// Where the request of a connection is handed over, and where its response comes back. One thread at a time polls a
/// connection or answers its request, so the locks are free.
#[derive(Drop)]
pub struct Handover {
    incoming: Mutex<Option<IncomingRequest>>,
    answered: Mutex<Option<Answered>>,
}

impl Handover {
    /// Nothing is handed over yet.
    pub fn new() -> Handover {
        Handover {
            incoming: Mutex::new(None),
            answered: Mutex::new(None),
        }
    }

    /// The request that was handed over since this was last asked.
    pub(crate) fn take_incoming(&self) -> Option<IncomingRequest> {
        self.incoming.try_lock()?.take()
    }

    /// Gives the response to it.
    pub fn answer(&self, answered: Answered) {
        if let Some(mut left) = self.answered.try_lock() {
            *left = Some(answered);
        }
    }

    fn ask(&self, incoming: IncomingRequest) {
        if let Some(mut left) = self.incoming.try_lock() {
            *left = Some(incoming);
        }
    }

    fn take_answered(&self) -> Option<Answered> {
        self.answered.try_lock()?.take()
    }
}

/// The service of a connection as the HTTP library sees it: it hands each request over, and waits for the response.
/// What the library polls may not start threads for a page.
#[derive(Drop)]
pub struct HandsOver {
    /// Where a request goes, and its response comes from.
    pub handover: Arc<Handover>,
}

impl<I: AsyncRead + AsyncWrite> Service<Request<Incoming<I>>> for HandsOver {
    type Response = Response<EdgeBody>;

    type Error = AllocError;

    type Future = ComesBack;

    // Nobody reads a body, so it is let go of at once.
    fn call(&self, request: Request<Incoming<I>>) -> ComesBack {
        let (head, body) = request.into_parts();
        self.handover.ask(IncomingRequest {
            head: Request::from_parts(head, ()),
            is_whole: body.is_end_stream(),
        });
        ComesBack {
            handover: self.handover.clone().ok(),
        }
    }
}

/// The response to a request that was handed over, once it has come back.
#[derive(Drop)]
pub struct ComesBack {
    // `None` where nobody could say where it comes back to.
    handover: Option<Arc<Handover>>,
}

impl Future for ComesBack {
    type Output = Answered;

    fn poll(&mut self, cx: &mut Context<'_>) -> Poll<Answered> {
        let Some(handover) = &self.handover else {
            return Poll::Ready(Err(AllocError));
        };
        match handover.take_answered() {
            Some(answered) => Poll::Ready(answered),
            None => cx.yield_now(),
        }
    }
}
