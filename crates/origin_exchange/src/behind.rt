//! What is left of a connection behind a response.

ghost use Rattle.std.specs.Prelude.{IfOk};
ghost use Rattle.origin_exchange.specs.Behind.{FollowsHead};

use hyper::client;
use origin_http::{Response, stays_open};

/// What is left of a connection behind a response.
#[derive(Drop)]
pub enum Behind<I> {
    /// Its stream, over which a further request may be sent.
    Open(I),
    /// Bytes that nobody had asked for, on a connection over which a further request could be sent else.
    Strays,
    /// Nothing.
    End,
}

impl<I: Drop> Behind<I> {
    /// What the HTTP library leaves of a connection.
    pub(crate) fn of(parts: hyper::Result<client::conn::http1::Parts<I>>) -> Behind<I> {
        let Ok(client::conn::http1::Parts { io, read_buf }) = parts else {
            return Behind::End;
        };
        if read_buf.is_empty() {
            Behind::Open(io)
        } else {
            Behind::Strays
        }
    }

    /// What is left of it behind what has come.
    pub(crate) fn after(self, came: &Response) -> Behind<I>
        ensures { IfOk came.now (λ page. FollowsHead page.0 result) }
    {
        match came {
            Ok((head, _)) if stays_open(head) => self,
            Ok(_) | Err(_) => Behind::End,
        }
    }
}
