//! A future that may be polled.

ghost use Rattle.std.specs.Prelude.{◌≡◌, box_value, IfErr, IfOk};
ghost use Rattle.futures.specs.Task.{Covers, Keeps};

use futures::Future;
use futures::task::{Context, Poll};
use std::alloc::{AllocError, Global};

/// A future that may be polled, in a box of its own. Under a lock and among other values futures are kept in this form,
/// so that the fact lasts, and whoever moves one moves an address: the state of a connection of HTTP has about a
/// kilobyte, and is moved at each poll.
#[derive(Drop)]
pub struct Pollable<F: Future> {
    /// The future.
    pub future: Box<F>,
    ghost can_poll: { ∥ F.can_poll (box_value future) ∥₁ },
}

impl<F: Future> Pollable<F> {
    /// Keeps a future that may be polled.
    pub fn new(alloc: Global, future: F) -> Result<Pollable<F>, AllocError>
        requires { F.can_poll future }
        ensures { IfOk result (λ it. box_value it.future ≡ future) }
    {
        let future = Box::new(alloc, future)?;
        Ok(Pollable { future })
    }

    /// The future, which nobody polls any longer.
    pub fn into_inner(self) -> F
        ensures { result ≡ box_value self.future }
    {
        let Pollable { future } = self;
        Box::into_inner(future)
    }

    // The box, whose future may still be polled.
    fn into_box(self) -> Box<F>
        ensures { F.can_poll (box_value result) }
    {
        let Pollable { future } = self;
        future
    }

    /// Polls the future where it is. Unless it is ready it comes back, and may be polled again.
    pub fn poll(self, cx: &mut Context<'_>) -> Result<F::Output, Pollable<F>>
        ensures registered { IfErr result (λ it. Covers cx.new (F.needs (box_value it.future))) }
        ensures kept { Keeps cx.old cx.new }
    {
        let mut future = self.into_box();
        match (*future).poll(cx) {
            Poll::Ready(output) => Ok(output),
            Poll::Pending => Err(Pollable { future }),
        }
    }
}
