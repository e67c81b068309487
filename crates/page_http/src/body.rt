//! The bodies of responses. Clauses see a body as the list of the remaining frames.
ghost use Rattle.std.specs.Prelude.{◌≡◌, ◌<◌, ◌↔◌, drop, [], ◌∷◌, length, slice_get, IsTrue, IsSome, IfOk, IfSome, OnErr, OnSome, MatchOption, None, Some};
ghost use Rattle.std.specs.Arc.{arc_value};
ghost use Rattle.edge_types.specs.Pieces.{joined};
ghost use Rattle.futures.specs.Poll.{IfReady, OnPending};
ghost use Rattle.futures.specs.Runs.{After, Within};
ghost use Rattle.futures.specs.Task.{Covers, Keeps};
ghost use Rattle.http_body.specs.SizeHint.{exact};
ghost use Rattle.page_http.specs.Frames.{frames_in, pieces_of, Gives, Steps};
ghost use Rattle.sha2.specs.Sha256.{sha256};

use bytes::Bytes;
use edge_types::Outcome;
use futures::task::{Context, Poll};
use http_body::{Body, Frame, SizeHint};
use sha2::{Digest, Sha256};
use std::alloc::AllocError;
use std::marker::Model;
use std::sync::Arc;

/// The body of a response: a frame for each piece of a page, or a single text of the edge's own.
///
/// A frame is a second handle to its piece's bytes, made when it is asked for. If that
/// fails, the body reports out of memory and is left as it was; so the frames that came are the
/// first of the page's.
#[derive(Drop)]
pub struct EdgeBody {
    frames: Frames,
    // How many frames came.
    next: usize,
    // How many bytes the remaining frames have.
    left: usize,
}

impl Model for EdgeBody {
    ghost use Rattle.std.specs.Prelude.{◌≡◌, List, ℕ, drop, length};
    ghost use Rattle.edge_types.specs.Pieces.{joined};
    ghost use Rattle.page_http.specs.Frames.{frames_in};

    ghost Value = { List (List ℕ) };

    ghost view = { λ b. drop b.next (frames_in b.frames) };

    ghost invariant = { λ b. b.left ≡ length (joined (drop b.next (frames_in b.frames))) };
}

impl EdgeBody {
    /// A body without frames.
    pub fn nothing() -> EdgeBody
        ensures { result ≡ [] }
    {
        EdgeBody {
            frames: Frames::Nothing,
            next: 0,
            left: 0,
        }
    }

    /// A body of one text.
    pub(crate) fn text(text: &'static str) -> EdgeBody
        ensures { result ≡ text.now ∷ [] }
    {
        EdgeBody {
            frames: Frames::Text(Bytes::from_static(text.as_bytes())),
            next: 0,
            left: text.len(),
        }
    }

    /// The body of an outcome's page.
    pub(crate) fn of(outcome: Arc<Outcome>) -> EdgeBody
        ensures { result ≡ pieces_of (arc_value outcome) }
    {
        let left = len_of(&outcome);
        EdgeBody {
            frames: Frames::Page(outcome),
            next: 0,
            left,
        }
    }
}

impl EdgeBody {
    // The SHA-256 digest of the bytes of the frames that are left.
    pub(crate) fn digest(&self) -> Result<[u8; 32], AllocError>
        ensures { IfOk result (λ digest. digest ≡ sha256 (joined self.now)) }
    {
        self.frames.digest_from(self.next)
    }

    // The next frame; `None` at the end.
    fn next_frame(&mut self) -> Result<Option<Bytes>, AllocError>
        ensures frame { IfOk result (λ frame. MatchOption frame
            ((self.old ≡ []) × (self.new ≡ [])) (λ bytes. self.old ≡ bytes ∷ self.new)) }
        ensures err { OnErr result (self.new ≡ self.old) }
    {
        let Some(bytes) = self.frames.get(self.next)? else {
            return Ok(None);
        };
        self.next += 1;
        self.left -= bytes.len();
        Ok(Some(bytes))
    }

    // Whether no frame is left.
    fn is_done(&self) -> bool
        ensures { IsTrue result ↔ (self.now ≡ []) }
    {
        self.frames.count() <= self.next
    }
}

impl Body for EdgeBody {
    type Data = Bytes;

    type Error = AllocError;

    ghost yields = { Gives };

    fn poll_frame(
        &mut self,
        _cx: &mut Context<'_>,
    ) -> Poll<Option<Result<Frame<Bytes>, AllocError>>>
        ensures value { IfReady result (Gives self.old []) }
        ensures rest { IfReady result (λ o. IfSome o (λ x. After (Gives self.old) x (Gives self.new))) }
        ensures kept { Keeps _cx.old _cx.new }
        ensures step { Steps self.old result self.new }
    {
        match self.next_frame() {
            Ok(Some(bytes)) => Poll::Ready(Some(Ok(Frame::data(bytes)))),
            Ok(None) => Poll::Ready(None),
            Err(e) => Poll::Ready(Some(Err(e))),
        }
    }

    fn is_end_stream(&self) -> bool
        ensures ends { IsTrue result → Gives self.now [] None }
        ensures exact { IsTrue result ↔ (self.now ≡ []) }
    {
        self.is_done()
    }

    fn size_hint(&self) -> SizeHint
        ensures { exact result ≡ Some (length (joined self.now)) }
    {
        SizeHint::with_exact(self.left as u64)
    }
}

// What a body is made of.
#[derive(Drop)]
enum Frames {
    Nothing,
    Text(Bytes),
    Page(Arc<Outcome>),
}

impl Frames {
    // How many frames there are.
    fn count(&self) -> usize
        ensures { result ≡ length (frames_in self.now) }
    {
        match self {
            Frames::Nothing => 0,
            Frames::Text(_) => 1,
            Frames::Page(outcome) => count_of(outcome),
        }
    }

    // The frame with this number, from 0; `None` past the last.
    fn get(&self, i: usize) -> Result<Option<Bytes>, AllocError>
        ensures frame { IfOk result (λ frame. frame ≡ slice_get (frames_in self.now) i) }
        ensures below { IfOk result (λ frame. IsSome frame → i < usize.MAX) }
    {
        if self.count() <= i {
            return Ok(None);
        }
        match self {
            Frames::Nothing => Ok(None),
            Frames::Text(text) => Ok(Some(text.clone()?)),
            Frames::Page(outcome) => frame_of(outcome, i),
        }
    }
}

impl Frames {
    // The digest of the bytes of these frames from a number on.
    fn digest_from(&self, first: usize) -> Result<[u8; 32], AllocError>
        ensures { IfOk result (λ digest. digest ≡ sha256 (joined (drop first (frames_in self.now)))) }
    {
        let mut hasher = Sha256::new();
        let mut next = first;
        while let Some(frame) = self.get(next)? {
            hasher.update(&*frame);
            next += 1;
        }
        Ok(hasher.finalize())
    }
}

// How many pieces the outcome's page has.
fn count_of(outcome: &Outcome) -> usize
    ensures { result ≡ length (pieces_of outcome.now) }
{
    match outcome {
        Outcome::Page { body, .. } => body.mark(),
        Outcome::Fault(_) => 0,
    }
}

// How many bytes the outcome's page has.
fn len_of(outcome: &Outcome) -> usize
    ensures { result ≡ length (joined (pieces_of outcome.now)) }
{
    match outcome {
        Outcome::Page { body, .. } => body.len(),
        Outcome::Fault(_) => 0,
    }
}

// A second handle to a piece of the outcome's page.
fn frame_of(outcome: &Outcome, i: usize) -> Result<Option<Bytes>, AllocError>
    ensures { IfOk result (λ frame. frame ≡ slice_get (pieces_of outcome.now) i) }
{
    let Outcome::Page { body, .. } = outcome else {
        return Ok(None);
    };
    match body.shared_piece(i) {
        Ok(Some(piece)) => Ok(Some(piece.into_bytes())),
        Ok(None) => Ok(None),
        Err(_) => Err(AllocError),
    }
}
