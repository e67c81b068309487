//! The body of a page, in pieces. Clauses see the list of the pieces' bytes; the body is these
//! joined.

ghost use Rattle.std.specs.Prelude.{◌≡◌, ◌≤◌, [], length, take, slice_get, OnOk, OnErr, IfOk, IfSome, IsTrue, ◌↔◌};
ghost use Rattle.std.specs.Option.{option_copied};

use crate::no_memory::NoMemory;
use crate::shared_bytes::SharedBytes;
use std::alloc::Global;
use std::marker::Model;

/// The body of a page: pieces of shared bytes. None of them is empty, and neighbours are not joined.
#[derive(Drop)]
pub struct PageBody {
    pieces: Vec<SharedBytes>,
    len: usize,
}

impl Model for PageBody {
    ghost use Rattle.std.specs.Prelude.{◌≡◌, List, ℕ, length, All};
    ghost use Rattle.edge_types.specs.Pieces.{joined, IsPiece};

    ghost Value = { List (List ℕ) };

    ghost view = { λ b. b.pieces.items };

    ghost invariant = { λ b. (b.len ≡ length (joined b.pieces.items)) × All IsPiece b.pieces.items };
}

impl PageBody {
    ghost use Rattle.edge_types.specs.Pieces.{joined, IsPiece};

    /// An empty body. Takes no memory.
    pub fn new(alloc: Global) -> PageBody
        ensures { result ≡ [] }
    {
        PageBody {
            pieces: Vec::new(alloc),
            len: 0,
        }
    }

    /// How many bytes the body has. Takes no memory.
    pub fn len(&self) -> usize
        ensures { result ≡ length (joined self.now) }
    {
        self.len
    }

    /// Whether the body has no bytes. Takes no memory.
    pub fn is_empty(&self) -> bool
        ensures { IsTrue result ↔ (joined self.now ≡ []) }
    {
        self.len == 0
    }

    /// The bytes of the piece with this number, from 0; `None` past the last. Takes no memory.
    pub fn piece(&self, i: usize) -> Option<&[u8]>
        ensures value { option_copied result ≡ slice_get self.now i }
        ensures nonempty { IfSome result (λ bytes. IsPiece bytes.now) }
    {
        match self.pieces.get(i) {
            Some(piece) => Some(piece.as_bytes()),
            None => None,
        }
    }

    /// A second owner of the piece with this number, from 0; `None` past the last.
    pub fn shared_piece(&self, i: usize) -> Result<Option<SharedBytes>, NoMemory>
        ensures { IfOk result (λ piece. piece ≡ slice_get self.now i) }
    {
        let Some(piece) = self.pieces.get(i) else {
            return Ok(None);
        };
        Ok(Some(piece.share()?))
    }

    /// How many pieces there are: the place to which `cut` goes back. Takes no memory.
    pub fn mark(&self) -> usize
        ensures { result ≡ length self.now }
    {
        self.pieces.len()
    }
}

impl PageBody {
    ghost use Rattle.edge_types.specs.Pieces.{with_piece};

    /// Adds a piece at the end; an empty one isn't added.
    ///
    /// A refusal, which also comes if the body would exceed `usize::MAX`, leaves the body as it was and drops
    /// the piece.
    pub fn push(&mut self, piece: SharedBytes) -> Result<(), NoMemory>
        ensures ok { OnOk result (self.new ≡ with_piece self.old piece) }
        ensures err { OnErr result (self.new ≡ self.old) }
    {
        let added = piece.len();
        if added == 0 {
            return Ok(());
        }
        let Some(len) = self.len.checked_add(added) else {
            return Err(NoMemory);
        };
        self.pieces.push(piece)?;
        self.len = len;
        Ok(())
    }

    /// Removes every piece after the first `mark`. Takes no memory.
    pub fn cut(&mut self, mark: usize)
        ensures { self.new ≡ take mark self.old }
    {
        if mark < self.mark() {
            let dropped = bytes_in(&self.pieces[mark..]);
            self.pieces.truncate(mark);
            self.len -= dropped;
        }
    }
}

ghost use Rattle.edge_types.specs.Pieces.{joined};

// How many bytes the pieces have together.
fn bytes_in(pieces: &[SharedBytes]) -> usize
    requires { length (joined pieces.now) ≤ usize.MAX }
    ensures { result ≡ length (joined pieces.now) }
{
    let mut total = 0;
    for piece in pieces {
        total += piece.len();
    }
    total
}
