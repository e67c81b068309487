//! Templates that are being processed. Clauses see the list of frames, the innermost first.
ghost use Rattle.std.specs.Prelude.{◌≡◌, ◌∷◌, [], OnOk, OnErr, IfSome, IfNone};

use crate::handlers::Handlers;
use edge_types::NoMemory;
use std::alloc::Global;
use std::marker::Model;

/// A template, or an inline of it, that is being processed.
#[derive(Drop)]
pub(crate) struct Frame {
    /// The number of the slot whose answer it is.
    pub(crate) slot: usize,
    /// The next step of its plan.
    pub(crate) at: usize,
    /// The step after its last.
    pub(crate) end: usize,
    /// How many levels are left under it.
    pub(crate) level: u8,
    pub(crate) handlers: Handlers,
}

#[derive(Drop)]
pub(crate) struct Frames {
    // The innermost is the last.
    items: Vec<Frame>,
}

impl Model for Frames {
    ghost use Rattle.std.specs.Prelude.{List, reverse};
    ghost use Rattle.plan_runner.specs.declared.frames.Frame.{Frame};

    ghost Value = { List Frame };

    ghost view = { λ f. reverse f.items.items };
}

impl Frames {
    // No frames.
    pub(crate) fn new(alloc: Global) -> Frames
        ensures { result ≡ [] }
    {
        Frames {
            items: Vec::new(alloc),
        }
    }

    // Adds one as the innermost.
    pub(crate) fn push(&mut self, frame: Frame) -> Result<(), NoMemory>
        ensures { OnOk result (self.new ≡ frame ∷ self.old) }
    {
        self.items.push(frame)?;
        Ok(())
    }

    // Removes the innermost.
    pub(crate) fn pop(&mut self) -> Option<Frame>
        ensures some { IfSome result (λ f. self.old ≡ f ∷ self.new) }
        ensures none { IfNone result ((self.old ≡ []) × (self.new ≡ [])) }
    {
        self.items.pop()
    }
}
