//! Where the failures of a frame go on. Clauses see the list of handlers, the innermost first.
ghost use Rattle.std.specs.Prelude.{◌≡◌, ◌∷◌, [], OnOk, OnErr, IfSome, IfNone};

use edge_types::NoMemory;
use plan_machine::Handler;
use std::alloc::Global;
use std::marker::Model;

#[derive(Drop)]
pub(crate) struct Handlers {
    // The innermost is the last.
    items: Vec<Handler>,
}

impl Model for Handlers {
    ghost use Rattle.std.specs.Prelude.{List, reverse};
    ghost use Rattle.plan_machine.specs.declared.handler.Handler.{Handler};

    ghost Value = { List Handler };

    ghost view = { λ h. reverse h.items.items };
}

impl Handlers {
    // No handlers.
    pub(crate) fn new(alloc: Global) -> Handlers
        ensures { result ≡ [] }
    {
        Handlers {
            items: Vec::new(alloc),
        }
    }

    // Adds one as the innermost.
    pub(crate) fn push(&mut self, handler: Handler) -> Result<(), NoMemory>
        ensures ok { OnOk result (self.new ≡ handler ∷ self.old) }
        ensures err { OnErr result (self.new ≡ self.old) }
    {
        self.items.push(handler)?;
        Ok(())
    }

    // Removes the innermost.
    pub(crate) fn pop(&mut self) -> Option<Handler>
        ensures some { IfSome result (λ h. self.old ≡ h ∷ self.new) }
        ensures none { IfNone result ((self.old ≡ []) × (self.new ≡ [])) }
    {
        self.items.pop()
    }
}
