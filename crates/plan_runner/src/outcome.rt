//! Owners of outcomes. Clauses see what a reader sees of the outcome that is owned.
ghost use Rattle.std.specs.Prelude.{◌≡◌, ◌↔◌, IsTrue, IfOk};
ghost use Rattle.std.specs.Arc.{arc_value};
ghost use Rattle.edge_types.specs.declared.outcome.PageFault.TheVariants.{IncludeFailed};
ghost use Rattle.edge_types.specs.Outcome.{Fault, shown};

use edge_types::{NoMemory, Outcome, PageFault};
use std::alloc::Global;
use std::marker::Model;
use std::sync::Arc;

#[derive(Drop)]
pub(crate) struct SharedOutcome {
    outcome: Arc<Outcome>,
}

impl Model for SharedOutcome {
    ghost use Rattle.std.specs.Arc.{arc_value};
    ghost use Rattle.edge_types.specs.Outcome.{Shown, shown};

    ghost Value = { Shown };

    ghost view = { λ s. shown (arc_value s.outcome) };
}

impl SharedOutcome {
    pub(crate) fn new(alloc: Global, outcome: Outcome) -> Result<SharedOutcome, NoMemory>
        ensures { IfOk result (λ shared. shared ≡ shown outcome) }
    {
        Ok(SharedOutcome {
            outcome: Arc::new(alloc, outcome)?,
        })
    }

    // Whether an include failed.
    pub(crate) fn has_failed(&self) -> bool
        ensures { IsTrue result ↔ (self.now ≡ Fault IncludeFailed) }
    {
        matches!(*self.outcome, Outcome::Fault(PageFault::IncludeFailed))
    }

    // A second owner.
    pub(crate) fn share(&self) -> Result<Arc<Outcome>, NoMemory>
        ensures { IfOk result (λ outcome. shown (arc_value outcome) ≡ self.now) }
    {
        Ok(Arc::try_clone(&self.outcome)?)
    }
}
