//! Owners of answers. Clauses see an owner as the answer that it owns, so that two owners of one
//! answer are equal.

ghost use Rattle.std.specs.Prelude.{◌≡◌, IfOk};
ghost use Rattle.std.specs.Arc.{arc_value};

use crate::answer::Answer;
use crate::no_memory::NoMemory;
use std::marker::Model;
use std::sync::Arc;

/// One of several owners of an answer.
#[derive(Drop)]
pub struct SharedAnswer {
    answer: Arc<Answer>,
}

impl Model for SharedAnswer {
    ghost use Rattle.std.specs.Arc.{arc_value};
    ghost use Rattle.edge_types.specs.Answered.{Answered};

    ghost Value = { Answered };

    ghost view = { λ s. arc_value s.answer };
}

impl SharedAnswer {
    /// Wraps this owner. Takes no memory.
    pub fn of(answer: Arc<Answer>) -> SharedAnswer
        ensures { result ≡ arc_value answer }
    {
        SharedAnswer { answer }
    }

    /// A second owner.
    pub fn share(&self) -> Result<SharedAnswer, NoMemory>
        ensures { IfOk result (λ answer. answer ≡ self.now) }
    {
        Ok(SharedAnswer {
            answer: Arc::try_clone(&self.answer)?,
        })
    }

    /// Lends the owner. Takes no memory.
    pub fn as_arc(&self) -> &Arc<Answer>
        ensures { arc_value result.now ≡ self.now }
    {
        &self.answer
    }

    /// Lends the answer. Takes no memory.
    pub fn get(&self) -> &Answer
        ensures { result.now ≡ self.now }
    {
        &self.answer
    }

    /// Gives the owner back. Takes no memory.
    pub fn into_arc(self) -> Arc<Answer>
        ensures { arc_value result ≡ self }
    {
        self.answer
    }
}
