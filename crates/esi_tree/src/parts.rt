//! The parts of a text, ready for a request's values. Clauses see the list of them.
ghost use Rattle.std.specs.Prelude.{◌≡◌, IfOk};
ghost use Rattle.esi_vars.specs.Parts.{parts_of};

use edge_types::{NoMemory, SharedBytes};
use esi_vars::{Part, parts};
use std::alloc::Global;
use std::marker::Model;
use std::sync::Arc;

/// The parts of a text: its references, and the text between them.
#[derive(Drop)]
pub struct Parts {
    parts: Arc<Vec<Part>>,
}

impl Model for Parts {
    ghost use Rattle.std.specs.Prelude.{List};
    ghost use Rattle.std.specs.Arc.{arc_value};
    ghost use Rattle.esi_vars.specs.declared.part.Part.{Part};

    ghost Value = { List Part };

    ghost view = { λ p. (arc_value p.parts).items };
}

impl Parts {
    /// The parts of this text; the text between its references is lent from it. `NoMemory` if an allocation fails.
    ///
    /// Source: ESI Language Specification 1.0, "Variables".
    pub fn of(alloc: Global, text: &SharedBytes) -> Result<Parts, NoMemory>
        ensures { IfOk result (λ made. made ≡ parts_of text.now) }
    {
        Ok(Parts {
            parts: Arc::new(alloc, parts(alloc, text)?)?,
        })
    }

    /// A second owner of the parts. `NoMemory` if an allocation fails; none is made then.
    pub fn share(&self) -> Result<Parts, NoMemory>
        ensures { IfOk result (λ shared. shared ≡ self.now) }
    {
        Ok(Parts {
            parts: Arc::try_clone(&self.parts)?,
        })
    }

    /// Lends the parts, in the text's order. Takes no memory.
    pub fn as_slice(&self) -> &[Part]
        ensures { result.now ≡ self.now }
    {
        self.parts.as_slice()
    }
}
