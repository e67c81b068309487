//! Templates: the trees of texts.
//!
//! `template` is the only way in. Clauses see a template as its tree (`specs/Tree.antt`), without where it lies in
//! memory. `specs/Template.antt` says which tokens are the template of a tree, `specs/Reading.antt` how the tree, or the
//! place of the fault, is computed from the tokens, one after another; the code is that reading.
#![tactic(auto)]

mod child;
pub mod fault;
mod halves;
pub mod include;
pub mod laws;
pub mod node;
mod open_element;
mod open_elements;
pub mod parts;
pub mod reader;
mod tag;
pub mod tree;

pub use fault::TreeFault;
pub use include::{Include, OnError};
pub use node::{Branch, Node};
pub use open_element::stands_in_run;
pub use open_elements::OPEN_LIMIT;
pub use parts::Parts;
pub use reader::template;
pub use tree::Template;
