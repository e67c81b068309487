//! The elements that are open at a place of a text. Clauses see the list of them, the innermost
//! first.
ghost use Rattle.std.specs.Prelude.{◌≡◌, [], ◌∷◌, length, OnOk, IfNone, IfSome, option_map, slice_get};
ghost use Rattle.std.specs.Option.{option_copied};
ghost use Rattle.std.specs.List.{list_any};
ghost use Rattle.esi_tree.specs.Reading.{is_run, is_vars, in_vars, may_stand};
ghost use Rattle.esi_tree.specs.State.{frame_of, frames_of, shown_child, grown_innermost, is_none_open};

use crate::child::Child;
use crate::open_element::{OpenElement, stands_in_run};
use edge_types::NoMemory;
use esi_scanner::ElementName;
use std::alloc::Global;

/// The most elements that may be open at one place.
///
/// Our profile.
pub const OPEN_LIMIT: usize = 32;

// The innermost is the last.
#[derive(Drop)]
pub(crate) struct OpenElements {
    elements: Vec<OpenElement>,
}

impl OpenElements {
    #[tactic(auto, unfolding(crate::specs::State::frames_of))]
    pub(crate) fn new(alloc: Global) -> OpenElements
        ensures { frames_of result ≡ [] }
    {
        OpenElements {
            elements: Vec::new(alloc),
        }
    }

    // Whether none is open.
    pub(crate) fn is_empty(&self) -> bool
        ensures { result ≡ is_none_open (frames_of self.now) }
    {
        self.len() == 0
    }

    // How many are open.
    pub(crate) fn len(&self) -> usize
        ensures { result ≡ length (frames_of self.now) }
    {
        self.elements.len()
    }

    // The innermost.
    pub(crate) fn innermost(&self) -> Option<&OpenElement>
        ensures { option_map frame_of (option_copied result) ≡ slice_get (frames_of self.now) 0 }
    {
        self.elements.last()
    }

    // Whether any element may come here.
    pub(crate) fn is_run(&self) -> bool
        ensures { result ≡ is_run (frames_of self.now) }
    {
        match self.innermost() {
            Some(element) => element.holds_run(),
            None => true,
        }
    }

    // Whether an element with this name may come here next.
    pub(crate) fn admits(&self, name: ElementName) -> bool
        ensures { result ≡ may_stand name (frames_of self.now) }
    {
        match self.innermost() {
            Some(element) => element.admits(name),
            None => stands_in_run(name),
        }
    }

    // Whether a `vars` is open, at whatever depth.
    pub(crate) fn in_vars(&self) -> bool
        ensures { result ≡ in_vars (frames_of self.now) }
    {
        has_vars(self.elements.as_slice())
    }

    // Adds to the innermost what an element inside it passed on.
    pub(crate) fn add(&mut self, child: Child) -> Result<(), NoMemory>
        ensures { OnOk result (frames_of self.new ≡ grown_innermost (shown_child child) (frames_of self.old)) }
    {
        if let Some(innermost) = self.elements.last_mut() {
            innermost.add(child)?;
        }
        Ok(())
    }

    // Opens one more, inside the others.
    pub(crate) fn push(&mut self, element: OpenElement) -> Result<(), NoMemory>
        ensures { OnOk result (frames_of self.new ≡ frame_of element ∷ frames_of self.old) }
    {
        self.elements.push(element)?;
        Ok(())
    }

    // Ends the innermost.
    pub(crate) fn pop(&mut self) -> Option<OpenElement>
        ensures none { IfNone result ((frames_of self.old ≡ []) × (frames_of self.new ≡ [])) }
        ensures some { IfSome result (λ element. frames_of self.old ≡ frame_of element ∷ frames_of self.new) }
    {
        self.elements.pop()
    }
}

fn has_vars(elements: &[OpenElement]) -> bool
    ensures { result ≡ list_any (λ element. is_vars (frame_of element)) elements.now }
{
    elements.iter().any(|element| element.is_vars())
}
