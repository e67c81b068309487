//! The parts of a try: exactly one attempt and one except, in either order.
ghost use Rattle.std.specs.Prelude.{◌≡◌, option_map};
ghost use Rattle.esi_tree.specs.Shown.{elements_of};
ghost use Rattle.esi_tree.specs.State.{halves_of, shown_child};
ghost use Rattle.esi_tree.specs.Reading.{with_attempt, with_except, lacks_attempt, lacks_except, stands_in_try, try_of};

use crate::child::Child;
use crate::node::Node;
use esi_scanner::ElementName;
use std::mem;

// The parts that have been read.
#[derive(Drop)]
pub(crate) enum Halves {
    Neither,
    AttemptAlone(Vec<Node>),
    ExceptAlone(Vec<Node>),
    Both {
        attempt: Vec<Node>,
        except: Vec<Node>,
        // The except comes first.
        swapped: bool,
    },
}

impl Halves {
    // Adds the attempt. A second one is never read, and would change nothing.
    pub(crate) fn add_attempt(&mut self, attempt: Vec<Node>)
        ensures { halves_of self.new ≡ with_attempt (elements_of attempt.items) (halves_of self.old) }
    {
        *self = mem::replace(self, Halves::Neither).with_attempt(attempt);
    }

    // Adds the except. A second one is never read, and would change nothing.
    pub(crate) fn add_except(&mut self, except: Vec<Node>)
        ensures { halves_of self.new ≡ with_except (elements_of except.items) (halves_of self.old) }
    {
        *self = mem::replace(self, Halves::Neither).with_except(except);
    }

    fn with_attempt(self, attempt: Vec<Node>) -> Halves
        ensures { halves_of result ≡ with_attempt (elements_of attempt.items) (halves_of self) }
    {
        match self {
            Halves::Neither => Halves::AttemptAlone(attempt),
            Halves::ExceptAlone(except) => Halves::Both {
                attempt,
                except,
                swapped: true,
            },
            Halves::AttemptAlone(_) | Halves::Both { .. } => self,
        }
    }

    fn with_except(self, except: Vec<Node>) -> Halves
        ensures { halves_of result ≡ with_except (elements_of except.items) (halves_of self) }
    {
        match self {
            Halves::Neither => Halves::ExceptAlone(except),
            Halves::AttemptAlone(attempt) => Halves::Both {
                attempt,
                except,
                swapped: false,
            },
            Halves::ExceptAlone(_) | Halves::Both { .. } => self,
        }
    }

    // Whether an element with this name may come next.
    pub(crate) fn admits(&self, name: ElementName) -> bool
        ensures { result ≡ stands_in_try name (halves_of self.now) }
    {
        match name {
            ElementName::Attempt => self.lacks_attempt(),
            ElementName::Except => self.lacks_except(),
            _ => false,
        }
    }

    fn lacks_attempt(&self) -> bool
        ensures { result ≡ lacks_attempt (halves_of self.now) }
    {
        matches!(self, Halves::Neither | Halves::ExceptAlone(_))
    }

    fn lacks_except(&self) -> bool
        ensures { result ≡ lacks_except (halves_of self.now) }
    {
        matches!(self, Halves::Neither | Halves::AttemptAlone(_))
    }

    // The whole try, if both parts are there.
    pub(crate) fn into_child(self) -> Option<Child>
        ensures { option_map shown_child result ≡ try_of (halves_of self) }
    {
        match self {
            Halves::Both {
                attempt,
                except,
                swapped,
            } => Some(Child::Element(Node::Try {
                attempt,
                except,
                swapped,
            })),
            _ => None,
        }
    }
}
