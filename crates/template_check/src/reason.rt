//! Why a text isn't a template.

use crate::elements::Opened;
use crate::trouble::TestTrouble;
use esi_scanner::{ElementName, KnownAttribute, Trouble};

/// Why a text isn't a template from a place on.
#[derive(Clone, Copy, Debug, Drop, PartialEq, Eq)]
pub enum Reason {
    /// The tag there can't be read, or the block that begins there has no end.
    Malformed(Trouble),
    /// Text or a `remove` that may not be directly in the innermost open element.
    NoRun(Option<Opened>),
    /// As many elements as may be open are open there.
    TooDeep,
    /// The element may not be directly in the innermost open one, or, if none is open, on its own.
    Misplaced {
        name: ElementName,
        within: Option<Opened>,
    },
    /// An element with this name is in the innermost open one already, which takes only one.
    Second {
        name: ElementName,
        within: Option<Opened>,
    },
    /// The tag has no attribute with this name, which its element needs.
    Lacks {
        name: ElementName,
        attribute: KnownAttribute,
    },
    /// The attribute `test` isn't a test: how far it was read, in bytes of its value, and what is wrong there.
    BadTest(TestTrouble),
    /// The `choose` ends without a `when`.
    NoWhen(Opened),
    /// The `try` ends without this part.
    NoHalf {
        part: ElementName,
        opened: Opened,
    },
    /// A closing tag where no element is open.
    Unopened(ElementName),
    /// A closing tag of an element other than the innermost open one.
    Crossed {
        name: ElementName,
        opened: Opened,
    },
    /// The text ends inside the innermost open element.
    Ends(Option<Opened>),
}
