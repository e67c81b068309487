//! The names of the standard's elements.

ghost use Rattle.std.specs.Prelude.{◌≡◌};
ghost use Rattle.esi_scanner.specs.Names.{element_text, element_of};

/// The name of an element.
///
/// Source: ESI Language Specification 1.0, "ESI Language".
#[derive(Clone, Copy, Debug, Drop, PartialEq, Eq)]
pub enum ElementName {
    Include,
    Inline,
    Choose,
    When,
    Otherwise,
    Try,
    Attempt,
    Except,
    Comment,
    Remove,
    Vars,
}

impl ElementName {
    const ALL: [ElementName; 11] = [
        ElementName::Include,
        ElementName::Inline,
        ElementName::Choose,
        ElementName::When,
        ElementName::Otherwise,
        ElementName::Try,
        ElementName::Attempt,
        ElementName::Except,
        ElementName::Comment,
        ElementName::Remove,
        ElementName::Vars,
    ];

    /// Lends the name's bytes, without `<esi:`. Takes no memory.
    pub fn as_bytes(self) -> &'static [u8]
        ensures { result.now ≡ element_text self }
    {
        match self {
            ElementName::Include => b"include".as_slice(),
            ElementName::Inline => b"inline".as_slice(),
            ElementName::Choose => b"choose".as_slice(),
            ElementName::When => b"when".as_slice(),
            ElementName::Otherwise => b"otherwise".as_slice(),
            ElementName::Try => b"try".as_slice(),
            ElementName::Attempt => b"attempt".as_slice(),
            ElementName::Except => b"except".as_slice(),
            ElementName::Comment => b"comment".as_slice(),
            ElementName::Remove => b"remove".as_slice(),
            ElementName::Vars => b"vars".as_slice(),
        }
    }

    /// The element whose name these bytes spell, case for case. Takes no memory.
    #[tactic(auto, unfolding(crate::specs::Names::element_of))]
    pub fn of(bytes: &[u8]) -> Option<ElementName>
        ensures { result ≡ element_of bytes.now }
    {
        ElementName::ALL
            .iter()
            .copied()
            .find(|name| name.as_bytes() == bytes)
    }
}
