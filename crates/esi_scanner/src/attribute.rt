//! An attribute of a tag: its name, its value.

ghost use Rattle.std.specs.Prelude.{◌≡◌, IfOk};
ghost use Rattle.std.specs.Option.{option_copied};
ghost use Rattle.esi_scanner.specs.Names.{known_text, known_of, is_named, attribute_text, attribute_name_of};

use edge_types::{NoMemory, Octets};
use std::alloc::Global;

/// An attribute name that has a meaning on some element.
///
/// Source: ESI Language Specification 1.0, "ESI Language".
#[derive(Clone, Copy, Debug, Drop, PartialEq, Eq)]
pub enum KnownAttribute {
    Src,
    Alt,
    OnError,
    Name,
    Test,
}

impl KnownAttribute {
    const ALL: [KnownAttribute; 5] = [
        KnownAttribute::Src,
        KnownAttribute::Alt,
        KnownAttribute::OnError,
        KnownAttribute::Name,
        KnownAttribute::Test,
    ];

    /// Lends the name's bytes. Takes no memory.
    pub fn as_bytes(self) -> &'static [u8]
        ensures { result.now ≡ known_text self }
    {
        match self {
            KnownAttribute::Src => b"src".as_slice(),
            KnownAttribute::Alt => b"alt".as_slice(),
            KnownAttribute::OnError => b"onerror".as_slice(),
            KnownAttribute::Name => b"name".as_slice(),
            KnownAttribute::Test => b"test".as_slice(),
        }
    }

    /// The known name that these bytes spell, case for case. Takes no memory.
    #[tactic(auto, unfolding(crate::specs::Names::known_of))]
    pub fn of(bytes: &[u8]) -> Option<KnownAttribute>
        ensures { result ≡ known_of bytes.now }
    {
        KnownAttribute::ALL
            .iter()
            .copied()
            .find(|name| name.as_bytes() == bytes)
    }
}

/// The name of an attribute.
#[derive(Drop)]
pub enum AttributeName {
    Known(KnownAttribute),
    /// Any other name, which is allowed and has no meaning.
    Other(Octets),
}

impl AttributeName {
    /// The name that these bytes spell.
    #[tactic(auto, unfolding(crate::specs::Names::attribute_name_of))]
    pub(crate) fn of(alloc: Global, bytes: &[u8]) -> Result<AttributeName, NoMemory>
        ensures { IfOk result (λ name. name ≡ attribute_name_of bytes.now) }
    {
        match KnownAttribute::of(bytes) {
            Some(known) => Ok(AttributeName::Known(known)),
            None => Ok(AttributeName::Other(Octets::copy_of(alloc, bytes)?)),
        }
    }

    /// Whether it is this known name. Takes no memory.
    pub(crate) fn is(&self, name: KnownAttribute) -> bool
        ensures { result ≡ is_named name self.now }
    {
        match self {
            AttributeName::Known(known) => *known == name,
            AttributeName::Other(_) => false,
        }
    }

    /// Lends the name's bytes. Takes no memory.
    pub fn as_bytes(&self) -> &[u8]
        ensures { result.now ≡ attribute_text self.now }
    {
        match self {
            AttributeName::Known(known) => known.as_bytes(),
            AttributeName::Other(bytes) => bytes.as_bytes(),
        }
    }
}

/// One attribute of a tag.
#[derive(Drop)]
pub struct Attribute {
    pub name: AttributeName,
    /// The value between its quotes, decoded once.
    pub value: Octets,
}
