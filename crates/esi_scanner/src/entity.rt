//! The entities of attribute values, and the values that they spell.

ghost use Rattle.std.specs.Prelude.{◌≡◌, ◌<◌, ◌≤◌, length, IfOk, IfSome};
ghost use Rattle.esi_scanner.specs.Entities.{entity_text, entity_byte, entity_at, decoded};
ghost use Rattle.esi_scanner.specs.Bytes.{shown};
ghost use Rattle.esi_scanner.specs.Entities.{letter_at};

use edge_types::{NoMemory, Octets};
use std::alloc::Global;

/// A spelling that denotes one byte.
#[derive(Clone, Copy, Debug, Drop, PartialEq, Eq)]
pub(crate) enum Entity {
    Amp,
    Lt,
    Gt,
    Quot,
    Apos,
}

impl Entity {
    const ALL: [Entity; 5] = [
        Entity::Amp,
        Entity::Lt,
        Entity::Gt,
        Entity::Quot,
        Entity::Apos,
    ];

    // How it is spelled.
    fn as_bytes(self) -> &'static [u8]
        ensures { result.now ≡ entity_text self }
    {
        match self {
            Entity::Amp => b"&amp;".as_slice(),
            Entity::Lt => b"&lt;".as_slice(),
            Entity::Gt => b"&gt;".as_slice(),
            Entity::Quot => b"&quot;".as_slice(),
            Entity::Apos => b"&apos;".as_slice(),
        }
    }

    // The byte that it denotes.
    fn byte(self) -> u8
        ensures { result ≡ entity_byte self }
    {
        match self {
            Entity::Amp => b'&',
            Entity::Lt => b'<',
            Entity::Gt => b'>',
            Entity::Quot => b'"',
            Entity::Apos => b'\'',
        }
    }

    // The entity at the front of a text.
    #[tactic(auto, unfolding(crate::specs::Entities::entity_at))]
    fn at(text: &[u8]) -> Option<Entity>
        ensures { result ≡ entity_at text.now }
    {
        Entity::ALL
            .iter()
            .copied()
            .find(|entity| text.starts_with(entity.as_bytes()))
    }
}

// The first byte of the value that a raw text spells, and the raw text of the others.
#[tactic(auto, unfolding(crate::specs::Entities::letter_at))]
fn letter_at(raw: &[u8]) -> Option<(u8, &[u8])>
    ensures value { shown result ≡ letter_at raw.now }
    ensures shorter { IfSome result (λ found. length found.1.now < length raw.now) }
{
    match Entity::at(raw) {
        Some(entity) => {
            let rest = raw.strip_prefix(entity.as_bytes())?;
            Some((entity.byte(), rest))
        }
        None => {
            let (byte, rest) = raw.split_first()?;
            Some((*byte, rest))
        }
    }
}

/// The value that a raw text spells, decoded once from the left.
pub(crate) fn decoded(alloc: Global, raw: &[u8]) -> Result<Octets, NoMemory>
    ensures { IfOk result (λ value. value ≡ decoded raw.now) }
{
    let mut value = Vec::with_capacity(alloc, raw.len())?;
    let mut rest = raw;
    while let Some((byte, after)) = letter_at(rest) {
        value.push(byte)?;
        rest = after;
    }
    Ok(Octets::of(value))
}
