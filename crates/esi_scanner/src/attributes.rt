//! The attributes of one tag. Clauses see the list of them, in the text's order.

ghost use Rattle.std.specs.Prelude.{◌≡◌};
ghost use Rattle.std.specs.Option.{option_copied};

use crate::attribute::{Attribute, KnownAttribute};
use std::marker::Model;

/// The attributes of a tag.
#[derive(Drop)]
pub struct Attributes {
    items: Vec<Attribute>,
}

impl Model for Attributes {
    ghost use Rattle.std.specs.Prelude.{List};
    ghost use Rattle.esi_scanner.specs.declared.attribute.Attribute.{Attribute};

    ghost Value = { List Attribute };

    ghost view = { λ a. a.items.items };
}

impl Attributes {
    ghost use Rattle.esi_scanner.specs.Tag.{value_of};

    /// Wraps these attributes. Takes no memory.
    pub(crate) fn of(items: Vec<Attribute>) -> Attributes
        ensures { result ≡ items.items }
    {
        Attributes { items }
    }

    /// Lends the attributes, in the text's order. Takes no memory.
    pub fn as_slice(&self) -> &[Attribute]
        ensures { result.now ≡ self.now }
    {
        self.items.as_slice()
    }

    /// Lends the decoded value of the attribute with this name; `None` if there is none. An empty value counts as one.
    /// Compares names as enums, not by their bytes. Takes no memory.
    pub fn value(&self, name: KnownAttribute) -> Option<&[u8]>
        ensures { option_copied result ≡ value_of name self.now }
    {
        value_of(self.as_slice(), name)
    }
}

ghost use Rattle.esi_scanner.specs.Tag.{value_of};

// The value of the first attribute with this name.
fn value_of(attributes: &[Attribute], name: KnownAttribute) -> Option<&[u8]>
    ensures { option_copied result ≡ value_of name attributes.now }
{
    for attribute in attributes {
        if attribute.name.is(name) {
            return Some(attribute.value.as_bytes());
        }
    }
    None
}
