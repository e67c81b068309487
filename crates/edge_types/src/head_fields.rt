//! The fields of an answer that its page's reader gets. Clauses see the list of them.

ghost use Rattle.std.specs.Prelude.{◌≡◌, ◌↔◌, ◌≤◌, [], All, IfOk, IsTrue};
ghost use Rattle.std.specs.Char.{is_ascii_uppercase};
ghost use Rattle.std.specs.List.{list_all, list_any};
ghost use Rattle.edge_types.specs.HeadFields as spec;

use crate::no_memory::NoMemory;
use crate::octets::Octets;
use crate::token::is_token;
use std::alloc::Global;
use std::marker::Model;
use std::sync::Arc;

/// The most bytes that names and values may have together.
pub const MAX_FIELDS: usize = 8_192;

/// A field of HTTP.
#[derive(Drop)]
pub struct HeadField {
    /// Its name, in lower case.
    pub name: Octets,
    /// Its value.
    pub value: Octets,
}

impl HeadField {
    // Whether HTTP can carry the field.
    fn is_valid(&self) -> bool
        ensures { IsTrue result ↔ spec.IsHeadField self.now }
    {
        is_field_name(self.name.as_bytes()) && is_field_value(self.value.as_bytes())
    }
}

/// Fields in the order in which they are sent. All owners of them share one list.
#[derive(Drop)]
pub struct HeadFields {
    // Most answers have none.
    fields: Option<Arc<Vec<HeadField>>>,
}

impl Model for HeadFields {
    ghost use Rattle.std.specs.Prelude.{List, [], option_map, unwrap_or};
    ghost use Rattle.std.specs.Arc.{arc_value};
    ghost use Rattle.std.specs.declared.alloc.Global.{Global};
    ghost use Rattle.std.specs.declared.vec.Vec.{Vec};
    ghost use Rattle.edge_types.specs.declared.head_fields.HeadField.{HeadField};

    ghost Value = { List HeadField };

    ghost view = { λ f. unwrap_or (option_map (λ fields. (arc_value {X = Vec HeadField Global} fields).items) f.fields) [] };
}

impl HeadFields {
    /// No fields. Takes no memory.
    pub fn none() -> HeadFields
        ensures { result ≡ [] }
    {
        HeadFields { fields: None }
    }

    /// These fields.
    pub fn of(alloc: Global, fields: Vec<HeadField>) -> Result<HeadFields, NoMemory>
        ensures { IfOk result (λ all. all ≡ fields.items) }
    {
        if fields.is_empty() {
            return Ok(HeadFields::none());
        }
        Ok(HeadFields {
            fields: Some(Arc::new(alloc, fields)?),
        })
    }

    /// Lends the fields. Takes no memory.
    pub fn as_slice(&self) -> &[HeadField]
        ensures { result.now ≡ self.now }
    {
        match &self.fields {
            Some(fields) => fields.as_slice(),
            None => &[],
        }
    }

    /// A second owner.
    pub fn share(&self) -> Result<HeadFields, NoMemory>
        ensures { IfOk result (λ shared. shared ≡ self.now) }
    {
        match &self.fields {
            Some(fields) => Ok(HeadFields {
                fields: Some(Arc::try_clone(fields)?),
            }),
            None => Ok(HeadFields::none()),
        }
    }

    /// Whether an answer may have these: HTTP can carry each, and they have at most `MAX_FIELDS` bytes. Takes no memory.
    ///
    /// Source: RFC 9110, "Field Names" and "Field Values"; our profile.
    pub fn are_acceptable(&self) -> bool
        ensures { IsTrue result ↔ spec.AreHeadFields self.now }
    {
        let fields = self.as_slice();
        fields.iter().all(|field| field.is_valid()) && are_short(fields)
    }
}

// Whether names and values have at most `MAX_FIELDS` bytes together.
fn are_short(fields: &[HeadField]) -> bool
    ensures { IsTrue result ↔ (spec.size_of fields.now ≤ 8192) }
{
    let mut room = MAX_FIELDS;
    let mut left = fields;
    while let [field, rest @ ..] = left {
        let Some(behind_name) = room.checked_sub(field.name.as_bytes().len()) else {
            return false;
        };
        let Some(behind_value) = behind_name.checked_sub(field.value.as_bytes().len()) else {
            return false;
        };
        room = behind_value;
        left = rest;
    }
    true
}

// Whether a text is the name of a field in lower case.
#[tactic(auto, unfolding(crate::specs::HeadFields::is_field_name))]
fn is_field_name(name: &[u8]) -> bool
    ensures { result ≡ spec.is_field_name name.now }
{
    is_token(name) && !has_capitals(name)
}

fn has_capitals(text: &[u8]) -> bool
    ensures { result ≡ list_any is_ascii_uppercase text.now }
{
    text.iter().any(|byte| byte.is_ascii_uppercase())
}

// Whether a text is the value of a field.
fn is_field_value(value: &[u8]) -> bool
    ensures { result ≡ list_all spec.is_value_byte value.now }
{
    value
        .iter()
        .all(|byte| *byte == b'\t' || (*byte >= b' ' && *byte != 127))
}
