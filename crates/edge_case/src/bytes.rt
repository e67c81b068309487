//! Byte strings that may be absent.
ghost use Rattle.std.specs.Prelude.{◌≡◌};
ghost use Rattle.std.specs.Option.{option_copied};
ghost use Rattle.edge_case.specs.Case.{value_or_empty};

/// The line's text; an absent line is empty.
pub(crate) fn lent_or_empty(value: Option<&[u8]>) -> &[u8]
    ensures { result.now ≡ value_or_empty (option_copied value.entry) }
{
    match value {
        Some(value) => value,
        None => &[],
    }
}
