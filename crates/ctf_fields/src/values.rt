//! The values of fields that are found by their names.
ghost use Rattle.std.specs.Prelude.{◌≡◌, ◌^◌};
ghost use Rattle.std.specs.Option.{option_copied};
ghost use Rattle.ctf_fields.specs.Fields.{number_of};
ghost use Rattle.ctf_fields.specs.Values.{below_if_any, number_named, value_named};

use crate::field::Field;
use crate::named::first_named;
use type_table::Table;

/// The number that a field is, with the index of its type.
pub fn number_of(field: Option<&Field>) -> Option<(i128, u32)>
    ensures { result ≡ number_of (option_copied field.entry) }
{
    match field? {
        Field::Int { value, ty } => Some((*value, *ty)),
        _ => None,
    }
}

/// The number of the first field of a name, with the index of its type.
pub fn number_named(table: &Table, text: &[u8], field: Option<&Field>) -> Option<(i128, u32)>
    ensures { result ≡ number_named table.now text.now (option_copied field.entry) }
{
    number_of(first_named(table, text, field))
}

/// The value of the first field of a name.
pub fn value_named(table: &Table, text: &[u8], field: Option<&Field>) -> Option<i128>
    ensures { result ≡ value_named table.now text.now (option_copied field.entry) }
{
    let (value, _) = number_named(table, text, field)?;
    Some(value)
}

/// A number from 0 up to below this one.
pub fn below(value: Option<i128>, limit: u64) -> Option<u64>
    ensures { result ≡ below_if_any limit value }
{
    let value = value?;
    if value < 0 || value >= i128::from(limit) {
        return None;
    }
    Some(value as u64)
}

/// A number that 64 bits hold.
pub fn below_64(value: Option<i128>) -> Option<u64>
    ensures { result ≡ below_if_any (2 ^ 64) value }
{
    let value = value?;
    if value < 0 || value > i128::from(u64::MAX) {
        return None;
    }
    Some(value as u64)
}
