//! The values of the fields of a packet that are found by their names.
ghost use Rattle.std.specs.Prelude.{◌≡◌, Some};
ghost use Rattle.std.specs.Option.{option_copied};
ghost use Rattle.ctf_fields.specs.Fields.{number_of};
ghost use Rattle.ctf_fields.specs.Values.{below_if_any};
ghost use Rattle.packet_decoder.specs.ToldHeads.{value_of};
ghost use Rattle.packet_decoder.specs.Values.{are_bytes, counter_in, uuid_matches, id_in, is_byte, magic_matches};

use crate::piece::Counter;
use ctf_fields::{Field, below, below_64, integer_type};
use type_table::Table;

/// The value of a number whose type is known.
pub fn value_of(number: Option<(i128, u32)>) -> Option<i128>
    ensures { result ≡ value_of number }
{
    let (value, _) = number?;
    Some(value)
}

/// A number that 32 bits hold.
pub fn below_32(value: Option<i128>) -> Option<u32>
    ensures { result ≡ below_if_any 4294967296 value }
{
    Some(below(value, 1 << 32)? as u32)
}

/// Whether the field is the magic number, where it is an integer; a field of another form counts as missing.
pub fn magic_matches(field: Option<&Field>) -> bool
    ensures { result ≡ magic_matches (option_copied field.entry) }
{
    match field {
        Some(Field::Int { value, .. }) => *value == 0xC1FC_1FC1,
        _ => true,
    }
}

/// Whether the field is the trace's id, where both are there.
pub fn uuid_matches(uuid: Option<[u8; 16]>, field: Option<&Field>) -> bool
    ensures { result ≡ uuid_matches uuid (option_copied field.entry) }
{
    match (uuid, field) {
        (Some(uuid), Some(Field::List { items, .. })) if items.len() == 16 => {
            are_bytes(uuid.as_slice(), items.as_slice())
        }
        _ => true,
    }
}

fn are_bytes(bytes: &[u8], fields: &[Field]) -> bool
    ensures { result ≡ are_bytes bytes.now fields.now }
{
    let [byte, bytes @ ..] = bytes else {
        return fields.is_empty();
    };
    let [field, fields @ ..] = fields else {
        return false;
    };
    is_byte(*byte, field) && are_bytes(bytes, fields)
}

fn is_byte(byte: u8, field: &Field) -> bool
    ensures { result ≡ is_byte byte (number_of (Some field.now)) }
{
    match field {
        Field::Int { value, .. } => *value == i128::from(byte),
        _ => false,
    }
}

/// An id, 0 where none is declared.
#[inline(always)]
pub fn id_in(number: Option<(i128, u32)>) -> Option<u64>
    ensures { result ≡ id_in number }
{
    match number {
        Some((value, _)) => below_64(Some(value)),
        None => Some(0),
    }
}

/// A count without a sign.
pub fn counter_in(table: &Table, number: Option<(i128, u32)>) -> Option<Counter>
    ensures { result ≡ counter_in table.now number }
{
    let (value, ty) = number?;
    let integer = integer_type(table, ty)?;
    if integer.signed {
        return None;
    }
    let value = below_64(Some(value))?;
    Some(Counter {
        value,
        size: integer.size,
    })
}
