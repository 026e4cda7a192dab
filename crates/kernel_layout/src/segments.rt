//! TCP segments in the fields of events.
ghost use Rattle.std.specs.Prelude.{◌≡◌, ◌≤◌, Some, IfSome};
ghost use Rattle.std.specs.Option.{option_copied};
ghost use Rattle.ctf_fields.specs.Fields.{number_of};
ghost use Rattle.ctf_fields.specs.Leaves.{IsReadable};
ghost use Rattle.kernel_layout.specs.Kinds.{segment};
ghost use Rattle.kernel_layout.specs.Needed.{address_in, followed, joined, list_address, lone_address};
ghost use Rattle.kernel_layout.specs.Sought.{known_of};

use crate::needed::{value_of, within_16, within_32};
use crate::segment_fields::segment_fields;
use crate::whole::WholeFields;
use ctf_fields::{Field, below_64, integer_type};
use trace_types::SegKey;
use type_table::{Integer, Table};

/// What tells a segment from others.
pub fn segment(fields: WholeFields<'_>) -> Option<SegKey>
    requires { fields.known.now ≡ known_of fields.table.now.names }
    ensures { result ≡ segment fields.entry.table.now fields.entry.root.now }
{
    let found = segment_fields(fields.table, fields.known, fields.root);
    let saddr = address_in(fields.table, found.saddr)?;
    let daddr = address_in(fields.table, found.daddr)?;
    let source_port = within_16(value_of(found.source_port))?;
    let dest_port = within_16(value_of(found.dest_port))?;
    let seq = within_32(value_of(found.seq))?;
    let ack_seq = within_32(value_of(found.ack_seq))?;
    let flags = within_16(value_of(found.flags))?;
    Some(SegKey {
        saddr,
        daddr,
        seq,
        ack_seq,
        source_port,
        dest_port,
        flags,
    })
}

// An address of at most 128 bits.
fn address_in(table: &Table, field: Option<&Field>) -> Option<u128>
    ensures { result ≡ address_in table.now (option_copied field.entry) }
{
    match field? {
        Field::Int { ty, value } => lone_address(integer_type(table, *ty), *value),
        Field::List { item, items } => list_address(integer_type(table, *item), items.as_slice()),
        _ => None,
    }
}

fn lone_address(integer: Option<Integer>, value: i128) -> Option<u128>
    ensures { result ≡ lone_address integer value }
{
    if integer?.signed {
        return None;
    }
    Some(u128::from(below_64(Some(value))?))
}

fn list_address(integer: Option<Integer>, items: &[Field]) -> Option<u128>
    requires { IfSome integer IsReadable }
    ensures { result ≡ list_address integer items.now }
{
    let integer = integer?;
    if integer.signed || u128::from(integer.size) * items.len() as u128 > 128 {
        return None;
    }
    let mut address = 0;
    for item in items {
        address = followed(integer.size, address, item)?;
    }
    Some(address)
}

// A number, and after it one of so many bits.
fn followed(size: u32, address: u128, item: &Field) -> Option<u128>
    requires { size ≤ 64 }
    ensures { result ≡ followed size address (number_of (Some item.now)) }
{
    let Field::Int { value, .. } = item else {
        return None;
    };
    let span = 1u128 << size;
    let digit = u128::try_from(*value).ok()?;
    if digit >= span {
        return None;
    }
    address.checked_mul(span)?.checked_add(digit)
}
