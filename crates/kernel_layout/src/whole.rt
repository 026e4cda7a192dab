//! The fields of an event as they were read.
ghost use Rattle.std.specs.Prelude.{◌≡◌, map, take};
ghost use Rattle.std.specs.Option.{option_copied};
ghost use Rattle.ctf_fields.specs.Reading.{integer_type};
ghost use Rattle.trace_types.specs.Padding.{name_in};
ghost use Rattle.kernel_layout.specs.Needed.{byte_of, comm_in, is_byte};
ghost use Rattle.kernel_layout.specs.Sought.{known_of};

use crate::fields::{Fields, Segments};
use crate::known::first_known;
use crate::needed::value_of;
use crate::segments::segment;
use crate::sought::Sought;
use ctf_fields::{Field, integer_type};
use trace_types::{Comm, SegKey};
use type_table::Table;

/// The fields of an event, the table that has the names of fields, and what is known of these names.
#[derive(Clone, Copy)]
pub struct WholeFields<'a> {
    pub table: &'a Table,
    pub known: &'a [Option<Sought>],
    pub root: &'a Field,
}

impl Fields for WholeFields<'_> {
    ghost table = { λ f. f.table.now };

    ghost root = { λ f. f.root.now };

    ghost can_tell = { λ f. f.known.now ≡ known_of f.table.now.names };

    fn number(self, name: Sought) -> Option<i128> {
        value_of(first_known(self.table, self.known, name, self.root))
    }

    fn comm(self, name: Sought) -> Option<Comm> {
        comm_in(
            self.table,
            first_known(self.table, self.known, name, self.root),
        )
    }
}

impl Segments for WholeFields<'_> {
    fn segment(self) -> Option<SegKey> {
        segment(self)
    }
}

fn comm_in(table: &Table, field: Option<&Field>) -> Option<Comm>
    ensures { result ≡ comm_in table.now (option_copied field.entry) }
{
    match field? {
        Field::Text(text) => Some(Comm::first_of(text.as_bytes())),
        Field::List { item, items } if is_byte(table, *item) => Some(listed_name(items.as_slice())),
        _ => None,
    }
}

// Whether the type at an index is an integer of 8 bits.
fn is_byte(table: &Table, ty: u32) -> bool
    ensures { result ≡ is_byte (integer_type table.now ty) }
{
    match integer_type(table, ty) {
        Some(integer) => integer.size == 8,
        None => false,
    }
}

// The name whose bytes are these fields.
fn listed_name(fields: &[Field]) -> Comm
    ensures { result ≡ take 15 (name_in (map byte_of fields.now)) }
{
    let mut bytes = [0; 15];
    let len = fields.len().min(15);
    for index in 0..len {
        bytes[index] = byte_of(&fields[index]);
    }
    Comm::first_of(&bytes[..len])
}

fn byte_of(field: &Field) -> u8
    ensures { result ≡ byte_of field.now }
{
    match field {
        Field::Int { value, .. } => (value.cast_unsigned() % 256) as u8,
        _ => 0,
    }
}
