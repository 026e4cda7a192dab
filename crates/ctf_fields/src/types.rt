//! Types by their indices.
ghost use Rattle.std.specs.Prelude.{◌≡◌, ◌≤◌, ◌%◌, IfSome, Some, length, slice_get};
ghost use Rattle.std.specs.Option.{option_copied};
ghost use Rattle.ctf_fields.specs.Leaves.{IsReadable};
ghost use Rattle.ctf_fields.specs.Reading.{align_at, integer_of, integer_type};
ghost use Rattle.type_table.specs.Table.{IsSound, NamesIn};

use type_table::{Integer, Table, TypeMeta};

/// The type at an index.
pub fn type_at(table: &Table, index: u32) -> Option<&TypeMeta>
    ensures found { option_copied result ≡ slice_get table.now.types index }
    ensures sound { IfSome result (λ ty. IsSound ty.now) }
    ensures names { IfSome result (λ ty. NamesIn (length table.now.names) ty.now) }
{
    if (index as usize) < table.len() {
        Some(table.get(index))
    } else {
        None
    }
}

/// The integer that a type is.
pub fn integer_of(meta: &TypeMeta) -> Option<Integer>
    requires { IsSound meta.now }
    ensures found { result ≡ integer_of (Some meta.now) }
    ensures readable { IfSome result IsReadable }
{
    match meta {
        TypeMeta::Integer(integer) => Some(*integer),
        _ => None,
    }
}

/// The integer that the type at an index is, or that it is an enumeration of.
pub fn integer_type(table: &Table, index: u32) -> Option<Integer>
    ensures found { result ≡ integer_type table.now index }
    ensures readable { IfSome result IsReadable }
{
    match type_at(table, index)? {
        TypeMeta::Enum { base, .. } => integer_of(type_at(table, *base)?),
        meta => integer_of(meta),
    }
}

/// What the type at an index is aligned to.
pub fn align_at(table: &Table, index: u32) -> u32
    ensures said { result ≡ align_at table.now index }
    ensures aligns { (1 ≤ result) × (65536 % result ≡ 0) }
{
    if (index as usize) < table.len() {
        table.type_size(index).align
    } else {
        8
    }
}
