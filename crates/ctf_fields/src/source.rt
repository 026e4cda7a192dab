//! What fields are read from.
ghost use Rattle.std.specs.Prelude.{◌≡◌, ◌≤◌, ◌%◌, ◌^◌, IfOk, IfSome, length, reverse, slice_get};
ghost use Rattle.std.specs.Option.{option_copied};
ghost use Rattle.ctf_fields.specs.Leaves.{IsReadable, IsSpan, integer_read, text_read};
ghost use Rattle.ctf_fields.specs.Reading.{Gives, array_by, integer_of, integer_type, leaf, read_number, align_at, number_at};
ghost use Rattle.ctf_fields.specs.declared.field.Field.TheVariants as variant;
ghost use Rattle.type_table.specs.Table.{IsSound, NamesIn};

use crate::error::FieldError;
use crate::field::Field;
use crate::field_path::number_at;
use crate::leaves::{read_integer, read_text};
use crate::open_struct::{OpenStruct, Scopes};
use crate::span::BitSpan;
use crate::types::{align_at, integer_of, integer_type, type_at};
use std::alloc::Global;
use std::marker::Model;
use type_table::{Integer, Reference, Table, TypeMeta};

/// The types, the bits up to an end, and the scopes that were read before.
#[derive(Drop)]
pub struct Source<'a> {
    table: &'a Table,
    bits: BitSpan<'a>,
    scopes: &'a Scopes,
}

impl<'a> Model for Source<'a> {
    ghost use Rattle.ctf_fields.specs.Leaves.{IsSpan};
    ghost use Rattle.ctf_fields.specs.Reading.{SourceModel};
    ghost use Rattle.ctf_fields.specs.contracts.field.Field as field;
    ghost use Rattle.std.specs.Coded.{codes};

    ghost Value = { SourceModel };

    ghost coded = { Prim.hlevel (codes, field.the_row.coded) };

    ghost view = { λ s. record { table = s.table.now; bytes = s.bits.bytes.now; end = s.bits.end; scopes = s.scopes.now } };

    ghost invariant = { λ s. IsSpan s.bits.bytes.now s.bits.end };
}

impl<'a> Source<'a> {
    pub fn new(table: &'a Table, bits: BitSpan<'a>, scopes: &'a Scopes) -> Source<'a>
        requires { IsSpan bits.bytes.now bits.end }
        ensures { result ≡ record { table = table.now; bytes = bits.entry.bytes.now; end = bits.entry.end; scopes = scopes.now } }
    {
        Source {
            table,
            bits,
            scopes,
        }
    }

    pub fn table(&self) -> &Table
        ensures { result.now ≡ self.now.table }
    {
        self.table
    }

    /// How many bits are left at a bit.
    pub fn bits_left(&self, at: u64) -> u64 {
        self.bits.end.saturating_sub(at)
    }

    /// The type at an index.
    pub fn type_at(&self, index: u32) -> Option<&TypeMeta>
        ensures found { option_copied result ≡ slice_get self.now.table.types index }
        ensures sound { IfSome result (λ ty. IsSound ty.now) }
        ensures names { IfSome result (λ ty. NamesIn (length self.now.table.names) ty.now) }
    {
        type_at(self.table, index)
    }

    /// The integer that the type at an index is, or that it is an enumeration of.
    pub fn number_type(&self, index: u32) -> Option<Integer>
        ensures found { result ≡ integer_type self.now.table index }
        ensures readable { IfSome result IsReadable }
    {
        integer_type(self.table, index)
    }

    /// The array of integers that the type at an index is: the integer, how many, and the index of their type.
    pub fn number_array(&self, index: u32) -> Option<(Integer, u64, u32)>
        ensures found { result ≡ array_by self.now.table (slice_get self.now.table.types index) }
        ensures readable { IfSome result (λ array. IsReadable array.0) }
    {
        let TypeMeta::Array { length, item } = self.type_at(index)? else {
            return None;
        };
        let integer = self.number_type(*item)?;
        Some((integer, *length, *item))
    }

    /// The integer of the type at an index.
    pub fn integer_at(&self, index: u32) -> Option<Integer>
        ensures found { result ≡ integer_of (slice_get self.now.table.types index) }
        ensures readable { IfSome result IsReadable }
    {
        integer_of(self.type_at(index)?)
    }

    /// What the type at an index is aligned to.
    pub fn align_at(&self, index: u32) -> u32
        ensures said { result ≡ align_at self.now.table index }
        ensures aligns { (1 ≤ result) × (65536 % result ≡ 0) }
    {
        align_at(self.table, index)
    }

    /// The number that a field path leads to, with the index of its type.
    pub fn number_at(
        &self,
        open_structs: &[OpenStruct],
        field_path: &Reference,
    ) -> Option<(i128, u32)>
        ensures { result ≡ number_at self.now (reverse open_structs.now) field_path.now }
    {
        number_at(self.table, self.scopes, open_structs, field_path)
    }

    /// The integer from this bit on, and the bit after it.
    #[inline(always)]
    pub fn read_integer(&self, integer: Integer, at: u64) -> Option<(i128, u64)>
        requires at { at ≤ 2 ^ 63 }
        requires readable { IsReadable integer }
        ensures read { result ≡ integer_read integer self.now.bytes self.now.end at }
        ensures forward { IfSome result (λ r. (at ≤ r.1) × (r.1 ≤ 2 ^ 63)) }
    {
        read_integer(self.bits, at, integer)
    }

    /// The integer or the enumeration whose own type is `ty`, of this integer.
    pub fn read_number(
        &self,
        ty: u32,
        integer: Option<Integer>,
        at: u64,
    ) -> Result<(Field, u64), FieldError>
        requires at { at ≤ 2 ^ 63 }
        requires readable { IfSome integer IsReadable }
        ensures gives { Gives (read_number self.now ty integer at) result }
        ensures forward { IfOk result (λ r. (at ≤ r.1) × (r.1 ≤ 2 ^ 63)) }
    {
        let Some(integer) = integer else {
            return Err(FieldError::ShortContent);
        };
        match read_integer(self.bits, at, integer) {
            Some((value, end)) => Ok((Field::Int { value, ty }, end)),
            None => Err(FieldError::ShortContent),
        }
    }

    /// The string from this bit on.
    pub fn read_text(&self, alloc: Global, at: u64) -> Result<(Field, u64), FieldError>
        requires { at ≤ 2 ^ 63 }
        ensures gives { Gives (leaf variant.Text (text_read self.now.bytes self.now.end at)) result }
        ensures forward { IfOk result (λ r. (at ≤ r.1) × (r.1 ≤ 2 ^ 63)) }
    {
        match read_text(alloc, self.bits, at)? {
            Some((text, end)) => Ok((Field::Text(text), end)),
            None => Err(FieldError::ShortContent),
        }
    }
}
