//! The fields of an event as its plan finds them in the bits.
ghost use Rattle.std.specs.Prelude.{◌≡◌, ◌+◌, ◌*◌, ◌≤◌};
ghost use Rattle.std.specs.Option.{option_copied};
ghost use Rattle.type_table.specs.Names.{same_name};
ghost use Rattle.ctf_fields.specs.Leaves.{IsReadable, IsSpan};
ghost use Rattle.kernel_layout.specs.Plans.{IsPlanAt, byte_by, form_bits, found, integer_in, name_spelt, number_in, spelt, struct_at, value_at};
ghost use Rattle.kernel_layout.specs.Sought.{text_of};

use crate::fields::{Fields, Segments};
use crate::plan::{EventPlan, FieldForm, PlannedField};
use crate::sought::Sought;
use ctf_fields::{BitSpan, read_integer};
use trace_types::{Comm, SegKey};
use type_table::{Integer, Table};

/// The fields of an event, which begin at the bit `at`, and their plan.
#[derive(Clone, Copy)]
pub struct PlannedFields<'a> {
    pub table: &'a Table,
    pub plan: &'a EventPlan,
    pub bits: BitSpan<'a>,
    pub at: u64,
}

impl Fields for PlannedFields<'_> {
    ghost table = { λ f. f.table.now };

    ghost root = { λ f. struct_at f.table.now f.plan.now.ty f.bits.bytes.now f.bits.end f.at };

    ghost can_tell = { λ f. IsPlanAt f.table.now f.plan.now f.bits.bytes.now f.bits.end f.at };

    #[inline(always)]
    fn number(self, name: Sought) -> Option<i128> {
        let field = found(self.plan.fields.as_slice(), name)?;
        number_in(self.bits, self.at + field.offset, field.form)
    }

    #[inline(always)]
    fn comm(self, name: Sought) -> Option<Comm> {
        let field = found(self.plan.fields.as_slice(), name)?;
        name_spelt(self.bits, self.at + field.offset, field.form)
    }
}

impl Segments for PlannedFields<'_> {
    // No plan has an address.
    fn segment(self) -> Option<SegKey> {
        None
    }
}

// The first field of this name.
#[inline(always)]
fn found(fields: &[PlannedField], name: Sought) -> Option<&PlannedField>
    ensures { option_copied result ≡ found name fields.now }
{
    for field in fields {
        if is_named(field.sought, name) {
            return Some(field);
        }
    }
    None
}

// Whether the one name counts as the other.
#[inline(always)]
fn is_named(sought: Sought, name: Sought) -> bool
    ensures { result ≡ same_name (text_of name) (text_of sought) }
{
    sought == name
}

#[inline(always)]
fn number_in(bits: BitSpan<'_>, at: u64, form: FieldForm) -> Option<i128>
    requires span { IsSpan bits.bytes.now bits.end }
    requires readable { IsReadable (integer_in form) }
    requires there { at + form_bits form ≤ bits.end }
    ensures { result ≡ number_in bits.entry.bytes.now bits.entry.end at form }
{
    match form {
        FieldForm::Number(integer) => value_at(bits, at, integer),
        FieldForm::Numbers { .. } => None,
    }
}

#[inline(always)]
fn value_at(bits: BitSpan<'_>, at: u64, integer: Integer) -> Option<i128>
    requires span { IsSpan bits.bytes.now bits.end }
    requires readable { IsReadable integer }
    requires there { at ≤ bits.end }
    ensures { result ≡ value_at bits.entry.bytes.now bits.entry.end integer at }
{
    let (value, _) = read_integer(bits, at, integer)?;
    Some(value)
}

#[inline(always)]
fn name_spelt(bits: BitSpan<'_>, at: u64, form: FieldForm) -> Option<Comm>
    requires span { IsSpan bits.bytes.now bits.end }
    requires readable { IsReadable (integer_in form) }
    requires there { at + form_bits form ≤ bits.end }
    ensures { result ≡ name_spelt bits.entry.bytes.now bits.entry.end at form }
{
    match form {
        FieldForm::Numbers { integer, count } if integer.size == 8 => {
            Some(spelt(bits, at, integer, count))
        }
        _ => None,
    }
}

// The name whose bytes are the first of so many numbers.
#[inline(always)]
fn spelt(bits: BitSpan<'_>, at: u64, integer: Integer, count: u64) -> Comm
    requires span { IsSpan bits.bytes.now bits.end }
    requires readable { IsReadable integer }
    requires bytes { integer.size ≡ 8 }
    requires there { at + count * 8 ≤ bits.end }
    ensures { result ≡ spelt bits.entry.bytes.now bits.entry.end at integer count }
{
    let mut bytes = [0; 15];
    let len = count.min(15) as usize;
    for index in 0..len {
        bytes[index] = byte_at(bits, at + 8 * index as u64, integer);
    }
    Comm::first_of(&bytes[..len])
}

// Most names stand at whole bytes.
#[inline(always)]
fn byte_at(bits: BitSpan<'_>, at: u64, integer: Integer) -> u8
    requires span { IsSpan bits.bytes.now bits.end }
    requires readable { IsReadable integer }
    requires byte { integer.size ≡ 8 }
    requires there { at + 8 ≤ bits.end }
    ensures { result ≡ byte_by (value_at bits.entry.bytes.now bits.entry.end integer at) }
{
    if at % 8 == 0 && integer.align == 8 {
        return bits.bytes[(at / 8) as usize];
    }
    match value_at(bits, at, integer) {
        Some(value) => (value.cast_unsigned() % 256) as u8,
        None => 0,
    }
}
