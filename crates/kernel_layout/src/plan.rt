//! Plans by which the fields of events are read from the bits, made once for each event that a trace declares.
ghost use Rattle.std.specs.Prelude.{◌≡◌, ◌≤◌, IfOk, IfSome};
ghost use Rattle.std.specs.Option.{option_and_then};
ghost use Rattle.ctf_fields.specs.Leaves.{IsReadable};
ghost use Rattle.kernel_layout.specs.Plans.{end_behind, form_bits, form_of, integer_in, is_address, no_fields, numbers_of, placed, plan_from, plan_of, plan_of_type, whole_integer, with_bits, within_64};

use crate::layout::{kind_at, needs_fields};
use crate::sought::{Sought, sought_of};
use ctf_fields::{align_at, integer_type, type_at};
use read_plan::within_byte;
use sqlite_items::Items;
use std::alloc::Global;
use trace_types::{EventKind, OutOfMemory};
use type_table::{EventParts, FieldMeta, Integer, Table, TypeMeta};

/// Events of more fields have no plan, so that plans take little memory whatever is declared.
pub const MAX_PLANNED_FIELDS: usize = 64;

/// A number, or an array of so many.
#[derive(Clone, Copy, Debug)]
pub enum FieldForm {
    Number(Integer),
    Numbers { integer: Integer, count: u64 },
}

/// A field whose name counts as one that is looked for. It begins `offset` bits behind the first bit of the event's fields.
#[derive(Clone, Copy, Debug)]
pub struct PlannedField {
    pub sought: Sought,
    pub offset: u64,
    pub form: FieldForm,
}

/// Where the fields lie by which an event's kind is told. `ty` is the type of the event's fields, which take so many bits.
#[derive(Debug, Drop)]
pub struct EventPlan {
    pub ty: u32,
    pub bits: u64,
    pub fields: Items<PlannedField>,
}

/// The plan of an event, where its kind needs fields and these are all numbers and arrays of numbers. The only error is lack of
/// memory.
pub fn plan_of(
    alloc: Global,
    table: &Table,
    kinds: &[EventKind],
    parts: EventParts,
) -> Result<Option<EventPlan>, OutOfMemory>
    ensures { IfOk result (λ plan. plan ≡ plan_of table.now kinds.now parts) }
{
    if !needs_fields(kind_at(kinds, parts.name)) {
        return Ok(None);
    }
    match parts.fields {
        Some(ty) => plan_of_type(alloc, table, ty),
        None => Ok(None),
    }
}

fn plan_of_type(alloc: Global, table: &Table, ty: u32) -> Result<Option<EventPlan>, OutOfMemory>
    ensures { IfOk result (λ plan. plan ≡ plan_of_type table.now ty) }
{
    let Some(TypeMeta::Struct { align, fields }) = type_at(table, ty) else {
        return Ok(None);
    };
    if fields.len() > MAX_PLANNED_FIELDS || !within_byte(*align) {
        return Ok(None);
    }
    plan_of_fields(alloc, table, ty, fields.as_slice())
}

fn plan_of_fields(
    alloc: Global,
    table: &Table,
    ty: u32,
    fields: &[FieldMeta],
) -> Result<Option<EventPlan>, OutOfMemory>
    ensures { IfOk result (λ plan. plan ≡ option_and_then with_bits (plan_from table.now (no_fields ty) fields.now)) }
{
    let mut bits = 0;
    let mut planned = Items::new(alloc);
    for field in fields {
        let sought = sought_of(table.name(field.name));
        let Some((form, end)) = placed(sought, bits, form_of(table, field.ty)) else {
            return Ok(None);
        };
        if let Some(sought) = sought {
            planned.push(PlannedField {
                sought,
                offset: bits,
                form,
            })?;
        }
        bits = end;
    }
    if bits == 0 {
        return Ok(None);
    }
    Ok(Some(EventPlan {
        ty,
        bits,
        fields: planned,
    }))
}

// A field that begins behind so many bits, with its end.
fn placed(sought: Option<Sought>, bits: u64, form: Option<FieldForm>) -> Option<(FieldForm, u64)>
    ensures { result ≡ placed sought bits form }
{
    let form = form?;
    if is_address(sought) {
        return None;
    }
    Some((form, end_behind(bits, form)?))
}

// An address is not read by a plan.
fn is_address(sought: Option<Sought>) -> bool
    ensures { result ≡ is_address sought }
{
    matches!(sought, Some(Sought::Saddr | Sought::Daddr))
}

fn end_behind(bits: u64, form: FieldForm) -> Option<u64>
    ensures { result ≡ end_behind bits form }
{
    bits.checked_add(form_bits(form)?)
}

fn form_bits(form: FieldForm) -> Option<u64>
    ensures { result ≡ within_64 (form_bits form) }
{
    match form {
        FieldForm::Number(integer) => Some(u64::from(integer.size)),
        FieldForm::Numbers { integer, count } => count.checked_mul(u64::from(integer.size)),
    }
}

// The number, or the array of numbers, that a type is.
fn form_of(table: &Table, ty: u32) -> Option<FieldForm>
    ensures { result ≡ form_of table.now ty }
{
    match type_at(table, ty) {
        Some(TypeMeta::Array { length, item }) => numbers_of(table, *length, *item),
        _ => Some(FieldForm::Number(whole_integer(integer_type(table, ty))?)),
    }
}

fn numbers_of(table: &Table, count: u64, item: u32) -> Option<FieldForm>
    ensures { result ≡ numbers_of table.now count item }
{
    if !within_byte(align_at(table, item)) {
        return None;
    }
    let integer = whole_integer(integer_type(table, item))?;
    Some(FieldForm::Numbers { integer, count })
}

// An integer of whole bytes, which begins where what stands before it ends.
fn whole_integer(integer: Option<Integer>) -> Option<Integer>
    requires { IfSome integer IsReadable }
    ensures { result ≡ whole_integer integer }
{
    let integer = integer?;
    if integer.size % 8 == 0 && within_byte(integer.align) {
        Some(integer)
    } else {
        None
    }
}
