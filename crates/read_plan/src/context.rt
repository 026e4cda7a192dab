//! Contexts of packets that are read without keeping their fields.
ghost use Rattle.std.specs.Prelude.{◌≡◌, ◌+◌, ◌≤◌, ◌^◌, is_some, true, IfOk, IfSome, Some, codes};
ghost use Rattle.std.specs.Option.{option_copied};
ghost use Rattle.type_table.specs.declared.meta.TypeMeta.TheVariants as meta;
ghost use Rattle.ctf_fields.specs.Leaves.{IsReadable, IsSpan};
ghost use Rattle.read_plan.specs.Contexts.{AreContextPlans, IsReadableContext, as_numbers, context_numbers, context_plan, context_plans, context_read, leaf_size, leaves_size, number_there, numbers_there, placed, placed_number, plan_at, plan_of_fields, planned_context, tells_size, with_leaf};
ghost use Rattle.read_plan.specs.FixedSizes.{no_size};

use crate::fixed::{FixedSize, joined, number_size, within_byte};
use ctf_fields::{BitSpan, Field, FieldError, integer_type, number_named, read_integer, type_at};
use sqlite_items::Boxed;
use std::alloc::Global;
use trace_types::OutOfMemory;
use type_table::{FieldMeta, Integer, Table, TypeMeta, is_same_name};

/// A number of a context: it begins `offset` bits behind the context's first bit, lies there so, and its type has this index.
#[derive(Clone, Copy, Debug, PartialEq, Eq)]
pub struct PlacedNumber {
    pub offset: u64,
    pub integer: Integer,
    pub ty: u32,
}

/// The numbers of a packet's context by which the packet is cut, each with the index of its type.
#[derive(Clone, Copy, Debug, PartialEq, Eq)]
pub struct ContextNumbers {
    pub packet_size: Option<(i128, u32)>,
    pub content_size: Option<(i128, u32)>,
    pub timestamp_begin: Option<(i128, u32)>,
    pub cpu_id: Option<(i128, u32)>,
    pub packet_seq_num: Option<(i128, u32)>,
    pub events_discarded: Option<(i128, u32)>,
}

/// How contexts are read without keeping their fields: how many bits they take, and where these numbers lie.
#[derive(Clone, Copy, Debug)]
pub struct ContextPlan {
    pub bits: u64,
    pub packet_size: Option<PlacedNumber>,
    pub content_size: Option<PlacedNumber>,
    pub timestamp_begin: Option<PlacedNumber>,
    pub cpu_id: Option<PlacedNumber>,
    pub packet_seq_num: Option<PlacedNumber>,
    pub events_discarded: Option<PlacedNumber>,
}

/// The numbers that a context's fields tell.
pub fn context_numbers(table: &Table, context: Option<&Field>) -> ContextNumbers
    ensures { result ≡ context_numbers table.now (option_copied context.entry) }
{
    ContextNumbers {
        packet_size: number_named(table, b"packet_size", context),
        content_size: number_named(table, b"content_size", context),
        timestamp_begin: number_named(table, b"timestamp_begin", context),
        cpu_id: number_named(table, b"cpu_id", context),
        packet_seq_num: number_named(table, b"packet_seq_num", context),
        events_discarded: number_named(table, b"events_discarded", context),
    }
}

/// The plans for contexts of a table's types, by their indices: none where a type is no structure, has fields that aren't
/// integers of whole bytes or structures without fields, or tells no size. Each type is looked at once. The only error is
/// lack of memory.
#[tactic(auto, using(crate::proofs::Plans::one_more), unfolding(crate::specs::Contexts::plans_of_first))]
pub fn context_plans(
    alloc: Global,
    table: &Table,
) -> Result<Vec<Option<Boxed<ContextPlan>>>, OutOfMemory>
    ensures is { IfOk result (λ plans. plans.items ≡ context_plans table.now) }
    ensures fit { IfOk result (λ plans. AreContextPlans table.now plans.items) }
{
    table.is_sound();
    if table.len() > u32::MAX as usize {
        return Err(OutOfMemory);
    }
    let mut plans = Vec::new(alloc);
    for index in 0..table.len() as u32 {
        let plan = boxed_plan(alloc, table, index)?;
        plans.push(plan)?;
    }
    Ok(plans)
}

/// The plan at an index.
pub fn context_plan_at(plans: &[Option<Boxed<ContextPlan>>], ty: u32) -> Option<&ContextPlan>
    ensures { option_copied result ≡ plan_at plans.now ty }
{
    match plans.get(ty as usize) {
        Some(Some(plan)) => Some(plan.get()),
        _ => None,
    }
}

impl ContextPlan {
    /// The numbers of the context from this bit on, and the bit behind it. The only error is `ShortContent`.
    #[tactic(auto, using(crate::proofs::Plans::placed_within))]
    pub fn read(&self, bits: BitSpan<'_>, at: u64) -> Result<(ContextNumbers, u64), FieldError>
        requires span { IsSpan bits.bytes.now bits.end }
        requires at { at ≤ 2 ^ 63 }
        requires readable { IsReadableContext self.now }
        ensures exact { result ≡ as_numbers (context_read bits.entry.bytes.now bits.entry.end self.now at) }
        ensures forward { IfOk result (λ r. (at ≤ r.1) × (r.1 ≤ 2 ^ 63)) }
    {
        if at > bits.end || self.bits > bits.end - at {
            return Err(FieldError::ShortContent);
        }
        let numbers = ContextNumbers {
            packet_size: number_there(bits, at, self.packet_size),
            content_size: number_there(bits, at, self.content_size),
            timestamp_begin: number_there(bits, at, self.timestamp_begin),
            cpu_id: number_there(bits, at, self.cpu_id),
            packet_seq_num: number_there(bits, at, self.packet_seq_num),
            events_discarded: number_there(bits, at, self.events_discarded),
        };
        Ok((numbers, at + self.bits))
    }
}

// A number where it lies behind this bit, with the index of its type.
#[inline(always)]
fn number_there(bits: BitSpan<'_>, at: u64, place: Option<PlacedNumber>) -> Option<(i128, u32)>
    requires span { IsSpan bits.bytes.now bits.end }
    requires placed { IfSome place (λ p. IsReadable p.integer × (at + p.offset ≤ 2 ^ 63)) }
    ensures { result ≡ number_there bits.entry.bytes.now bits.entry.end at place }
{
    let place = place?;
    let (value, _) = read_integer(bits, at + place.offset, place.integer)?;
    Some((value, place.ty))
}

fn boxed_plan(
    alloc: Global,
    table: &Table,
    ty: u32,
) -> Result<Option<Boxed<ContextPlan>>, OutOfMemory>
    ensures { IfOk result (λ plan. plan ≡ context_plan table.now ty) }
{
    match context_plan(table, ty) {
        Some(plan) => {
            let plan = Boxed::new(alloc, plan)?;
            Ok(Some(plan))
        }
        None => Ok(None),
    }
}

fn context_plan(table: &Table, ty: u32) -> Option<ContextPlan>
    ensures { result ≡ context_plan table.now ty }
{
    match type_at(table, ty)? {
        TypeMeta::Struct { align, fields } => planned_struct(table, *align, fields.as_slice()),
        _ => None,
    }
}

// The fields are summed up only where they tell a size.
fn planned_struct(table: &Table, align: u32, fields: &[FieldMeta]) -> Option<ContextPlan>
    requires { 1 ≤ align }
    ensures { result ≡ planned_context table.now (Some (meta.Struct align fields.now)) }
{
    if !within_byte(align) || !tells_size(table, fields) {
        return None;
    }
    let size = leaves_size(table, fields)?;
    Some(plan_of_fields(table, fields, size.bits))
}

fn tells_size(table: &Table, fields: &[FieldMeta]) -> bool
    ensures { result ≡ tells_size table.now fields.now }
{
    tells(table, b"packet_size", fields) || tells(table, b"content_size", fields)
}

// Whether the first field of a name is a number.
#[tactic(auto, using(crate::proofs::Plans::tells_here))]
fn tells(table: &Table, text: &[u8], fields: &[FieldMeta]) -> bool
    ensures { result ≡ is_some (placed table.now text.now 0 fields.now) }
{
    for field in fields {
        if is_same_name(text, table.name(field.name)) {
            return integer_type(table, field.ty).is_some();
        }
    }
    false
}

fn plan_of_fields(table: &Table, fields: &[FieldMeta], bits: u64) -> ContextPlan
    requires { is_some (leaves_size table.now no_size fields.now) ≡ true }
    ensures { result ≡ plan_of_fields table.now fields.now bits }
{
    ContextPlan {
        bits,
        packet_size: placed(table, b"packet_size", fields),
        content_size: placed(table, b"content_size", fields),
        timestamp_begin: placed(table, b"timestamp_begin", fields),
        cpu_id: placed(table, b"cpu_id", fields),
        packet_seq_num: placed(table, b"packet_seq_num", fields),
        events_discarded: placed(table, b"events_discarded", fields),
    }
}

// The first field of a name, where it is a number.
#[tactic(auto, using(crate::proofs::Plans::placed_more))]
fn placed(table: &Table, text: &[u8], fields: &[FieldMeta]) -> Option<PlacedNumber>
    requires { is_some (leaves_size table.now no_size fields.now) ≡ true }
    ensures { result ≡ placed table.now text.now 0 fields.now }
{
    let mut done = FixedSize { bits: 0, depth: 0 };
    for field in fields {
        if is_same_name(text, table.name(field.name)) {
            return placed_number(table, done.bits, field.ty);
        }
        done = with_leaf(table, done, field.ty)?;
    }
    None
}

fn placed_number(table: &Table, offset: u64, ty: u32) -> Option<PlacedNumber>
    ensures { result ≡ placed_number table.now offset ty }
{
    let integer = integer_type(table, ty)?;
    Some(PlacedNumber {
        offset,
        integer,
        ty,
    })
}

fn leaves_size(table: &Table, fields: &[FieldMeta]) -> Option<FixedSize>
    ensures { result ≡ leaves_size table.now no_size fields.now }
{
    let mut sum = FixedSize { bits: 0, depth: 0 };
    for field in fields {
        sum = with_leaf(table, sum, field.ty)?;
    }
    Some(sum)
}

// The size of one more field after those that take so much.
fn with_leaf(table: &Table, sum: FixedSize, ty: u32) -> Option<FixedSize>
    ensures { result ≡ with_leaf table.now sum ty }
{
    joined(sum, leaf_size(table, ty)?)
}

// The size of an integer of whole bytes, or of a structure without fields.
fn leaf_size(table: &Table, ty: u32) -> Option<FixedSize>
    ensures { result ≡ leaf_size table.now ty }
{
    match type_at(table, ty)? {
        TypeMeta::Struct { align, fields } => {
            if fields.is_empty() && within_byte(*align) {
                Some(FixedSize { bits: 0, depth: 0 })
            } else {
                None
            }
        }
        _ => number_size(integer_type(table, ty)?),
    }
}
