//! Fields by their types.
ghost use Rattle.std.specs.Prelude.{◌≡◌, ◌≤◌, ◌∷◌, ◌^◌, ◌%◌, [], None, Some, length, option_map, reverse, slice_get, IfOk, OnOk};
ghost use Rattle.std.specs.Option.{option_copied};
ghost use Rattle.ctf_fields.specs.Choice.{chosen};
ghost use Rattle.ctf_fields.specs.Leaves.{IsSpan};
ghost use Rattle.ctf_fields.specs.Reading.{Gives, GivesWith, length_of, number_at, read, read_by, read_choice, read_item, read_items, read_list, read_member, read_members, read_struct, scope_read};
ghost use Rattle.type_table.specs.Table.{IsSound, NamesIn};

use crate::choice::chosen;
use crate::error::FieldError;
use crate::field::{Field, Member};
use crate::numbers::{add_array_member, add_number_member, add_numbers, aligned, room_for};
use crate::open_struct::{OpenStruct, Scopes, clear, take_fields};
use crate::scratch::Scratch;
use crate::source::Source;
use crate::span::BitSpan;
use sqlite_items::{Boxed, Items};
use std::alloc::Global;
use std::mem;
use trace_types::{MAX_ITEMS, MAX_TYPE_DEPTH};
use type_table::{FieldMeta, Reference, TraceMeta, TypeMeta};

/// The field of a scope's type from a bit on, and the first bit after it. `scopes` has the
/// fields of the scopes that are read before it.
pub fn read_type(
    alloc: Global,
    meta: &TraceMeta,
    ty: u32,
    bits: BitSpan<'_>,
    at: u64,
    scopes: &Scopes,
) -> Result<(Field, u64), FieldError>
    requires span { IsSpan bits.bytes.now bits.end }
    requires at { at ≤ 2 ^ 63 }
    ensures gives { Gives (scope_read (record { table = meta.now.table; bytes = bits.entry.bytes.now; end = bits.entry.end; scopes = scopes.now }) ty at) result }
    ensures forward { IfOk result (λ r. (at ≤ r.1) × (r.1 ≤ 2 ^ 63)) }
{
    let mut scratch = Scratch::new(alloc);
    read_type_within(alloc, meta, ty, bits, at, scopes, &mut scratch)
}

/// The same, with memory that is used again from one field to the next.
pub fn read_type_within(
    alloc: Global,
    meta: &TraceMeta,
    ty: u32,
    bits: BitSpan<'_>,
    at: u64,
    scopes: &Scopes,
    scratch: &mut Scratch,
) -> Result<(Field, u64), FieldError>
    requires span { IsSpan bits.bytes.now bits.end }
    requires at { at ≤ 2 ^ 63 }
    ensures gives { Gives (scope_read (record { table = meta.now.table; bytes = bits.entry.bytes.now; end = bits.entry.end; scopes = scopes.now }) ty at) result }
    ensures forward { IfOk result (λ r. (at ≤ r.1) × (r.1 ≤ 2 ^ 63)) }
{
    let source = Source::new(meta.table(), bits, scopes);
    clear(&mut scratch.open_structs);
    read(alloc, &source, scratch, MAX_TYPE_DEPTH, None, ty, at)
}

// The type at an index, for a field of this name of the structure around it.
#[cycle(read)]
#[tactic(auto, unfolding(crate::specs::Reading::read, crate::specs::Reading::read_by))]
fn read(
    alloc: Global,
    source: &Source<'_>,
    scratch: &mut Scratch,
    depth: u32,
    name: Option<u32>,
    ty: u32,
    at: u64,
) -> Result<(Field, u64), FieldError>
    requires { at ≤ 2 ^ 63 }
    ensures gives { Gives (read depth source.now name ty (reverse scratch.old.open_structs) at) result }
    ensures forward { IfOk result (λ r. (at ≤ r.1) × (r.1 ≤ 2 ^ 63)) }
    ensures stays { OnOk result (reverse scratch.new.open_structs ≡ reverse scratch.old.open_structs) }
{
    if depth == 0 {
        return Err(FieldError::ShortContent);
    }
    let Some(meta) = source.type_at(ty) else {
        return Err(FieldError::ShortContent);
    };
    read_by(alloc, source, scratch, depth - 1, name, ty, meta, at)
}

#[cycle(read)]
#[tactic(auto, unfolding(crate::specs::Reading::read_by))]
fn read_by(
    alloc: Global,
    source: &Source<'_>,
    scratch: &mut Scratch,
    depth: u32,
    name: Option<u32>,
    ty: u32,
    meta: &TypeMeta,
    at: u64,
) -> Result<(Field, u64), FieldError>
    requires at { at ≤ 2 ^ 63 }
    requires sound { IsSound meta.now }
    requires names { NamesIn (length source.now.table.names) meta.now }
    ensures gives { Gives (read_by (read depth source.now) source.now name ty (Some meta.now) (reverse scratch.old.open_structs) at) result }
    ensures forward { IfOk result (λ r. (at ≤ r.1) × (r.1 ≤ 2 ^ 63)) }
    ensures stays { OnOk result (reverse scratch.new.open_structs ≡ reverse scratch.old.open_structs) }
{
    match meta {
        TypeMeta::Integer(integer) => source.read_number(ty, Some(*integer), at),
        TypeMeta::Enum { base, .. } => source.read_number(ty, source.integer_at(*base), at),
        TypeMeta::Str => source.read_text(alloc, at),
        TypeMeta::Struct { align, fields } => {
            read_struct(
                alloc,
                source,
                scratch,
                depth,
                name,
                *align,
                fields.as_slice(),
                at,
            )
        }
        TypeMeta::Variant { tag, fields } => {
            let tag = source.number_at(scratch.open_structs.as_slice(), tag);
            let field = chosen(alloc, source, tag, fields)?;
            read_choice(alloc, source, scratch, depth, field, at)
        }
        TypeMeta::Array { length, item } => {
            read_list(alloc, source, scratch, depth, *length, *item, at)
        }
        TypeMeta::Sequence { length, item } => {
            let Some(count) = length_of(source.number_at(scratch.open_structs.as_slice(), length))
            else {
                return Err(FieldError::TooLong);
            };
            read_list(alloc, source, scratch, depth, count, *item, at)
        }
    }
}

// How many items a sequence has.
fn length_of(number: Option<(i128, u32)>) -> Option<u64>
    ensures { result ≡ length_of number }
{
    let (value, _) = number?;
    if value < 0 || value > i128::from(MAX_ITEMS) {
        return None;
    }
    Some(value as u64)
}

#[cycle(read)]
#[inline(never)]
fn read_struct(
    alloc: Global,
    source: &Source<'_>,
    scratch: &mut Scratch,
    depth: u32,
    name: Option<u32>,
    align: u32,
    fields: &[FieldMeta],
    at: u64,
) -> Result<(Field, u64), FieldError>
    requires at { at ≤ 2 ^ 63 }
    requires aligns { (1 ≤ align) × (65536 % align ≡ 0) }
    ensures gives { Gives (read_struct (read depth source.now) name align fields.now (reverse scratch.old.open_structs) at) result }
    ensures forward { IfOk result (λ r. (at ≤ r.1) × (r.1 ≤ 2 ^ 63)) }
    ensures stays { OnOk result (reverse scratch.new.open_structs ≡ reverse scratch.old.open_structs) }
{
    let bit = aligned(at, align);
    let mut inner = OpenStruct {
        name,
        fields: scratch.list_for(alloc, fields.len() as u64)?,
    };
    let end = read_members(alloc, source, scratch, &mut inner, depth, fields, bit)?;
    Ok((Field::Struct(inner.fields), end))
}

// The fields of a structure within those around, one after the other.
#[cycle(read)]
fn read_members(
    alloc: Global,
    source: &Source<'_>,
    scratch: &mut Scratch,
    inner: &mut OpenStruct,
    depth: u32,
    fields: &[FieldMeta],
    at: u64,
) -> Result<u64, FieldError>
    requires { at ≤ 2 ^ 63 }
    ensures gives { GivesWith (read_members (read depth source.now) fields.now (inner.old ∷ reverse scratch.old.open_structs) at) (inner.new ∷ reverse scratch.new.open_structs) result }
    ensures forward { IfOk result (λ end. (at ≤ end) × (end ≤ 2 ^ 63)) }
    ensures stays { OnOk result (reverse scratch.new.open_structs ≡ reverse scratch.old.open_structs) }
{
    let mut bit = at;
    for field in fields {
        bit = read_member(alloc, source, scratch, inner, depth, *field, bit)?;
    }
    Ok(bit)
}

// One more field of a structure within those around.
#[cycle(read)]
fn read_member(
    alloc: Global,
    source: &Source<'_>,
    scratch: &mut Scratch,
    inner: &mut OpenStruct,
    depth: u32,
    meta: FieldMeta,
    at: u64,
) -> Result<u64, FieldError>
    requires { at ≤ 2 ^ 63 }
    ensures gives { GivesWith (read_member (read depth source.now) meta (inner.old ∷ reverse scratch.old.open_structs) at) (inner.new ∷ reverse scratch.new.open_structs) result }
    ensures forward { IfOk result (λ end. (at ≤ end) × (end ≤ 2 ^ 63)) }
    ensures stays { OnOk result (reverse scratch.new.open_structs ≡ reverse scratch.old.open_structs) }
{
    if depth > 0 {
        if let Some(integer) = source.number_type(meta.ty) {
            return add_number_member(source, inner, integer, meta, at);
        }
    }
    if depth > 1 {
        if let Some(array) = source.number_array(meta.ty) {
            return add_array_member(alloc, source, inner, array, meta, at);
        }
    }
    read_nested(alloc, source, scratch, inner, depth, meta, at)
}

#[cycle(read)]
#[inline(never)]
fn read_nested(
    alloc: Global,
    source: &Source<'_>,
    scratch: &mut Scratch,
    inner: &mut OpenStruct,
    depth: u32,
    meta: FieldMeta,
    at: u64,
) -> Result<u64, FieldError>
    requires { at ≤ 2 ^ 63 }
    ensures gives { GivesWith (read_member (read depth source.now) meta (inner.old ∷ reverse scratch.old.open_structs) at) (inner.new ∷ reverse scratch.new.open_structs) result }
    ensures forward { IfOk result (λ end. (at ≤ end) × (end ≤ 2 ^ 63)) }
    ensures stays { OnOk result (reverse scratch.new.open_structs ≡ reverse scratch.old.open_structs) }
{
    let name = inner.name;
    let fields = mem::replace(&mut inner.fields, Items::new(alloc));
    scratch.open_structs.push(OpenStruct { name, fields })?;
    let (field, end) = read(alloc, source, scratch, depth, Some(meta.name), meta.ty, at)?;
    inner.fields = take_fields(alloc, &mut scratch.open_structs);
    inner.fields.push(Member {
        name: meta.name,
        field,
    })?;
    Ok(end)
}

#[cycle(read)]
#[inline(never)]
fn read_choice(
    alloc: Global,
    source: &Source<'_>,
    scratch: &mut Scratch,
    depth: u32,
    chosen: Option<FieldMeta>,
    at: u64,
) -> Result<(Field, u64), FieldError>
    requires { at ≤ 2 ^ 63 }
    ensures gives { Gives (read_choice (read depth source.now) chosen (reverse scratch.old.open_structs) at) result }
    ensures forward { IfOk result (λ r. (at ≤ r.1) × (r.1 ≤ 2 ^ 63)) }
    ensures stays { OnOk result (reverse scratch.new.open_structs ≡ reverse scratch.old.open_structs) }
{
    let Some(meta) = chosen else {
        return Err(FieldError::NoVariant);
    };
    let (field, end) = read(alloc, source, scratch, depth, None, meta.ty, at)?;
    let field = Boxed::new(alloc, field)?;
    Ok((
        Field::Choice {
            name: meta.name,
            field,
        },
        end,
    ))
}

#[cycle(read)]
#[inline(never)]
fn read_list(
    alloc: Global,
    source: &Source<'_>,
    scratch: &mut Scratch,
    depth: u32,
    count: u64,
    item: u32,
    at: u64,
) -> Result<(Field, u64), FieldError>
    requires { at ≤ 2 ^ 63 }
    ensures gives { Gives (read_list (read depth source.now) source.now.table count item (reverse scratch.old.open_structs) at) result }
    ensures forward { IfOk result (λ r. (at ≤ r.1) × (r.1 ≤ 2 ^ 63)) }
    ensures stays { OnOk result (reverse scratch.new.open_structs ≡ reverse scratch.old.open_structs) }
{
    let bit = aligned(at, source.align_at(item));
    let (items, end) = read_items(alloc, source, scratch, depth, count, item, bit)?;
    Ok((Field::List { item, items }, end))
}

// So many items, one after the other. Each takes a bit at least, so no more room is taken than there are bits.
#[cycle(read)]
fn read_items(
    alloc: Global,
    source: &Source<'_>,
    scratch: &mut Scratch,
    depth: u32,
    count: u64,
    item: u32,
    at: u64,
) -> Result<(Items<Field>, u64), FieldError>
    requires { at ≤ 2 ^ 63 }
    ensures gives { Gives (read_items (read depth source.now) item (reverse scratch.old.open_structs) count [] at) result }
    ensures forward { IfOk result (λ r. (at ≤ r.1) × (r.1 ≤ 2 ^ 63)) }
    ensures stays { OnOk result (reverse scratch.new.open_structs ≡ reverse scratch.old.open_structs) }
{
    let mut items = room_for(alloc, count.min(source.bits_left(at)))?;
    let end = add_items(alloc, source, scratch, depth, count, item, at, &mut items)?;
    Ok((items, end))
}

#[cycle(read)]
#[tactic(auto, using(crate::proofs::Integers::items_numbers))]
fn add_items(
    alloc: Global,
    source: &Source<'_>,
    scratch: &mut Scratch,
    depth: u32,
    count: u64,
    item: u32,
    at: u64,
    items: &mut Items<Field>,
) -> Result<u64, FieldError>
    requires { at ≤ 2 ^ 63 }
    ensures gives { GivesWith (read_items (read depth source.now) item (reverse scratch.old.open_structs) count items.old at) items.new result }
    ensures forward { IfOk result (λ end. (at ≤ end) × (end ≤ 2 ^ 63)) }
    ensures stays { OnOk result (reverse scratch.new.open_structs ≡ reverse scratch.old.open_structs) }
{
    if depth > 0 {
        if let Some(integer) = source.number_type(item) {
            return add_numbers(source, integer, count, item, at, items);
        }
    }
    add_each(alloc, source, scratch, depth, count, item, at, items)
}

#[cycle(read)]
fn add_each(
    alloc: Global,
    source: &Source<'_>,
    scratch: &mut Scratch,
    depth: u32,
    count: u64,
    item: u32,
    at: u64,
    items: &mut Items<Field>,
) -> Result<u64, FieldError>
    requires { at ≤ 2 ^ 63 }
    ensures gives { GivesWith (read_items (read depth source.now) item (reverse scratch.old.open_structs) count items.old at) items.new result }
    ensures forward { IfOk result (λ end. (at ≤ end) × (end ≤ 2 ^ 63)) }
    ensures stays { OnOk result (reverse scratch.new.open_structs ≡ reverse scratch.old.open_structs) }
{
    let mut bit = at;
    for _index in 0..count {
        bit = add_item(alloc, source, scratch, depth, item, bit, items)?;
    }
    Ok(bit)
}

#[cycle(read)]
fn add_item(
    alloc: Global,
    source: &Source<'_>,
    scratch: &mut Scratch,
    depth: u32,
    item: u32,
    at: u64,
    items: &mut Items<Field>,
) -> Result<u64, FieldError>
    requires { at ≤ 2 ^ 63 }
    ensures gives { GivesWith (read_item (read depth source.now) item (reverse scratch.old.open_structs) items.old at) items.new result }
    ensures forward { IfOk result (λ end. (at ≤ end) × (end ≤ 2 ^ 63)) }
    ensures stays { OnOk result (reverse scratch.new.open_structs ≡ reverse scratch.old.open_structs) }
{
    let (field, end) = read(alloc, source, scratch, depth, None, item, at)?;
    items.push(field)?;
    Ok(end)
}
