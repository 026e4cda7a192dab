//! Integers and enumerations in structures and lists, which are most of all fields.
ghost use Rattle.std.specs.Prelude.{◌≡◌, ◌≤◌, ◌%◌, ◌^◌, [], Some, IfOk};
ghost use Rattle.std.specs.Int.{next_multiple_of};
ghost use Rattle.ctf_fields.specs.Leaves.{IsReadable};
ghost use Rattle.ctf_fields.specs.Reading.{Gives, GivesWith, member_read, numbers, read_item, read_items, read_list, read_number};

use crate::error::FieldError;
use crate::field::{Field, Member};
use crate::leaves::next_bit;
use crate::open_struct::OpenStruct;
use crate::source::Source;
use sqlite_items::Items;
use std::alloc::{AllocError, Global};
use type_table::{FieldMeta, Integer};

/// One more field of a structure, of this integer, and the bit after it.
#[inline(always)]
pub fn add_number_member(
    source: &Source<'_>,
    inner: &mut OpenStruct,
    integer: Integer,
    meta: FieldMeta,
    at: u64,
) -> Result<u64, FieldError>
    requires at { at ≤ 2 ^ 63 }
    requires readable { IsReadable integer }
    ensures gives { GivesWith (member_read (read_number source.now meta.ty (Some integer) at) meta inner.old) inner.new result }
    ensures forward { IfOk result (λ end. (at ≤ end) × (end ≤ 2 ^ 63)) }
{
    let Some((value, end)) = source.read_integer(integer, at) else {
        return Err(FieldError::ShortContent);
    };
    let ty = meta.ty;
    inner.fields.push(Member {
        name: meta.name,
        field: Field::Int { ty, value },
    })?;
    Ok(end)
}

/// One more field of a structure, an array of integers, and the bit after it.
pub fn add_array_member(
    alloc: Global,
    source: &Source<'_>,
    inner: &mut OpenStruct,
    array: (Integer, u64, u32),
    meta: FieldMeta,
    at: u64,
) -> Result<u64, FieldError>
    requires at { at ≤ 2 ^ 63 }
    requires readable { IsReadable array.0 }
    ensures gives { GivesWith (member_read (read_list (numbers source.now array.0) source.now.table array.1 array.2 [] at) meta inner.old) inner.new result }
    ensures forward { IfOk result (λ end. (at ≤ end) × (end ≤ 2 ^ 63)) }
{
    let (field, end) = read_array(alloc, source, array, at)?;
    inner.fields.push(Member {
        name: meta.name,
        field,
    })?;
    Ok(end)
}

fn read_array(
    alloc: Global,
    source: &Source<'_>,
    array: (Integer, u64, u32),
    at: u64,
) -> Result<(Field, u64), FieldError>
    requires at { at ≤ 2 ^ 63 }
    requires readable { IsReadable array.0 }
    ensures gives { Gives (read_list (numbers source.now array.0) source.now.table array.1 array.2 [] at) result }
    ensures forward { IfOk result (λ r. (at ≤ r.1) × (r.1 ≤ 2 ^ 63)) }
{
    let (integer, count, item) = array;
    let bit = aligned(at, source.align_at(item));
    let mut items = room_for(alloc, count.min(source.bits_left(bit)))?;
    let end = add_numbers(source, integer, count, item, bit, &mut items)?;
    Ok((Field::List { item, items }, end))
}

/// The first bit from here that is aligned so.
#[tactic(auto, using(crate::proofs::Aligned::within_all))]
pub fn aligned(at: u64, align: u32) -> u64
    requires at { at ≤ 2 ^ 63 }
    requires aligns { (1 ≤ align) × (65536 % align ≡ 0) }
    ensures is { result ≡ next_multiple_of at align }
    ensures within { (at ≤ result) × (result ≤ 2 ^ 63) }
{
    next_bit(at, align)
}

/// An empty list with room for so many items.
pub fn room_for<T: Drop>(alloc: Global, count: u64) -> Result<Items<T>, AllocError>
    ensures { IfOk result (λ list. list ≡ []) }
{
    Ok(Items::from_vec(Vec::with_capacity(alloc, count as usize)?))
}

/// So many items of this integer, one after the other, and the bit after them.
pub fn add_numbers(
    source: &Source<'_>,
    integer: Integer,
    count: u64,
    item: u32,
    at: u64,
    items: &mut Items<Field>,
) -> Result<u64, FieldError>
    requires at { at ≤ 2 ^ 63 }
    requires readable { IsReadable integer }
    ensures gives { GivesWith (read_items (numbers source.now integer) item [] count items.old at) items.new result }
    ensures forward { IfOk result (λ end. (at ≤ end) × (end ≤ 2 ^ 63)) }
{
    let mut bit = at;
    for _index in 0..count {
        bit = add_number(source, integer, item, bit, items)?;
    }
    Ok(bit)
}

#[inline(always)]
fn add_number(
    source: &Source<'_>,
    integer: Integer,
    item: u32,
    at: u64,
    items: &mut Items<Field>,
) -> Result<u64, FieldError>
    requires at { at ≤ 2 ^ 63 }
    requires readable { IsReadable integer }
    ensures gives { GivesWith (read_item (numbers source.now integer) item [] items.old at) items.new result }
    ensures forward { IfOk result (λ end. (at ≤ end) × (end ≤ 2 ^ 63)) }
{
    let Some((value, end)) = source.read_integer(integer, at) else {
        return Err(FieldError::ShortContent);
    };
    items.push(Field::Int { ty: item, value })?;
    Ok(end)
}
