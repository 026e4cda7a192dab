//! How many bits types take that take as many wherever they begin at a whole byte.
ghost use Rattle.std.specs.Prelude.{◌≡◌, ◌+◌, ◌<◌, ◌≤◌, ◌^◌, IfErr, IfOk};
ghost use Rattle.ctf_fields.specs.declared.error.FieldError.TheVariants as error;
ghost use Rattle.read_plan.specs.FixedSizes.{array_size, joined, members_from, no_size, number_size, one_around, repeated, size_at, sized, sizes_of, struct_size, with_field, within_byte};

use ctf_fields::{FieldError, align_at, integer_type, type_at};
use std::alloc::Global;
use trace_types::{MAX_TYPE_DEPTH, OutOfMemory};
use type_table::{FieldMeta, Integer, Table, TypeMeta};

/// How many bits a type takes, and how many types deep it goes.
#[derive(Clone, Copy, Debug, PartialEq, Eq)]
pub struct FixedSize {
    pub bits: u64,
    pub depth: u32,
}

/// The sizes of a table's types, by their indices: none of a type that takes more or fewer bits by what it holds or by
/// where it begins. Each type is looked at once. The only error is lack of memory.
#[tactic(auto, using(crate::proofs::Passing::one_more), unfolding(crate::specs::FixedSizes::sizes_of_first))]
pub fn fixed_sizes(alloc: Global, table: &Table) -> Result<Vec<Option<FixedSize>>, OutOfMemory>
    ensures { IfOk result (λ sizes. sizes.items ≡ sizes_of table.now) }
{
    if table.len() > u32::MAX as usize {
        return Err(OutOfMemory);
    }
    let mut sizes = Vec::new(alloc);
    for index in 0..table.len() as u32 {
        let size = sized(table, sizes.as_slice(), index);
        sizes.push(size)?;
    }
    Ok(sizes)
}

/// The size of the type at an index.
pub fn size_at(sizes: &[Option<FixedSize>], index: u32) -> Option<FixedSize>
    ensures { result ≡ size_at sizes.now index }
{
    match sizes.get(index as usize) {
        Some(size) => *size,
        None => None,
    }
}

/// The bit after what takes so many bits from this one on. The only error is `ShortContent`.
pub fn skip_fixed(end: u64, at: u64, bits: u64) -> Result<u64, FieldError>
    requires at { at ≤ 2 ^ 63 }
    requires end { end ≤ 2 ^ 63 }
    ensures passed { IfOk result (λ next. (next ≡ at + bits) × (1 ≤ bits → at + bits ≤ end)) }
    ensures short { IfErr result (λ e. (e ≡ error.ShortContent) × (1 ≤ bits) × (end < at + bits)) }
{
    if bits == 0 {
        return Ok(at);
    }
    if at > end || bits > end - at {
        return Err(FieldError::ShortContent);
    }
    Ok(at + bits)
}

// The size of a type, by those of the types before it.
fn sized(table: &Table, sizes: &[Option<FixedSize>], index: u32) -> Option<FixedSize>
    ensures { result ≡ sized table.now sizes.now index }
{
    match type_at(table, index)? {
        TypeMeta::Struct { align, fields } => struct_size(sizes, *align, fields.as_slice()),
        TypeMeta::Array { length, item } => array_size(table, sizes, *length, *item),
        _ => number_size(integer_type(table, index)?),
    }
}

/// The size of an integer of whole bytes.
pub fn number_size(integer: Integer) -> Option<FixedSize>
    requires { 1 ≤ integer.align }
    ensures { result ≡ number_size integer }
{
    if integer.size >= 1 && integer.size % 8 == 0 && within_byte(integer.align) {
        Some(FixedSize {
            bits: u64::from(integer.size),
            depth: 1,
        })
    } else {
        None
    }
}

/// Whether whole bytes are aligned so: to so many bits, of which 8 is a multiple.
pub fn within_byte(align: u32) -> bool
    requires { 1 ≤ align }
    ensures { result ≡ within_byte align }
{
    8 % align == 0
}

fn struct_size(sizes: &[Option<FixedSize>], align: u32, fields: &[FieldMeta]) -> Option<FixedSize>
    requires { 1 ≤ align }
    ensures { result ≡ struct_size sizes.now align fields.now }
{
    if !within_byte(align) {
        return None;
    }
    one_around(members_size(sizes, fields)?)
}

fn members_size(sizes: &[Option<FixedSize>], fields: &[FieldMeta]) -> Option<FixedSize>
    ensures { result ≡ members_from sizes.now no_size fields.now }
{
    let mut sum = FixedSize { bits: 0, depth: 0 };
    for field in fields {
        sum = with_field(sizes, sum, field.ty)?;
    }
    Some(sum)
}

// The size of one more field after those that take so much.
fn with_field(sizes: &[Option<FixedSize>], sum: FixedSize, ty: u32) -> Option<FixedSize>
    ensures { result ≡ with_field sizes.now sum ty }
{
    joined(sum, size_at(sizes, ty)?)
}

fn array_size(
    table: &Table,
    sizes: &[Option<FixedSize>],
    count: u64,
    item: u32,
) -> Option<FixedSize>
    ensures { result ≡ array_size table.now sizes.now count item }
{
    if !within_byte(align_at(table, item)) {
        return None;
    }
    one_around(repeated(count, size_at(sizes, item)?)?)
}

/// What two sizes take one after the other, where 64 bits hold it.
pub fn joined(a: FixedSize, b: FixedSize) -> Option<FixedSize>
    ensures { result ≡ joined a b }
{
    let bits = a.bits.checked_add(b.bits)?;
    Some(FixedSize {
        bits,
        depth: a.depth.max(b.depth),
    })
}

fn repeated(count: u64, size: FixedSize) -> Option<FixedSize>
    ensures { result ≡ repeated count size }
{
    let bits = count.checked_mul(size.bits)?;
    Some(FixedSize {
        bits,
        depth: size.depth,
    })
}

// A type that is one deeper than what stands in it.
fn one_around(inside: FixedSize) -> Option<FixedSize>
    ensures { result ≡ one_around inside }
{
    if inside.depth >= MAX_TYPE_DEPTH {
        return None;
    }
    Some(FixedSize {
        bits: inside.bits,
        depth: inside.depth + 1,
    })
}
