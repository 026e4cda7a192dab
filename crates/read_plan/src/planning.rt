//! Plans by which headers are read.
ghost use Rattle.std.specs.Prelude.{◌≡◌, ◌≤◌, ◌%◌, ◌||◌, IfOk, IfSome, None, Some, slice_get};
ghost use Rattle.ctf_fields.specs.Choice.{first_named, labels_in};
ghost use Rattle.ctf_fields.specs.Leaves.{IsReadable};
ghost use Rattle.read_plan.specs.Headers.{AreReadable, AreReadableOptions, IsPlanFor, IsReadablePlan, IsReadableRow, behind_numbers, header_number, header_plan, is_id, is_tag, is_timestamp, leading_numbers, option_of, options_of, planned_behind, planned_by, planned_last, planned_options, planned_variant, row_by, tag_type};

use crate::header::{HeaderNumber, HeaderOption, HeaderPlan, MAX_PLANNED, NumberRow};
use ctf_fields::{integer_type, type_at};
use sqlite_items::Items;
use std::alloc::Global;
use trace_types::OutOfMemory;
use type_table::{FieldMeta, Integer, LabelMeta, Reference, Table, TypeMeta, is_same_name};

/// How headers of the type at an index are read without keeping their fields, where they are numbers and at most one
/// variant of structures of numbers behind them. The only error is lack of memory.
pub fn header_plan(alloc: Global, table: &Table, ty: u32) -> Result<Option<HeaderPlan>, OutOfMemory>
    ensures is { IfOk result (λ plan. plan ≡ header_plan table.now ty) }
    ensures readable { IfOk result (λ plan. IfSome plan IsReadablePlan) }
    ensures sound { IfOk result (λ plan. IfSome plan (IsPlanFor table.now ty)) }
{
    planned(alloc, table, ty)
}

fn planned(alloc: Global, table: &Table, ty: u32) -> Result<Option<HeaderPlan>, OutOfMemory>
    ensures is { IfOk result (λ plan. plan ≡ header_plan table.now ty) }
    ensures readable { IfOk result (λ plan. IfSome plan IsReadablePlan) }
{
    let Some(TypeMeta::Struct { align, fields }) = type_at(table, ty) else {
        return Ok(None);
    };
    if fields.len() > MAX_PLANNED {
        return Ok(None);
    }
    planned_struct(alloc, table, *align, fields.as_slice())
}

// By the fields behind the numbers: none, or a variant alone.
#[tactic(auto, using(crate::proofs::Leading::leading_few))]
fn planned_struct(
    alloc: Global,
    table: &Table,
    align: u32,
    fields: &[FieldMeta],
) -> Result<Option<HeaderPlan>, OutOfMemory>
    requires aligns { (1 ≤ align) × (65536 % align ≡ 0) }
    ensures is { IfOk result (λ plan. plan ≡ planned_behind table.now align fields.now (behind_numbers table.now fields.now)) }
    ensures readable { IfOk result (λ plan. IfSome plan IsReadablePlan) }
{
    let numbers = leading_numbers(alloc, table, None, fields)?;
    let behind = &fields[numbers.len()..];
    match behind {
        [] => Ok(Some(HeaderPlan {
            first: NumberRow { align, numbers },
            options: None,
        })),
        [last] => planned_last(alloc, table, align, fields, *last),
        _ => Ok(None),
    }
}

// Where the last field is a variant that isn't called as what is looked for.
fn planned_last(
    alloc: Global,
    table: &Table,
    align: u32,
    fields: &[FieldMeta],
    last: FieldMeta,
) -> Result<Option<HeaderPlan>, OutOfMemory>
    requires aligns { (1 ≤ align) × (65536 % align ≡ 0) }
    ensures is { IfOk result (λ plan. plan ≡ planned_last table.now align fields.now last.name (slice_get table.now.types last.ty)) }
    ensures readable { IfOk result (λ plan. IfSome plan IsReadablePlan) }
{
    let Some(
        TypeMeta::Variant {
            tag,
            fields: options,
        },
    ) = type_at(table, last.ty)
    else {
        return Ok(None);
    };
    if is_looked_for(table, last.name) {
        return Ok(None);
    }
    planned_variant(alloc, table, align, fields, tag, options.as_slice())
}

// Where the variant's tag is one of the numbers.
fn planned_variant(
    alloc: Global,
    table: &Table,
    align: u32,
    fields: &[FieldMeta],
    tag: &Reference,
    options: &[FieldMeta],
) -> Result<Option<HeaderPlan>, OutOfMemory>
    requires aligns { (1 ≤ align) × (65536 % align ≡ 0) }
    ensures is { IfOk result (λ plan. plan ≡ planned_variant table.now align fields.now tag.now.scope tag.now.words options.now) }
    ensures readable { IfOk result (λ plan. IfSome plan IsReadablePlan) }
{
    if tag.scope.is_some() {
        return Ok(None);
    }
    let [name] = tag.words.as_slice() else {
        return Ok(None);
    };
    let numbers = leading_numbers(alloc, table, Some(*name), fields)?;
    let Some(ty) = tag_type(numbers.as_slice()) else {
        return Ok(None);
    };
    let first = NumberRow { align, numbers };
    planned_options(alloc, table, first, options, labels_of(table, ty))
}

fn planned_options(
    alloc: Global,
    table: &Table,
    first: NumberRow,
    fields: &[FieldMeta],
    labels: &[LabelMeta],
) -> Result<Option<HeaderPlan>, OutOfMemory>
    requires { IsReadableRow first }
    ensures is { IfOk result (λ plan. plan ≡ planned_options table.now first.align first.numbers fields.now labels.now) }
    ensures readable { IfOk result (λ plan. IfSome plan IsReadablePlan) }
{
    if fields.len() > MAX_PLANNED || labels.len() > MAX_PLANNED {
        return Ok(None);
    }
    let Some(options) = options_of(alloc, table, fields, labels)? else {
        return Ok(None);
    };
    Ok(Some(HeaderPlan {
        first,
        options: Some(options),
    }))
}

// What the labels choose, where each is a structure of numbers.
fn options_of(
    alloc: Global,
    table: &Table,
    fields: &[FieldMeta],
    labels: &[LabelMeta],
) -> Result<Option<Items<HeaderOption>>, OutOfMemory>
    ensures is { IfOk result (λ options. options ≡ options_of table.now fields.now labels.now) }
    ensures readable { IfOk result AreReadableOptions }
{
    let mut options = Items::new(alloc);
    for label in labels {
        match option_of(alloc, table, *label, first_named(table, label.name, fields))? {
            Some(option) => options.append(option)?,
            None => return Ok(None),
        }
    }
    Ok(Some(options))
}

// What a label chooses: nothing where it names no field.
fn option_of(
    alloc: Global,
    table: &Table,
    label: LabelMeta,
    field: Option<FieldMeta>,
) -> Result<Option<Items<HeaderOption>>, OutOfMemory>
    ensures is { IfOk result (λ options. options ≡ option_of table.now label field) }
    ensures readable { IfOk result AreReadableOptions }
{
    let mut options = Items::new(alloc);
    let Some(field) = field else {
        return Ok(Some(options));
    };
    if is_looked_for(table, field.name) {
        return Ok(None);
    }
    let Some(row) = row_at(alloc, table, field.ty)? else {
        return Ok(None);
    };
    options.push(HeaderOption {
        low: label.low,
        high: label.high,
        row,
    })?;
    Ok(Some(options))
}

// The structure of numbers that the type at an index is.
fn row_at(alloc: Global, table: &Table, ty: u32) -> Result<Option<NumberRow>, OutOfMemory>
    ensures is { IfOk result (λ row. row ≡ row_by table.now (slice_get table.now.types ty)) }
    ensures readable { IfOk result (λ row. IfSome row IsReadableRow) }
{
    let Some(TypeMeta::Struct { align, fields }) = type_at(table, ty) else {
        return Ok(None);
    };
    if fields.len() > MAX_PLANNED {
        return Ok(None);
    }
    let numbers = leading_numbers(alloc, table, None, fields.as_slice())?;
    if numbers.len() < fields.len() {
        return Ok(None);
    }
    Ok(Some(NumberRow {
        align: *align,
        numbers,
    }))
}

// The numbers that fields begin with.
fn leading_numbers(
    alloc: Global,
    table: &Table,
    tag: Option<u32>,
    fields: &[FieldMeta],
) -> Result<Items<HeaderNumber>, OutOfMemory>
    ensures is { IfOk result (λ numbers. numbers ≡ leading_numbers table.now tag fields.now) }
    ensures readable { IfOk result AreReadable }
{
    let mut numbers = Items::new(alloc);
    for field in fields {
        let Some(integer) = integer_type(table, field.ty) else {
            break;
        };
        numbers.push(header_number(table, tag, *field, integer))?;
    }
    Ok(numbers)
}

fn header_number(
    table: &Table,
    tag: Option<u32>,
    field: FieldMeta,
    integer: Integer,
) -> HeaderNumber
    ensures { result ≡ header_number table.now tag field integer }
{
    HeaderNumber {
        integer,
        ty: field.ty,
        is_id: is_same_name(b"id", table.name(field.name)),
        is_timestamp: is_same_name(b"timestamp", table.name(field.name)),
        is_tag: is_tag(table, tag, field.name),
    }
}

fn is_tag(table: &Table, tag: Option<u32>, name: u32) -> bool
    ensures { result ≡ is_tag table.now tag name }
{
    match tag {
        Some(tag) => is_same_name(table.name(tag), table.name(name)),
        None => false,
    }
}

// The type of the last tag among numbers.
fn tag_type(numbers: &[HeaderNumber]) -> Option<u32>
    ensures { result ≡ tag_type numbers.now }
{
    let mut ty = None;
    for number in numbers {
        if number.is_tag {
            ty = Some(number.ty);
        }
    }
    ty
}

// The labels of an enumeration.
fn labels_of(table: &Table, ty: u32) -> &[LabelMeta]
    ensures { result.now ≡ labels_in (slice_get table.now.types ty) }
{
    match type_at(table, ty) {
        Some(TypeMeta::Enum { labels, .. }) => labels.as_slice(),
        _ => &[],
    }
}

// The first field of a name.
fn first_named(table: &Table, name: u32, fields: &[FieldMeta]) -> Option<FieldMeta>
    ensures { result ≡ first_named table.now.names name fields.now }
{
    for field in fields {
        if is_same_name(table.name(name), table.name(field.name)) {
            return Some(*field);
        }
    }
    None
}

// Whether a field is called as the numbers that are looked for.
fn is_looked_for(table: &Table, name: u32) -> bool
    ensures { result ≡ is_id table.now name || is_timestamp table.now name }
{
    is_same_name(b"id", table.name(name)) || is_same_name(b"timestamp", table.name(name))
}
