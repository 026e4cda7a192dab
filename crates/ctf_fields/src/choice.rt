//! The field of a variant that is chosen. Among a few fields the one of a label's name is found by comparing
//! texts, among more by the numbers of the name's two spellings.
ghost use Rattle.std.specs.Prelude.{◌≡◌, ◌<◌, length, option_and_then, slice_get, true, IfOk};
ghost use Rattle.std.specs.Option.{option_copied};
ghost use Rattle.ctf_fields.specs.Choice.{by_label, by_labels, chosen, earlier, first_named, labels_in};
ghost use Rattle.type_table.specs.Labels.{holding, holds};
ghost use Rattle.type_table.specs.Table.{FieldNamesIn, LabelNamesIn};
ghost use Rattle.type_table.specs.VariantFields.{first_of};

use crate::names::is_same;
use crate::source::Source;
use std::alloc::Global;
use trace_types::OutOfMemory;
use type_table::{FEW_FIELDS, FieldMeta, LabelMeta, Table, TypeMeta, VariantFields};

/// The field of a variant that the tag chooses, a number with the index of its type.
#[tactic(auto, using(crate::proofs::Holding::by_holding))]
pub fn chosen(
    alloc: Global,
    source: &Source<'_>,
    tag: Option<(i128, u32)>,
    fields: &VariantFields,
) -> Result<Option<FieldMeta>, OutOfMemory>
    requires { FieldNamesIn (length source.now.table.names) fields.now }
    ensures { IfOk result (λ field. field ≡ chosen source.now.table tag fields.now) }
{
    let Some((value, ty)) = tag else {
        return Ok(None);
    };
    match source.type_at(ty) {
        Some(TypeMeta::Enum { labels, .. }) => {
            by_labels(alloc, source.table(), value, labels.around(value), fields)
        }
        _ => Ok(None),
    }
}

// The field that the first label chooses which holds the value and names one.
fn by_labels(
    alloc: Global,
    table: &Table,
    value: i128,
    labels: &[LabelMeta],
    fields: &VariantFields,
) -> Result<Option<FieldMeta>, OutOfMemory>
    requires labels { LabelNamesIn (length table.now.names) (holding value labels.now) }
    requires fields { FieldNamesIn (length table.now.names) fields.now }
    ensures { IfOk result (λ field. field ≡ by_labels table.now.names value labels.now fields.now) }
{
    for label in labels {
        if let Some(field) = by_label(alloc, table, value, *label, fields)? {
            return Ok(Some(field));
        }
    }
    Ok(None)
}

fn by_label(
    alloc: Global,
    table: &Table,
    value: i128,
    label: LabelMeta,
    fields: &VariantFields,
) -> Result<Option<FieldMeta>, OutOfMemory>
    requires label { holds value label ≡ true → label.name < length table.now.names }
    requires fields { FieldNamesIn (length table.now.names) fields.now }
    ensures { IfOk result (λ field. field ≡ by_label table.now.names value label fields.now) }
{
    if label.low <= value && value <= label.high {
        first_named(alloc, table, label.name, fields)
    } else {
        Ok(None)
    }
}

// The first field of a name, among more than a few by the numbers of its two spellings. Among a few, comparing texts costs less
// than looking up the other spelling.
#[tactic(auto, using(crate::proofs::TwoSpellings::first_by_numbers))]
fn first_named(
    alloc: Global,
    table: &Table,
    name: u32,
    fields: &VariantFields,
) -> Result<Option<FieldMeta>, OutOfMemory>
    requires name { name < length table.now.names }
    requires fields { FieldNamesIn (length table.now.names) fields.now }
    ensures { IfOk result (λ field. field ≡ first_named table.now.names name fields.now) }
{
    let all = fields.as_slice();
    if all.len() <= FEW_FIELDS {
        return Ok(first_alike(table, name, all));
    }
    let other = table.other_number(alloc, name)?;
    let index = earlier(fields.first_of(name), first_of_any(fields, other));
    Ok(field_at(all, index))
}

// The first field of a name, by the names' texts, one field after the other.
fn first_alike(table: &Table, name: u32, fields: &[FieldMeta]) -> Option<FieldMeta>
    ensures { result ≡ first_named table.now.names name fields.now }
{
    for field in fields {
        if is_same(table, name, field.name) {
            return Some(*field);
        }
    }
    None
}

// The index of the first field of a number, if there is one.
fn first_of_any(fields: &VariantFields, number: Option<u32>) -> Option<usize>
    ensures { result ≡ option_and_then (λ n. first_of n fields.now) number }
{
    fields.first_of(number?)
}

// The field at an index, if there is one.
fn field_at(fields: &[FieldMeta], index: Option<usize>) -> Option<FieldMeta>
    ensures { result ≡ option_and_then (slice_get fields.now) index }
{
    fields.get(index?).copied()
}

// The smaller of two indices, where there are both.
fn earlier(a: Option<usize>, b: Option<usize>) -> Option<usize>
    ensures { result ≡ earlier a b }
{
    match (a, b) {
        (Some(a), Some(b)) => Some(a.min(b)),
        (Some(a), None) => Some(a),
        (None, b) => b,
    }
}
