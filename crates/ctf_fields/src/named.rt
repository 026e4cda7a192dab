//! Fields that are found by a name.
ghost use Rattle.std.specs.Prelude.{◌≡◌};
ghost use Rattle.std.specs.Option.{option_copied};
ghost use Rattle.ctf_fields.specs.Named.{first_at, first_in, first_member, first_named, last_at, last_in, last_member, last_named};

use crate::field::{Field, Member};
use trace_types::MAX_TYPE_DEPTH;
use type_table::{Table, is_same_name};

/// The first field of a name within a field, at any depth.
pub fn first_named<'a>(table: &Table, text: &[u8], field: Option<&'a Field>) -> Option<&'a Field>
    ensures { option_copied result ≡ first_named table.now.names text.now (option_copied field.entry) }
{
    first_in(table, text, MAX_TYPE_DEPTH, field?)
}

#[cycle(first)]
#[tactic(auto, unfolding(crate::specs::Named::first_in))]
fn first_in<'a>(table: &Table, text: &[u8], depth: u32, field: &'a Field) -> Option<&'a Field>
    ensures { option_copied result ≡ first_in depth table.now.names text.now field.now }
{
    if depth == 0 {
        return None;
    }
    match field {
        Field::Struct(members) => first_member(table, text, depth - 1, members.as_slice()),
        Field::Choice { name, field } => first_at(table, text, depth - 1, *name, field.get()),
        _ => None,
    }
}

#[cycle(first)]
fn first_member<'a>(
    table: &Table,
    text: &[u8],
    depth: u32,
    members: &'a [Member],
) -> Option<&'a Field>
    ensures { option_copied result ≡ first_member (first_in depth table.now.names text.now) table.now.names text.now members.now }
{
    for member in members {
        if let Some(field) = first_at(table, text, depth, member.name, &member.field) {
            return Some(field);
        }
    }
    None
}

// The field itself, or else one within it.
#[cycle(first)]
fn first_at<'a>(
    table: &Table,
    text: &[u8],
    depth: u32,
    name: u32,
    field: &'a Field,
) -> Option<&'a Field>
    ensures { option_copied result ≡ first_at (first_in depth table.now.names text.now) table.now.names text.now name field.now }
{
    if is_same_name(text, table.name(name)) {
        Some(field)
    } else {
        first_in(table, text, depth, field)
    }
}

/// The last field of a name within a field, at any depth.
pub fn last_named<'a>(table: &Table, text: &[u8], field: Option<&'a Field>) -> Option<&'a Field>
    ensures { option_copied result ≡ last_named table.now.names text.now (option_copied field.entry) }
{
    last_in(table, text, MAX_TYPE_DEPTH, field?)
}

#[cycle(last)]
#[tactic(auto, unfolding(crate::specs::Named::last_in))]
fn last_in<'a>(table: &Table, text: &[u8], depth: u32, field: &'a Field) -> Option<&'a Field>
    ensures { option_copied result ≡ last_in depth table.now.names text.now field.now }
{
    if depth == 0 {
        return None;
    }
    match field {
        Field::Struct(members) => last_member(table, text, depth - 1, members.as_slice()),
        Field::Choice { name, field } => last_at(table, text, depth - 1, *name, field.get()),
        _ => None,
    }
}

#[cycle(last)]
fn last_member<'a>(
    table: &Table,
    text: &[u8],
    depth: u32,
    members: &'a [Member],
) -> Option<&'a Field>
    ensures { option_copied result ≡ last_member (last_in depth table.now.names text.now) table.now.names text.now members.now }
{
    let mut found = None;
    for member in members {
        if let Some(field) = last_at(table, text, depth, member.name, &member.field) {
            found = Some(field);
        }
    }
    found
}

// One within the field, or else it.
#[cycle(last)]
fn last_at<'a>(
    table: &Table,
    text: &[u8],
    depth: u32,
    name: u32,
    field: &'a Field,
) -> Option<&'a Field>
    ensures { option_copied result ≡ last_at (last_in depth table.now.names text.now) table.now.names text.now name field.now }
{
    match last_in(table, text, depth, field) {
        Some(inner) => Some(inner),
        None if is_same_name(text, table.name(name)) => Some(field),
        None => None,
    }
}
