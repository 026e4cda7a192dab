//! Two fields that are found by their names in one walk.
ghost use Rattle.std.specs.Prelude.{◌≡◌};
ghost use Rattle.std.specs.Option.{option_copied};
ghost use Rattle.ctf_fields.specs.Fields.{or_else};
ghost use Rattle.ctf_fields.specs.Named.{first_at, first_in, first_member, first_named, last_at, last_in, last_member, last_named};

use crate::field::{Field, Member};
use trace_types::MAX_TYPE_DEPTH;
use type_table::{Table, is_same_name};

/// The last field of one name and the first of another.
#[derive(Clone, Copy)]
pub struct LastAndFirst<'a> {
    pub last: Option<&'a Field>,
    pub first: Option<&'a Field>,
}

/// The last field of the one name, and the first of the other, within a field, at any depth.
pub fn last_and_first<'a>(
    table: &Table,
    last: &[u8],
    first: &[u8],
    field: Option<&'a Field>,
) -> LastAndFirst<'a>
    ensures last { option_copied result.last ≡ last_named table.now.names last.now (option_copied field.entry) }
    ensures first { option_copied result.first ≡ first_named table.now.names first.now (option_copied field.entry) }
{
    let none = LastAndFirst {
        last: None,
        first: None,
    };
    match field {
        Some(field) => last_and_first_in(table, last, first, MAX_TYPE_DEPTH, field, none),
        None => none,
    }
}

#[cycle(last_and_first)]
#[tactic(auto, unfolding(crate::specs::Named::first_in, crate::specs::Named::last_in))]
fn last_and_first_in<'a>(
    table: &Table,
    last: &[u8],
    first: &[u8],
    depth: u32,
    field: &'a Field,
    found: LastAndFirst<'a>,
) -> LastAndFirst<'a>
    ensures last { option_copied result.last ≡ or_else (last_in depth table.now.names last.now field.now) (option_copied found.entry.last) }
    ensures first { option_copied result.first ≡ or_else (option_copied found.entry.first) (first_in depth table.now.names first.now field.now) }
{
    if depth == 0 {
        return found;
    }
    match field {
        Field::Struct(members) => {
            last_and_first_member(table, last, first, depth - 1, members.as_slice(), found)
        }
        Field::Choice { name, field } => {
            last_and_first_at(table, last, first, depth - 1, *name, field.get(), found)
        }
        _ => found,
    }
}

#[cycle(last_and_first)]
fn last_and_first_member<'a>(
    table: &Table,
    last: &[u8],
    first: &[u8],
    depth: u32,
    members: &'a [Member],
    found: LastAndFirst<'a>,
) -> LastAndFirst<'a>
    ensures last { option_copied result.last ≡ or_else (last_member (last_in depth table.now.names last.now) table.now.names last.now members.now) (option_copied found.entry.last) }
    ensures first { option_copied result.first ≡ or_else (option_copied found.entry.first) (first_member (first_in depth table.now.names first.now) table.now.names first.now members.now) }
{
    let mut both = found;
    for member in members {
        both = last_and_first_at(table, last, first, depth, member.name, &member.field, both);
    }
    both
}

// A field stands before those within it.
#[cycle(last_and_first)]
fn last_and_first_at<'a>(
    table: &Table,
    last: &[u8],
    first: &[u8],
    depth: u32,
    name: u32,
    field: &'a Field,
    found: LastAndFirst<'a>,
) -> LastAndFirst<'a>
    ensures last { option_copied result.last ≡ or_else (last_at (last_in depth table.now.names last.now) table.now.names last.now name field.now) (option_copied found.entry.last) }
    ensures first { option_copied result.first ≡ or_else (option_copied found.entry.first) (first_at (first_in depth table.now.names first.now) table.now.names first.now name field.now) }
{
    let text = table.name(name);
    let mut both = found;
    if is_same_name(last, text) {
        both.last = Some(field);
    }
    if both.first.is_none() && is_same_name(first, text) {
        both.first = Some(field);
    }
    match field {
        Field::Int { .. } => both,
        _ => last_and_first_in(table, last, first, depth, field, both),
    }
}
