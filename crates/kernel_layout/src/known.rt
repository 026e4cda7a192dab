//! Fields that are found by the numbers of their names.
ghost use Rattle.std.specs.Prelude.{◌≡◌, Some, IfOk};
ghost use Rattle.std.specs.Option.{option_copied};
ghost use Rattle.type_table.specs.Names.{same_name};
ghost use Rattle.type_table.specs.Table.{name_at};
ghost use Rattle.ctf_fields.specs.Named.{first_at, first_in, first_member, first_named};
ghost use Rattle.kernel_layout.specs.Sought.{known_of, sought_of, text_of};

use crate::sought::{Sought, sought_of};
use ctf_fields::{Field, Member};
use std::alloc::Global;
use trace_types::{MAX_TYPE_DEPTH, OutOfMemory};
use type_table::Table;

/// For each name of a table, by its number, the one that it counts as of those that are looked for. An empty name ends
/// the list. The only error is lack of memory.
pub fn known_of(alloc: Global, table: &Table) -> Result<Vec<Option<Sought>>, OutOfMemory>
    ensures { IfOk result (λ known. known.items ≡ known_of table.now.names) }
{
    table.is_sound();
    let mut known = Vec::new(alloc);
    for number in 0..u32::MAX {
        let name = table.name(number);
        if name.is_empty() {
            return Ok(known);
        }
        known.push(sought_of(name))?;
    }
    Ok(known)
}

/// The first field of a name within a field, at any depth. Names are compared by what is known of the table's.
pub fn first_known<'a>(
    table: &Table,
    known: &[Option<Sought>],
    sought: Sought,
    field: &'a Field,
) -> Option<&'a Field>
    requires { known.now ≡ known_of table.now.names }
    ensures { option_copied result ≡ first_named table.now.names (text_of sought) (Some field.now) }
{
    first_in(table, known, sought, MAX_TYPE_DEPTH, field)
}

#[cycle(first)]
#[tactic(auto, unfolding(ctf_fields::specs::Named::first_in))]
fn first_in<'a>(
    table: &Table,
    known: &[Option<Sought>],
    sought: Sought,
    depth: u32,
    field: &'a Field,
) -> Option<&'a Field>
    requires { known.now ≡ known_of table.now.names }
    ensures { option_copied result ≡ first_in depth table.now.names (text_of sought) field.now }
{
    if depth == 0 {
        return None;
    }
    match field {
        Field::Struct(members) => first_member(table, known, sought, depth - 1, members.as_slice()),
        Field::Choice { name, field } => {
            first_at(table, known, sought, depth - 1, *name, field.get())
        }
        _ => None,
    }
}

#[cycle(first)]
fn first_member<'a>(
    table: &Table,
    known: &[Option<Sought>],
    sought: Sought,
    depth: u32,
    members: &'a [Member],
) -> Option<&'a Field>
    requires { known.now ≡ known_of table.now.names }
    ensures { option_copied result ≡ first_member (first_in depth table.now.names (text_of sought)) table.now.names (text_of sought) members.now }
{
    for member in members {
        if let Some(field) = first_at(table, known, sought, depth, member.name, &member.field) {
            return Some(field);
        }
    }
    None
}

// The field itself, or else one within it.
#[cycle(first)]
fn first_at<'a>(
    table: &Table,
    known: &[Option<Sought>],
    sought: Sought,
    depth: u32,
    name: u32,
    field: &'a Field,
) -> Option<&'a Field>
    requires { known.now ≡ known_of table.now.names }
    ensures { option_copied result ≡ first_at (first_in depth table.now.names (text_of sought)) table.now.names (text_of sought) name field.now }
{
    if counts_as(table, known, name, sought) {
        return Some(field);
    }
    match field {
        Field::Int { .. } => None,
        _ => first_in(table, known, sought, depth, field),
    }
}

// Whether the name of this number counts as one that is looked for.
fn counts_as(table: &Table, known: &[Option<Sought>], name: u32, sought: Sought) -> bool
    requires { known.now ≡ known_of table.now.names }
    ensures { result ≡ same_name (text_of sought) (name_at table.now.names name) }
{
    match sought_at(table, known, name) {
        Some(found) => found == sought,
        None => false,
    }
}

/// The one that the name of this number counts as of those that are looked for, if any.
#[inline(always)]
pub fn sought_at(table: &Table, known: &[Option<Sought>], name: u32) -> Option<Sought>
    requires { known.now ≡ known_of table.now.names }
    ensures { result ≡ sought_of (name_at table.now.names name) }
{
    match known.get(name as usize) {
        Some(found) => *found,
        None => sought_of(table.name(name)),
    }
}
