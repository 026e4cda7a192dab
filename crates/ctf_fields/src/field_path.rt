//! Where the field paths of tags and lengths lead.
ghost use Rattle.std.specs.Prelude.{◌≡◌, reverse};
ghost use Rattle.std.specs.Option.{option_copied};
ghost use Rattle.ctf_fields.specs.Fields.{field_of, follow, from_here, from_inside, from_outside, is_entered, member, nearest, number_of, same};

use crate::field::{Field, Member};
use crate::names::is_same;
use crate::open_struct::{OpenStruct, Scopes};
use type_table::{Reference, Table};

/// The number that a field path leads to, with the index of its type, from the structures that are being read, the
/// innermost last.
pub fn number_at(
    table: &Table,
    scopes: &Scopes,
    open_structs: &[OpenStruct],
    field_path: &Reference,
) -> Option<(i128, u32)>
    ensures { result ≡ number_of (field_of table.now.names scopes.now (reverse open_structs.now) field_path.now) }
{
    match field_of(table, scopes, open_structs, field_path)? {
        Field::Int { value, ty } => Some((*value, *ty)),
        _ => None,
    }
}

fn field_of<'a>(
    table: &Table,
    scopes: &'a Scopes,
    open_structs: &'a [OpenStruct],
    field_path: &Reference,
) -> Option<&'a Field>
    ensures { option_copied result ≡ field_of table.now.names scopes.now (reverse open_structs.now) field_path.now }
{
    let words = field_path.words.as_slice();
    let Some(scope) = field_path.scope else {
        return from_here(table, open_structs, words);
    };
    match scopes.of(scope).as_ref() {
        Some(field) => follow(table, Some(field), words),
        None => from_outside(table, open_structs, words),
    }
}

// A field path from the innermost structure outward.
fn from_here<'a>(table: &Table, open_structs: &'a [OpenStruct], words: &[u32]) -> Option<&'a Field>
    ensures { option_copied result ≡ from_here table.now.names (reverse open_structs.now) words.now }
{
    let [name, rest @ ..] = words else {
        return None;
    };
    follow(table, from_inside(table, *name, open_structs), rest)
}

// The field of a name of the innermost structure that has one.
fn from_inside<'a>(table: &Table, name: u32, open_structs: &'a [OpenStruct]) -> Option<&'a Field>
    ensures { option_copied result ≡ from_inside table.now.names name (reverse open_structs.now) }
{
    let [outer @ .., inner] = open_structs else {
        return None;
    };
    match nearest(table, name, inner.fields.as_slice()) {
        Some(field) => Some(field),
        None => from_inside(table, name, outer),
    }
}

// A field path from the outermost structure inward, through those that are being read.
fn from_outside<'a>(
    table: &Table,
    open_structs: &'a [OpenStruct],
    words: &[u32],
) -> Option<&'a Field>
    ensures { option_copied result ≡ from_outside table.now.names open_structs.now words.now }
{
    let [outer, inner @ ..] = open_structs else {
        return None;
    };
    let [name, rest @ ..] = words else {
        return None;
    };
    if is_entered(table, *name, inner) {
        from_outside(table, inner, rest)
    } else {
        let field = nearest(table, *name, outer.fields.as_slice());
        follow(table, field, rest)
    }
}

// Whether the structure inside is a field of this name.
fn is_entered(table: &Table, name: u32, inner: &[OpenStruct]) -> bool
    ensures { result ≡ is_entered table.now.names name inner.now }
{
    match inner {
        [next, ..] => match next.name {
            Some(inner) => is_same(table, name, inner),
            None => false,
        },
        [] => false,
    }
}

// The field after further names.
fn follow<'a>(table: &Table, field: Option<&'a Field>, words: &[u32]) -> Option<&'a Field>
    ensures { option_copied result ≡ follow table.now.names (option_copied field.entry) words.now }
{
    let mut at = field;
    for name in words {
        at = member(table, *name, at);
    }
    at
}

// The field of this name of a structure.
fn member<'a>(table: &Table, name: u32, field: Option<&'a Field>) -> Option<&'a Field>
    ensures { option_copied result ≡ member table.now.names name (option_copied field.entry) }
{
    let Field::Struct(members) = field? else {
        return None;
    };
    nearest(table, name, members.as_slice())
}

// The nearest field of a name.
fn nearest<'a>(table: &Table, name: u32, members: &'a [Member]) -> Option<&'a Field>
    ensures { option_copied result ≡ nearest table.now.names name members.now }
{
    for behind in 0..members.len() {
        let member = &members[members.len() - 1 - behind];
        if is_same(table, name, member.name) {
            return Some(&member.field);
        }
    }
    None
}
