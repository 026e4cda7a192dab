//! The types of integers, strings, enumerations and aliases.
ghost use Rattle.std.specs.Prelude.{◌≡◌, ◌<◌, OnOk, length, true};
ghost use Rattle.type_scope.specs.TypeScopes.{Does, Gives, declared, is_free, known_as, new_name};
ghost use Rattle.type_table.specs.Table.{tree_at};
ghost use Rattle.type_rules.specs.Typing as typing;
ghost use Rattle.type_scope.specs.View.{state};

use crate::integer::{is_twice, read_integer};
use sqlite_items::Items;
use std::alloc::Global;
use trace_types::Text;
use tsdl_parser::Attr;
use type_scope::{BlockContext, TypeScope};
use type_table::{Fault, MetaItemCause, NameKind, spaced};

/// An integer.
#[tactic(auto, unfolding(crate::specs::Typing::integer_type, crate::specs::Typing::integer))]
pub fn integer_type(
    types: &mut TypeScope,
    alloc: Global,
    block_context: &BlockContext<'_>,
    attrs: &[Attr],
) -> Result<u32, Fault>
    ensures { Gives (typing.integer_type block_context.now attrs.now (state types.old).known) result (state types.new) }
{
    let integer = read_integer(alloc, block_context.order(), types.clocks(), attrs)?;
    types.add_integer(integer)
}

/// A string.
pub fn string_type(
    types: &mut TypeScope,
    alloc: Global,
    attrs: &Option<Items<Attr>>,
) -> Result<u32, Fault>
    ensures { Gives (typing.string_type attrs.now (state types.old).known) result (state types.new) }
{
    if let Some(attrs) = attrs
        && is_twice(alloc, attrs.as_slice())?
    {
        return Err(Fault::Breaks(MetaItemCause::BadAttribute));
    }
    types.add_string()
}

/// The type of a name of this kind.
pub fn known_as(types: &TypeScope, kind: NameKind, name: &Text) -> Result<u32, Fault>
    ensures { Gives (known_as kind name.now (state types.now).known) result (state types.now) }
{
    match types.find(kind, name) {
        Some(index) => Ok(index),
        None => Err(Fault::Breaks(MetaItemCause::UnknownType)),
    }
}

/// The type of an alias.
#[tactic(auto, unfolding(crate::specs::Typing::alias))]
pub fn alias(types: &TypeScope, alloc: Global, words: &[Text]) -> Result<u32, Fault>
    ensures { Gives (typing.alias words.now (state types.now).known) result (state types.now) }
{
    match words {
        [word] => known_as(types, NameKind::Alias, word),
        _ => {
            let name = spaced(alloc, words)?;
            known_as(types, NameKind::Alias, &name)
        }
    }
}

/// Whether a name, if there is one, is free.
pub fn new_name(types: &mut TypeScope, kind: NameKind, name: &Option<Text>) -> Result<(), Fault>
    ensures step { Does (new_name kind name.now (state types.old).known) result (state types.new) }
    ensures stays { types.new ≡ types.old }
{
    match name {
        Some(name) if types.find(kind, name).is_some() => {
            Err(Fault::Breaks(MetaItemCause::DuplicateId))
        }
        _ => Ok(()),
    }
}

/// Gives a type a name, if there is one, that is free.
pub fn declare(
    types: &mut TypeScope,
    alloc: Global,
    kind: NameKind,
    name: &Option<Text>,
    index: u32,
) -> Result<(), Fault>
    requires there { index < length (state types.old).types }
    requires free { is_free kind name.now (state types.old).known ≡ true }
    ensures step { Does (declared kind name.now (tree_at (state types.old).types index) (state types.old).known) result (state types.new) }
    ensures types { OnOk result ((state types.new).types ≡ (state types.old).types) }
{
    if let Some(name) = name {
        types.declare(alloc, kind, name, index)?;
    }
    Ok(())
}
