//! The types of enumerations.
ghost use Rattle.std.specs.Prelude.{◌≡◌};
ghost use Rattle.type_scope.specs.TypeScopes.{Gives, Gives_too};
ghost use Rattle.type_rules.specs.Typing as typing;
ghost use Rattle.type_scope.specs.View.{state};

use crate::typing::{alias, declare, integer_type, known_as, new_name};
use std::alloc::Global;
use trace_types::Text;
use tsdl_parser::{EnumBase, EnumTree, Label};
use type_scope::{BlockContext, TypeScope};
use type_table::{Fault, MetaItemCause, NameKind};

/// An enumeration, and whether it was declared before.
#[tactic(auto, unfolding(crate::specs::Typing::enum_type))]
pub fn enum_type(
    types: &mut TypeScope,
    alloc: Global,
    block_context: &BlockContext<'_>,
    tree: &EnumTree,
) -> Result<(u32, bool), Fault>
    ensures { Gives_too (typing.enum_type block_context.now tree.now (state types.old).known) result (state types.new) }
{
    match (&tree.labels, &tree.name) {
        (Some(labels), _) => {
            let index = new_enum(types, alloc, block_context, tree, labels.as_slice())?;
            Ok((index, false))
        }
        (None, Some(name)) => {
            let index = known_enum(types, alloc, block_context, name, &tree.base)?;
            Ok((index, true))
        }
        (None, None) => Err(Fault::Breaks(MetaItemCause::BadAttribute)),
    }
}

#[tactic(auto, unfolding(crate::specs::Typing::new_enum))]
fn new_enum(
    types: &mut TypeScope,
    alloc: Global,
    block_context: &BlockContext<'_>,
    tree: &EnumTree,
    labels: &[Label],
) -> Result<u32, Fault>
    ensures { Gives (typing.new_enum block_context.now tree.now.name tree.now.base labels.now (state types.old).known) result (state types.new) }
{
    let base = base_or_int(types, alloc, block_context, &tree.base)?;
    new_name(types, NameKind::Enum, &tree.name)?;
    if !types.is_whole(base) {
        return Err(Fault::Breaks(MetaItemCause::BadAttribute));
    }
    let index = types.add_enum(alloc, base, labels)?;
    declare(types, alloc, NameKind::Enum, &tree.name, index)?;
    Ok(index)
}

// The base of an enumeration that was declared before is an integer, too, if it is given.
fn known_enum(
    types: &mut TypeScope,
    alloc: Global,
    block_context: &BlockContext<'_>,
    name: &Text,
    base: &Option<EnumBase>,
) -> Result<u32, Fault>
    ensures { Gives (typing.known_enum block_context.now name.now base.now (state types.old).known) result (state types.new) }
{
    match base {
        None => known_as(types, NameKind::Enum, name),
        Some(base) => {
            let base = base_type(types, alloc, block_context, base)?;
            let index = known_as(types, NameKind::Enum, name)?;
            if !types.is_whole(base) {
                return Err(Fault::Breaks(MetaItemCause::BadAttribute));
            }
            Ok(index)
        }
    }
}

#[tactic(auto, unfolding(crate::specs::Typing::base_or_int))]
fn base_or_int(
    types: &mut TypeScope,
    alloc: Global,
    block_context: &BlockContext<'_>,
    base: &Option<EnumBase>,
) -> Result<u32, Fault>
    ensures { Gives (typing.base_or_int block_context.now base.now (state types.old).known) result (state types.new) }
{
    match base {
        Some(base) => base_type(types, alloc, block_context, base),
        None => {
            let int = Text::from_bytes(alloc, b"int")?;
            alias(types, alloc, &[int])
        }
    }
}

#[tactic(auto, unfolding(crate::specs::Typing::base_type))]
fn base_type(
    types: &mut TypeScope,
    alloc: Global,
    block_context: &BlockContext<'_>,
    base: &EnumBase,
) -> Result<u32, Fault>
    ensures { Gives (typing.base_type block_context.now base.now (state types.old).known) result (state types.new) }
{
    match base {
        EnumBase::Integer(attrs) => integer_type(types, alloc, block_context, attrs.as_slice()),
        EnumBase::Words(words) => alias(types, alloc, words.as_slice()),
    }
}
