//! The items of a text.
ghost use Rattle.std.specs.Prelude.{◌≡◌, ◌<◌, ◌+◌, ◌^◌, length};
ghost use Rattle.tsdl_types.specs.Items as items;
ghost use Rattle.tsdl_types.specs.Items.{Declares, IsRefused, declared_in};
ghost use Rattle.type_scope.specs.TypeScopes.{Does};
ghost use Rattle.type_table.specs.Table.{tree_at};
ghost use Rattle.type_rules.specs.Typing.{looked_at};
ghost use Rattle.type_scope.specs.View.{state};

use crate::error::MetaError;
use crate::whole_blocks::block_of;
use std::alloc::Global;
use trace_types::{ByteOrderKind, MAX_BRACES};
use tsdl_parser::{Decl, Item};
use type_rules::{declare, enum_type, new_name, struct_type, used_as, variant_type};
use type_scope::{BlockContext, TypeScope, Use, Written};
use type_table::{Fault, NameKind, spaced};

/// What the items of a text declare. Integers that don't tell their byte order have this one.
pub fn declare_types(
    alloc: Global,
    order: ByteOrderKind,
    decls: &[Decl],
) -> Result<TypeScope, MetaError>
    ensures { Declares (λ k. (state k).known) (declared_in order decls.now) result }
{
    let mut types = TypeScope::new(alloc);
    for at in 0..decls.len() {
        if let Err(fault) = item_of(&mut types, alloc, order, &decls[at].item) {
            return Err(refused(at, fault));
        }
    }
    Ok(types)
}

// The item at this index is refused.
fn refused(at: usize, fault: Fault) -> MetaError
    requires { at + 1 < 2 ^ 64 }
    ensures { IsRefused at fault result }
{
    match fault {
        Fault::Breaks(cause) => MetaError::Item {
            item: at as u64 + 1,
            cause,
        },
        Fault::OutOfMemory => MetaError::OutOfMemory,
    }
}

#[tactic(auto, unfolding(crate::specs::Items::item_of, type_rules::specs::Typing::used_as, type_rules::specs::Typing::type_of))]
fn item_of(
    types: &mut TypeScope,
    alloc: Global,
    order: ByteOrderKind,
    item: &Item,
) -> Result<(), Fault>
    ensures { Does (items.item_of order item.now (state types.old).known) result (state types.new) }
{
    let nothing = Written::nothing();
    let block_context = &BlockContext::new(order, None, &nothing);
    match item {
        Item::Alias { ty, words } => {
            let index = used_as(types, alloc, block_context, MAX_BRACES, Use::Alone, ty)?;
            let name = Some(spaced(alloc, words.as_slice())?);
            new_name(types, NameKind::Alias, &name)?;
            declare(types, alloc, NameKind::Alias, &name, index)
        }
        Item::Struct(tree) => {
            let (index, is_known) = struct_type(types, alloc, block_context, MAX_BRACES, tree)?;
            look(types, alloc, block_context, index, is_known)
        }
        Item::Variant(tree) => {
            let (index, is_known) = variant_type(types, alloc, block_context, MAX_BRACES, tree)?;
            look(types, alloc, block_context, index, is_known)
        }
        Item::Enum(tree) => {
            let (index, is_known) = enum_type(types, alloc, block_context, tree)?;
            look(types, alloc, block_context, index, is_known)
        }
        Item::Block { kind, entries } => {
            block_of(types, alloc, order, *kind, entries.as_slice())
        }
    }
}

// Looks at the field paths in a type that was declared before.
fn look(
    types: &mut TypeScope,
    alloc: Global,
    block_context: &BlockContext<'_>,
    index: u32,
    is_known: bool,
) -> Result<(), Fault>
    requires { index < length (state types.old).types }
    ensures { Does (looked_at block_context.now is_known (tree_at (state types.old).types index) (state types.old).known) result (state types.new) }
{
    if is_known {
        types.recheck(alloc, block_context, index)
    } else {
        Ok(())
    }
}
