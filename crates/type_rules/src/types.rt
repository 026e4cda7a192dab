//! Types, and the structures and variants that are made of them.
ghost use Rattle.std.specs.Prelude.{◌≡◌, ◌<◌, ◌≤◌, ◌%◌, IfOk, length};
ghost use Rattle.tsdl_parser.specs.declared.tree.StructBody.{out-StructBody};
ghost use Rattle.tsdl_parser.specs.declared.tree.VariantTree.{out-VariantTree};
ghost use Rattle.type_scope.specs.TypeScopes.{Does, Gives, Gives_too};
ghost use Rattle.type_table.specs.Table.{tree_at};
ghost use Rattle.type_rules.specs.Typing as typing;
ghost use Rattle.type_rules.specs.Typing.{AlignSaid};
ghost use Rattle.type_scope.specs.View.{state};

use crate::enums::enum_type;
use crate::lists::lists;
use crate::typing::{alias, declare, integer_type, known_as, new_name, string_type};
use crate::values::is_align;
use sqlite_items::Items;
use std::alloc::Global;
use trace_types::Text;
use tsdl_parser::{FieldTree, StructBody, StructTree, TypeTree, VariantTree};
use type_scope::{BlockContext, PathUse, TypeScope, Use};
use type_table::{Fault, MetaItemCause, NameKind};

/// A type that is used so. Structures and variants may stand in one another so deep.
#[cycle(types)]
#[tactic(auto, unfolding(crate::specs::Typing::used_as))]
pub fn used_as(
    types: &mut TypeScope,
    alloc: Global,
    block_context: &BlockContext<'_>,
    depth: u32,
    role: Use,
    tree: &TypeTree,
) -> Result<u32, Fault>
    ensures { Gives (typing.used_as (typing.fields_within depth block_context.now) block_context.now role tree.now (state types.old).known) result (state types.new) }
{
    let (index, is_known) = type_of(types, alloc, block_context, depth, tree)?;
    if !types.may_be(role, index) {
        return Err(Fault::Breaks(MetaItemCause::BadAttribute));
    }
    if is_known {
        types.recheck(alloc, block_context, index)?;
    }
    Ok(index)
}

// A type, and whether it was declared before.
#[cycle(types)]
#[tactic(auto, unfolding(crate::specs::Typing::type_of))]
fn type_of(
    types: &mut TypeScope,
    alloc: Global,
    block_context: &BlockContext<'_>,
    depth: u32,
    tree: &TypeTree,
) -> Result<(u32, bool), Fault>
    ensures { Gives_too (typing.type_of (typing.fields_within depth block_context.now) block_context.now tree.now (state types.old).known) result (state types.new) }
{
    match tree {
        TypeTree::Integer(attrs) => {
            let index = integer_type(types, alloc, block_context, attrs.as_slice())?;
            Ok((index, false))
        }
        TypeTree::Float(_) => Err(Fault::Breaks(MetaItemCause::FloatType)),
        TypeTree::Str(attrs) => {
            let index = string_type(types, alloc, attrs)?;
            Ok((index, false))
        }
        TypeTree::Struct(tree) => struct_type(types, alloc, block_context, depth, tree),
        TypeTree::Variant(tree) => variant_type(types, alloc, block_context, depth, tree),
        TypeTree::Enum(tree) => enum_type(types, alloc, block_context, tree),
        TypeTree::Words(words) => {
            let index = alias(types, alloc, words.as_slice())?;
            Ok((index, true))
        }
    }
}

/// A structure, and whether it was declared before.
#[cycle(types)]
#[tactic(auto, unfolding(crate::specs::Typing::struct_type))]
pub fn struct_type(
    types: &mut TypeScope,
    alloc: Global,
    block_context: &BlockContext<'_>,
    depth: u32,
    tree: &StructTree,
) -> Result<(u32, bool), Fault>
    ensures { Gives_too (typing.struct_type (typing.fields_within depth block_context.now) tree.now (state types.old).known) result (state types.new) }
{
    match (&tree.body, &tree.name) {
        (Some(body), name) => {
            let index = new_struct(types, alloc, block_context, depth, name, body)?;
            Ok((index, false))
        }
        (None, Some(name)) => {
            let index = known_as(types, NameKind::Struct, name)?;
            Ok((index, true))
        }
        (None, None) => Err(Fault::Breaks(MetaItemCause::BadAttribute)),
    }
}

#[cycle(types)]
#[tactic(auto, unfolding(crate::specs::Typing::new_struct))]
fn new_struct(
    types: &mut TypeScope,
    alloc: Global,
    block_context: &BlockContext<'_>,
    depth: u32,
    name: &Option<Text>,
    body: &StructBody,
) -> Result<u32, Fault>
    ensures { Gives (typing.new_struct (typing.fields_within depth block_context.now) name.now (out-StructBody body.now).fields (out-StructBody body.now).align (state types.old).known) result (state types.new) }
{
    types.open(alloc, true)?;
    fields(types, alloc, block_context, depth, body.fields.as_slice())?;
    new_name(types, NameKind::Struct, name)?;
    let align = align_said(body.align)?;
    let index = types.end_struct(alloc, align)?;
    declare(types, alloc, NameKind::Struct, name, index)?;
    Ok(index)
}

fn align_said(align: Option<u64>) -> Result<u32, Fault>
    ensures said { AlignSaid align result }
    ensures aligns { IfOk result (λ align. (1 ≤ align) × (65536 % align ≡ 0)) }
{
    match align {
        None => Ok(1),
        Some(align) if is_align(align) => Ok(align as u32),
        Some(_) => Err(Fault::Breaks(MetaItemCause::BadAttribute)),
    }
}

/// A variant, and whether it was declared before.
#[cycle(types)]
#[tactic(auto, unfolding(crate::specs::Typing::variant_type))]
pub fn variant_type(
    types: &mut TypeScope,
    alloc: Global,
    block_context: &BlockContext<'_>,
    depth: u32,
    tree: &VariantTree,
) -> Result<(u32, bool), Fault>
    ensures { Gives_too (typing.variant_type (typing.fields_within depth block_context.now) block_context.now tree.now (state types.old).known) result (state types.new) }
{
    match (&tree.body, &tree.name) {
        (Some(body), _) => {
            let index = new_variant(types, alloc, block_context, depth, tree, body.as_slice())?;
            Ok((index, false))
        }
        (None, Some(name)) => {
            let index = known_as(types, NameKind::Variant, name)?;
            let index = retagged(types, alloc, &tree.tag, index)?;
            Ok((index, true))
        }
        (None, None) => Err(Fault::Breaks(MetaItemCause::BadAttribute)),
    }
}

#[cycle(types)]
#[tactic(auto, unfolding(crate::specs::Typing::new_variant))]
fn new_variant(
    types: &mut TypeScope,
    alloc: Global,
    block_context: &BlockContext<'_>,
    depth: u32,
    tree: &VariantTree,
    body: &[FieldTree],
) -> Result<u32, Fault>
    ensures { Gives (typing.new_variant (typing.fields_within depth block_context.now) block_context.now (out-VariantTree tree.now).name (out-VariantTree tree.now).tag body.now (state types.old).known) result (state types.new) }
{
    types.open(alloc, false)?;
    fields(types, alloc, block_context, depth, body)?;
    new_name(types, NameKind::Variant, &tree.name)?;
    let index = types.end_variant(alloc)?;
    declare(types, alloc, NameKind::Variant, &tree.name, index)?;
    tagged(types, alloc, block_context, &tree.tag, index)
}

// A variant with the tag that stands with its fields.
fn tagged(
    types: &mut TypeScope,
    alloc: Global,
    block_context: &BlockContext<'_>,
    tag: &Option<Items<Text>>,
    index: u32,
) -> Result<u32, Fault>
    requires { index < length (state types.old).types }
    ensures { Gives (typing.tagged block_context.now tag.now (tree_at (state types.old).types index) (state types.old).known) result (state types.new) }
{
    let Some(words) = tag else {
        return Ok(index);
    };
    let index = types.add_tagged(alloc, words.as_slice(), index)?;
    types.check_path(alloc, block_context, PathUse::Tag, words.as_slice())?;
    Ok(index)
}

// A variant that was declared before, with the tag that stands where it is used.
fn retagged(
    types: &mut TypeScope,
    alloc: Global,
    tag: &Option<Items<Text>>,
    index: u32,
) -> Result<u32, Fault>
    requires { index < length (state types.old).types }
    ensures { Gives (typing.retagged tag.now (tree_at (state types.old).types index) (state types.old).known) result (state types.new) }
{
    match tag {
        Some(words) => types.add_tagged(alloc, words.as_slice(), index),
        None => Ok(index),
    }
}

// The fields in the braces of a structure or a variant.
#[cycle(types)]
#[tactic(auto, unfolding(crate::specs::Typing::fields_within))]
fn fields(
    types: &mut TypeScope,
    alloc: Global,
    block_context: &BlockContext<'_>,
    depth: u32,
    body: &[FieldTree],
) -> Result<(), Fault>
    ensures { Does (typing.fields_within depth block_context.now body.now (state types.old).known) result (state types.new) }
{
    if depth == 0 {
        return Err(Fault::Breaks(MetaItemCause::BadAttribute));
    }
    for tree in body {
        field(types, alloc, block_context, depth - 1, tree)?;
    }
    Ok(())
}

#[cycle(types)]
#[tactic(auto, unfolding(crate::specs::Typing::field))]
fn field(
    types: &mut TypeScope,
    alloc: Global,
    block_context: &BlockContext<'_>,
    depth: u32,
    tree: &FieldTree,
) -> Result<(), Fault>
    ensures { Does (typing.field (typing.fields_within depth block_context.now) block_context.now tree.now (state types.old).known) result (state types.new) }
{
    let is_struct = matches!(tree.ty, TypeTree::Struct(_)) && tree.dims.is_empty();
    types.enter(alloc, &tree.name, is_struct)?;
    let index = used_as(types, alloc, block_context, depth, Use::Field, &tree.ty)?;
    let index = lists(types, alloc, block_context, tree.dims.as_slice(), index)?;
    types.add_field(alloc, &tree.name, index)
}
