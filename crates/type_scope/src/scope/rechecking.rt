//! The field paths in a type that was declared before.
ghost use Rattle.std.specs.Prelude.{◌≡◌, ◌<◌, ◌≤◌, length, IfOk, OnOk};
ghost use Rattle.type_scope.specs.TypeScopes.{Does};
ghost use Rattle.type_scope.specs.Rechecked.{passed, rechecked, rechecked_all, rechecked_field, rechecked_inside};
ghost use Rattle.type_table.specs.Table.{AreBelow, FieldNamesIn, FieldsIn, fields_at, name_at, tree, tree_at, trees, field_path_of};
ghost use Rattle.type_scope.specs.View.{state};
ghost use Rattle.type_scope.specs.declared.field_path.PathUse.TheVariants as path_uses;

use crate::block_context::BlockContext;
use crate::field_path::PathUse;
use crate::scope::TypeScope;
use sqlite_items::Items;
use std::alloc::{AllocError, Global};
use type_table::{Fault, FieldMeta, Reference, TypeMeta};

impl TypeScope {
    /// Looks at the field paths in a type that was declared before, from here. A type without variants and sequences
    /// has none, so it costs no walk.
    pub fn recheck(
        &mut self,
        alloc: Global,
        block_context: &BlockContext<'_>,
        index: u32,
    ) -> Result<(), Fault>
        requires { index < length (state self.old).types }
        ensures step { Does (rechecked block_context.now (tree_at (state self.old).types index) (state self.old).known) result (state self.new) }
        ensures types { OnOk result ((state self.new).types ≡ (state self.old).types) }
    {
        self.recheck_at(alloc, block_context, index)
    }

    #[cycle(recheck)]
    fn recheck_at(
        &mut self,
        alloc: Global,
        block_context: &BlockContext<'_>,
        index: u32,
    ) -> Result<(), Fault>
        requires { index < length self.old.table.types }
        ensures step { Does (rechecked block_context.now (tree self.old.table index) (state self.old).known) result (state self.new) }
        ensures table { OnOk result (self.new.table ≡ self.old.table) }
    {
        if !self.table.type_size(index).has_paths {
            return Ok(());
        }
        match self.table.get(index) {
            TypeMeta::Integer(_) | TypeMeta::Enum { .. } | TypeMeta::Str => Ok(()),
            TypeMeta::Struct { fields, .. } => {
                let fields = Items::from_slice(alloc, fields.as_slice())?;
                self.recheck_inside(alloc, block_context, true, index, fields)
            }
            TypeMeta::Variant { tag, fields } => {
                let fields = Items::from_slice(alloc, fields.as_slice())?;
                let tag = copied(alloc, tag)?;
                self.recheck_inside(alloc, block_context, false, index, fields)?;
                self.pass_tag(alloc, block_context, tag)
            }
            TypeMeta::Array { item, .. } => {
                let item = *item;
                self.recheck_at(alloc, block_context, item)
            }
            TypeMeta::Sequence { length, item } => {
                let length = copied(alloc, length)?;
                let item = *item;
                self.recheck_at(alloc, block_context, item)?;
                let resolution = self.resolve_path(alloc, block_context, PathUse::Length, &length)?;
                self.settle(resolution, PathUse::Length, length)
            }
        }
    }

    // The fields of a structure or a variant, in a frame of their own.
    #[cycle(recheck)]
    fn recheck_inside(
        &mut self,
        alloc: Global,
        block_context: &BlockContext<'_>,
        is_struct: bool,
        above: u32,
        fields: Items<FieldMeta>,
    ) -> Result<(), Fault>
        requires above { above ≤ length self.old.table.types }
        requires types { FieldsIn above fields }
        requires names { FieldNamesIn (length self.old.table.names) fields }
        ensures step { Does (rechecked_inside block_context.now is_struct (fields_at self.old.table.names (trees self.old.table) fields) (state self.old).known) result (state self.new) }
        ensures table { OnOk result (self.new.table ≡ self.old.table) }
    {
        self.open(alloc, is_struct)?;
        self.recheck_all(alloc, block_context, above, fields.as_slice())?;
        self.close(alloc);
        Ok(())
    }

    #[cycle(recheck)]
    fn recheck_all(
        &mut self,
        alloc: Global,
        block_context: &BlockContext<'_>,
        above: u32,
        fields: &[FieldMeta],
    ) -> Result<(), Fault>
        requires above { above ≤ length self.old.table.types }
        requires types { FieldsIn above fields.now }
        requires names { FieldNamesIn (length self.old.table.names) fields.now }
        ensures step { Does (rechecked_all block_context.now (fields_at self.old.table.names (trees self.old.table) fields.now) (state self.old).known) result (state self.new) }
        ensures table { OnOk result (self.new.table ≡ self.old.table) }
    {
        for field in fields {
            self.recheck_field(alloc, block_context, above, *field)?;
        }
        Ok(())
    }

    #[cycle(recheck)]
    fn recheck_field(
        &mut self,
        alloc: Global,
        block_context: &BlockContext<'_>,
        above: u32,
        field: FieldMeta,
    ) -> Result<(), Fault>
        requires above { above ≤ length self.old.table.types }
        requires there { field.ty < above }
        requires name { field.name < length self.old.table.names }
        ensures step { Does (rechecked_field block_context.now (name_at self.old.table.names field.name) (tree self.old.table field.ty) (state self.old).known) result (state self.new) }
        ensures table { OnOk result (self.new.table ≡ self.old.table) }
    {
        let is_struct = matches!(self.table.get(field.ty), TypeMeta::Struct { .. });
        self.enter_known(if is_struct { Some(field.name) } else { None })?;
        self.recheck_at(alloc, block_context, field.ty)?;
        self.add_known(field)
    }

    // The field path to a variant's tag, if it has one.
    fn pass_tag(
        &mut self,
        alloc: Global,
        block_context: &BlockContext<'_>,
        tag: Reference,
    ) -> Result<(), Fault>
        requires { AreBelow (length self.old.table.names) tag.words }
        ensures step { Does (passed block_context.now path_uses.Tag (field_path_of self.old.table.names tag) (state self.old).known) result (state self.new) }
        ensures table { OnOk result (self.new.table ≡ self.old.table) }
    {
        match (tag.scope, tag.words.as_slice()) {
            (None, []) => Ok(()),
            _ => {
                let resolution = self.resolve_path(alloc, block_context, PathUse::Tag, &tag)?;
                self.settle(resolution, PathUse::Tag, tag)
            }
        }
    }
}

fn copied(alloc: Global, field_path: &Reference) -> Result<Reference, AllocError>
    ensures { IfOk result (λ copy. copy ≡ field_path.now) }
{
    let words = Items::from_slice(alloc, field_path.words.as_slice())?;
    Ok(Reference {
        scope: field_path.scope,
        words,
    })
}
