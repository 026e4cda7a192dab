//! Types with field paths to their tags and lengths, and the field paths themselves.
ghost use Rattle.std.specs.Prelude.{◌≡◌, ◌<◌, length, map, IfOk, OnOk};
ghost use Rattle.type_scope.specs.TypeScopes.{Does, Gives, fields_inside, sized};
ghost use Rattle.type_table.specs.PerScope.{of_scope};
ghost use Rattle.type_scope.specs.References.{resolve_from, resolve_earlier, check_path, settled, field_path_said};
ghost use Rattle.type_table.specs.Table.{AreBelow, FieldNamesIn, FieldsIn, fields_at, name_at, tree_at, trees, field_path_or_here};
ghost use Rattle.type_table.specs.Types.{Sequence, Variant};
ghost use Rattle.type_scope.specs.View.{state};

use crate::block_context::BlockContext;
use crate::field_path::{PathUse, Resolution};
use crate::scope::references::{leads_from, rank, resolve_here, resolve_reading};
use crate::scope::{DeferredPath, TypeScope};
use sqlite_items::Items;
use std::alloc::{AllocError, Global};
use trace_types::{OutOfMemory, Text};
use type_table::{Fault, FieldMeta, MetaItemCause, Reference, ScopeName, TypeMeta, VariantFields};

impl TypeScope {
    /// Notes a field path from here, which leads to what it may lead to, or which the end of the block decides on.
    pub fn check_path(
        &mut self,
        alloc: Global,
        block_context: &BlockContext<'_>,
        path_use: PathUse,
        words: &[Text],
    ) -> Result<(), Fault>
        ensures step { Does (check_path block_context.now path_use words.now (state self.old).known) result (state self.new) }
        ensures types { OnOk result ((state self.new).types ≡ (state self.old).types) }
    {
        let field_path = self.reference(alloc, words)?;
        let resolution = self.resolve_path(alloc, block_context, path_use, &field_path)?;
        self.settle(resolution, path_use, field_path)
    }

    /// What is said of a field path from here.
    #[tactic(auto, unfolding(crate::specs::View::state))]
    pub fn resolve_path(
        &self,
        alloc: Global,
        block_context: &BlockContext<'_>,
        path_use: PathUse,
        field_path: &Reference,
    ) -> Result<Resolution, OutOfMemory>
        requires { AreBelow (length self.now.table.names) field_path.now.words }
        ensures { IfOk result (λ said. said ≡ resolve_from block_context.now (state self.now).known path_use field_path.now.scope (map (name_at self.now.table.names) field_path.now.words)) }
    {
        let names = field_path.words.as_slice();
        match (field_path.scope, block_context.reading()) {
            (None, _) => Ok(resolve_here(&self.table, self.frames.as_slice(), path_use, names)),
            (Some(scope), Some(reading)) if rank(scope) == rank(reading) => {
                Ok(resolve_reading(&self.table, self.frames.as_slice(), path_use, names))
            }
            (Some(scope), Some(reading)) if rank(scope) < rank(reading) => {
                self.resolve_earlier(alloc, block_context, path_use, scope, names)
            }
            _ => Ok(Resolution::Invalid),
        }
    }

    // A field path into a scope that is read before.
    #[tactic(auto, unfolding(crate::specs::View::state))]
    fn resolve_earlier(
        &self,
        alloc: Global,
        block_context: &BlockContext<'_>,
        path_use: PathUse,
        scope: ScopeName,
        names: &[u32],
    ) -> Result<Resolution, OutOfMemory>
        requires { AreBelow (length self.now.table.names) names.now }
        ensures { IfOk result (λ said. said ≡ resolve_earlier block_context.now (state self.now).known path_use scope (map (name_at self.now.table.names) names.now) (of_scope scope (state self.now).known.scopes)) }
    {
        match (*self.scopes.of(scope), block_context.tree_of(scope)) {
            (Some(index), _) if leads_from(&self.table, path_use, index, names) => {
                Ok(Resolution::Resolved)
            }
            (None, Some(tree)) => {
                let leads = self.may_lead(alloc, path_use, names, tree)?;
                Ok(if leads {
                    Resolution::Deferred
                } else {
                    Resolution::Invalid
                })
            }
            _ => Ok(Resolution::Invalid),
        }
    }

    /// Refuses a field path that breaks, and keeps one that waits.
    #[tactic(auto, unfolding(crate::specs::View::state), using(crate::proofs::DeferredPaths::deferred_kept, crate::proofs::DeferredPaths::deferred_more))]
    pub fn settle(
        &mut self,
        resolution: Resolution,
        path_use: PathUse,
        field_path: Reference,
    ) -> Result<(), Fault>
        requires { AreBelow (length self.old.table.names) field_path.words }
        ensures step { Does (settled resolution path_use field_path.scope (map (name_at self.old.table.names) field_path.words) (state self.old).known) result (state self.new) }
        ensures table { OnOk result (self.new.table ≡ self.old.table) }
        ensures types { OnOk result ((state self.new).types ≡ (state self.old).types) }
    {
        match (resolution, field_path.scope) {
            (Resolution::Resolved, _) => Ok(()),
            (Resolution::Deferred, Some(scope)) => {
                let words = field_path.words;
                self.deferred.push(DeferredPath {
                    path_use,
                    scope,
                    words,
                })?;
                Ok(())
            }
            _ => Err(Fault::Breaks(MetaItemCause::BadReference)),
        }
    }

    /// Adds a list whose length stands in a field.
    pub fn add_sequence(&mut self, alloc: Global, words: &[Text], item: u32) -> Result<u32, Fault>
        requires { item < length (state self.old).types }
        ensures { Gives (sized (Sequence (field_path_or_here (field_path_said words.now)) (tree_at (state self.old).types item)) (state self.old).known) result (state self.new) }
    {
        let length = self.reference(alloc, words)?;
        self.push(TypeMeta::Sequence { length, item })
    }

    /// Adds a variant of the fields of one, with a tag.
    pub fn add_tagged(&mut self, alloc: Global, words: &[Text], index: u32) -> Result<u32, Fault>
        requires { index < length (state self.old).types }
        ensures { Gives (sized (Variant (field_path_said words.now) (fields_inside (tree_at (state self.old).types index))) (state self.old).known) result (state self.new) }
    {
        let tag = self.reference(alloc, words)?;
        let fields = self.fields_inside(alloc, index)?;
        self.push(TypeMeta::Variant {
            tag,
            fields: VariantFields::from_items(alloc, fields)?,
        })
    }

    // The fields of a variant.
    fn fields_inside(&self, alloc: Global, index: u32) -> Result<Items<FieldMeta>, AllocError>
        requires { index < length self.now.table.types }
        ensures { IfOk result (λ fs. FieldsIn (length self.now.table.types) fs × FieldNamesIn (length self.now.table.names) fs × (fields_at self.now.table.names (trees self.now.table) fs ≡ fields_inside (tree_at (trees self.now.table) index))) }
    {
        match self.table.get(index) {
            TypeMeta::Variant { fields, .. } => Items::from_slice(alloc, fields.as_slice()),
            _ => Ok(Items::new(alloc)),
        }
    }
}
