//! What a text has declared up to a point in it, and what is being read there.
ghost use Rattle.std.specs.Prelude.{◌≡◌, ◌<◌, ◌∷◌, [], None, Some, length, IfOk, OnOk, IfSome, IfNone};
ghost use Rattle.type_scope.specs.TypeScopes.{Gives, empty_scope, sized, type_named, with_name};
ghost use Rattle.type_table.specs.Table.{IsBased, IsSound, Keeps, NamesIn, RefersIn, name_at, shape, tree_at, trees};
ghost use Rattle.type_scope.specs.View.{state, with_table};

mod ahead;
mod built;
mod declaring;
mod ending;
mod field_paths;
mod frames;
mod kinds;
mod rechecking;
mod references;

use crate::field_path::PathUse;
use crate::name_map::NameMap;
use sqlite_items::Items;
use std::alloc::Global;
use std::marker::Model;
use trace_types::{OutOfMemory, Text};
use type_table::{Declared, Fault, FieldMeta, NameKind, PerScope, ScopeName, Table, TypeMeta};

/// A structure or a variant that is being read: its fields so far, and the number of the name of the one
/// whose structure is read now, if it is one.
#[derive(Drop)]
pub struct Frame {
    pub is_struct: bool,
    pub inner: Option<u32>,
    pub fields: Items<FieldMeta>,
}

/// A field path into a scope that is declared further on in the same block. The words are numbers of names.
#[derive(Drop)]
pub struct DeferredPath {
    pub path_use: PathUse,
    pub scope: ScopeName,
    pub words: Items<u32>,
}

/// What is known, by indices in a table of types. Contracts see the types' trees.
#[derive(Drop)]
pub struct TypeScope {
    table: Table,
    aliases: NameMap,
    structs: NameMap,
    variants: NameMap,
    enums: NameMap,
    // the innermost last
    frames: Items<Frame>,
    scopes: PerScope<Option<u32>>,
    deferred: Items<DeferredPath>,
    declared: Declared,
}

impl Model for TypeScope {
    ghost use Rattle.type_scope.specs.View.{TypeScopeModel, IsKept};

    ghost Value = { TypeScopeModel };

    ghost view = { λ k. record { table = k.table; aliases = k.aliases; structs = k.structs; variants = k.variants; enums = k.enums; frames = k.frames; scopes = k.scopes; deferred = k.deferred; declared = k.declared } };

    ghost invariant = { λ k. IsKept k.table (record { table = k.table; aliases = k.aliases; structs = k.structs; variants = k.variants; enums = k.enums; frames = k.frames; scopes = k.scopes; deferred = k.deferred; declared = k.declared }) };
}

impl TypeScope {
    /// Nothing. It takes no memory.
    #[tactic(auto, unfolding(crate::specs::View::state))]
    pub fn new(alloc: Global) -> TypeScope
        ensures { state result ≡ record { types = []; known = empty_scope } }
    {
        TypeScope {
            table: Table::new(alloc),
            aliases: NameMap::new(alloc),
            structs: NameMap::new(alloc),
            variants: NameMap::new(alloc),
            enums: NameMap::new(alloc),
            frames: Items::new(alloc),
            scopes: PerScope::none(),
            deferred: Items::new(alloc),
            declared: Declared::new(alloc),
        }
    }

    // Adds a type whose names and types are there.
    #[tactic(auto, unfolding(crate::specs::View::state))]
    fn push(&mut self, meta: TypeMeta) -> Result<u32, Fault>
        requires names { NamesIn (length self.old.table.names) meta }
        requires refers { RefersIn (length self.old.table.types) meta }
        requires based { IsBased (trees self.old.table) meta }
        requires sound { IsSound meta }
        ensures { Gives (sized (shape self.old.table.names (trees self.old.table) meta) (state self.old).known) result (state self.new) }
    {
        self.table.push(meta)
    }

    // The number of a name.
    #[tactic(auto, unfolding(crate::specs::View::state))]
    fn intern(&mut self, alloc: Global, name: &Text) -> Result<u32, OutOfMemory>
        ensures stays { OnOk result (state self.new ≡ state self.old) }
        ensures beside { OnOk result (self.new ≡ with_table self.new.table self.old) }
        ensures keeps { OnOk result (Keeps self.old.table self.new.table) }
        ensures named { IfOk result (λ n. (n < length self.new.table.names) × (name_at self.new.table.names n ≡ name.now)) }
    {
        self.table.intern(alloc, name)
    }

    /// The index of the type of a name.
    #[tactic(auto, unfolding(crate::specs::View::state), using(crate::proofs::Named::found_named, crate::proofs::Named::none_named))]
    pub fn find(&self, kind: NameKind, name: &Text) -> Option<u32>
        ensures found { IfSome result (λ p. (type_named kind name.now (state self.now).known ≡ Some (tree_at (state self.now).types p)) × (p < length (state self.now).types)) }
        ensures none { IfNone result (type_named kind name.now (state self.now).known ≡ None) }
    {
        match kind {
            NameKind::Alias => self.aliases.find(name),
            NameKind::Struct => self.structs.find(name),
            NameKind::Variant => self.variants.find(name),
            NameKind::Enum => self.enums.find(name),
        }
    }

    /// Gives a type a name that is free.
    #[tactic(auto, unfolding(crate::specs::View::state), using(crate::proofs::Named::free_named, crate::proofs::Named::named_kept, crate::proofs::Named::named_more))]
    pub fn declare(
        &mut self,
        alloc: Global,
        kind: NameKind,
        name: &Text,
        index: u32,
    ) -> Result<(), OutOfMemory>
        requires there { index < length (state self.old).types }
        requires free { type_named kind name.now (state self.old).known ≡ None }
        ensures known { OnOk result ((state self.new).known ≡ with_name kind name.now (tree_at (state self.old).types index) (state self.old).known) }
        ensures types { OnOk result ((state self.new).types ≡ (state self.old).types) }
    {
        match kind {
            NameKind::Alias => self.aliases.add(alloc, name, index),
            NameKind::Struct => self.structs.add(alloc, name, index),
            NameKind::Variant => self.variants.add(alloc, name, index),
            NameKind::Enum => self.enums.add(alloc, name, index),
        }
    }

    /// The types so far.
    pub fn table(&self) -> &Table
        ensures { result.now ≡ self.now.table }
    {
        &self.table
    }
}
