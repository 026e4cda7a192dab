//! The types of a text, each by its index, and the names that they use.
ghost use Rattle.std.specs.Prelude.{◌≡◌, ◌<◌, ◌↔◌, ◌≤◌, ◌%◌, [], slice_get, Some, IsTrue, length, true, false, IfNone, IfOk, IfSome, OnOk};
ghost use Rattle.type_table.specs.TypeSizes.{type_size_of};
ghost use Rattle.type_table.specs.Faults.{OnBreak};
ghost use Rattle.type_table.specs.Names.{AreDistinct, other_number};
ghost use Rattle.type_table.specs.Table.{FieldsIn, IsBased, IsSound, IsSoundTable, Keeps, NamesIn, RefersIn, fields_at, name_at, shape, tree, trees};
ghost use Rattle.type_table.specs.Types.{MAX_TYPE_DEPTH, MAX_NODES, depth, fits, nodes, nodes_of_all, widest};
ghost use Rattle.type_table.specs.declared.cause.MetaItemCause.TheVariants as causes;

use crate::cause::MetaItemCause;
use crate::fault::Fault;
use crate::few::are_few;
use crate::meta::{FieldMeta, TypeMeta};
use crate::names::other_spelling;
use crate::type_size::{TypeSize, meta_type_size, sum_of, type_size_at};
use indexmap::IndexSet;
use sqlite_items::Items;
use std::alloc::Global;
use std::marker::Model;
use trace_types::{OutOfMemory, Text};

/// Types by their indices, and names by their numbers. Contracts see both lists.
#[derive(Debug, Drop)]
pub struct Table {
    names: IndexSet<Text>,
    types: Items<TypeMeta>,
    type_sizes: Items<TypeSize>,
}

impl Model for Table {
    ghost use Rattle.type_table.specs.Table.{Table as SpecTable, IsTable};

    ghost Value = { SpecTable };

    ghost view = { λ t. record { names = t.names.keys; types = t.types } };

    ghost invariant = { λ t. IsTable (record { names = t.names.keys; types = t.types }) t.type_sizes };
}

impl Table {
    /// No type. It takes no memory.
    pub fn new(alloc: Global) -> Table
        ensures { result ≡ record { names = []; types = [] } }
    {
        Table {
            names: IndexSet::new(alloc),
            types: Items::new(alloc),
            type_sizes: Items::new(alloc),
        }
    }

    /// The number of a name, which it gets where it has none.
    #[tactic(auto, using(crate::proofs::Keeping::keeps_same))]
    pub fn intern(&mut self, alloc: Global, name: &Text) -> Result<u32, OutOfMemory>
        ensures keeps { Keeps self.old self.new }
        ensures trees_stay { OnOk result (trees self.new ≡ trees self.old) }
        ensures named { IfOk result (λ n. (n < length self.new.names) × (name_at self.new.names n ≡ name.now)) }
    {
        if let Some(number) = self.names.get_index_of(name) {
            return Ok(number as u32);
        }
        if !are_few(self.names.len() + 1) {
            return Err(OutOfMemory);
        }
        let number = self.names.len() as u32;
        let name = Text::from_bytes(alloc, name.as_bytes())?;
        self.names.insert_full(name)?;
        Ok(number)
    }

    /// What is known of a type.
    pub fn type_size(&self, index: u32) -> TypeSize
        requires { index < length self.now.types }
        ensures known { result ≡ type_size_of (tree self.now index) }
        ensures aligns { (1 ≤ result.align) × (65536 % result.align ≡ 0) }
    {
        type_size_at(self.type_sizes.as_slice(), index)
    }

    /// Adds a type, whose index is the number of those before it. It is refused where it goes too deep or
    /// consists of too many types.
    #[tactic(auto, using(crate::proofs::Keeping::keeps_same))]
    pub fn push(&mut self, meta: TypeMeta) -> Result<u32, Fault>
        requires names { NamesIn (length self.old.names) meta }
        requires refers { RefersIn (length self.old.types) meta }
        requires based { IsBased (trees self.old) meta }
        requires sound { IsSound meta }
        ensures keeps { Keeps self.old self.new }
        ensures names_stay { OnOk result (self.new.names ≡ self.old.names) }
        ensures index { IfOk result (λ p. (p < length self.new.types) × (tree self.new p ≡ shape self.old.names (trees self.old) meta)) }
        ensures fits { OnOk result (fits (shape self.old.names (trees self.old) meta) ≡ true) }
        ensures breaks { OnBreak (λ cause. (cause ≡ causes.BadAttribute) × (fits (shape self.old.names (trees self.old) meta) ≡ false)) result }
    {
        let Some(type_sizes) = meta_type_size(self.type_sizes.as_slice(), &meta) else {
            return Err(Fault::Breaks(MetaItemCause::BadAttribute));
        };
        if !are_few(self.types.len()) {
            return Err(Fault::OutOfMemory);
        }
        let index = self.types.len() as u32;
        self.type_sizes.push(type_sizes)?;
        if self.types.push(meta).is_err() {
            self.type_sizes.pop();
            return Err(Fault::OutOfMemory);
        }
        Ok(index)
    }

    /// The greatest alignment of a field. `None` comes where the fields consist of too many types.
    pub fn widest(&self, fields: &[FieldMeta]) -> Option<u32>
        requires { FieldsIn (length self.now.types) fields.now }
        ensures found { IfSome result (λ align. align ≡ widest (fields_at self.now.names (trees self.now) fields.now)) }
        ensures aligns { IfSome result (λ align. (1 ≤ align) × (65536 % align ≡ 0)) }
        ensures none { IfNone result (MAX_NODES < nodes_of_all (fields_at self.now.names (trees self.now) fields.now)) }
    {
        Some(sum_of(self.type_sizes.as_slice(), fields)?.align)
    }

    /// The type of an index.
    pub fn get(&self, index: u32) -> &TypeMeta
        requires { index < length self.now.types }
        ensures there { slice_get self.now.types index ≡ Some result.now }
        ensures kind { tree self.now index ≡ shape self.now.names (trees self.now) result.now }
        ensures refers { RefersIn (length self.now.types) result.now }
        ensures ranked { RefersIn index result.now }
        ensures names { NamesIn (length self.now.names) result.now }
        ensures sound { IsSound result.now }
    {
        &self.types.as_slice()[index as usize]
    }

    /// The name of a number; the empty one where there is none.
    pub fn name(&self, number: u32) -> &[u8]
        ensures { result.now ≡ name_at self.now.names number }
    {
        match self.names.get_index(number as usize) {
            Some(name) => name.as_bytes(),
            None => &[],
        }
    }

    /// The number of the other spelling of a name, if it has one that is used. No two numbers are of one name.
    pub fn other_number(&self, alloc: Global, name: u32) -> Result<Option<u32>, OutOfMemory>
        ensures number { IfOk result (λ other. other ≡ other_number self.now.names name) }
        ensures distinct { AreDistinct self.now.names }
    {
        let name = match self.names.as_slice().get(name as usize) {
            Some(name) => name.as_bytes(),
            None => &[],
        };
        let Some(other) = other_spelling(alloc, name)? else {
            return Ok(None);
        };
        Ok(self.names.get_index_of(&other).map(|number| number as u32))
    }

    /// How many types there are.
    pub fn len(&self) -> usize
        ensures { result ≡ length self.now.types }
    {
        self.types.len()
    }

    /// Whether there is none.
    pub fn is_empty(&self) -> bool
        ensures { IsTrue result ↔ (length self.now.types ≡ 0) }
    {
        self.types.len() == 0
    }

    /// What holds of each table, for those who speak of one by its parts. It does nothing.
    pub fn is_sound(&self)
        ensures { IsSoundTable self.now }
    {
        let _ = &self.type_sizes;
    }

    /// The limits hold for a type. It does nothing.
    pub fn limits(&self, index: u32)
        requires { index < length self.now.types }
        ensures depth { depth (tree self.now index) ≤ MAX_TYPE_DEPTH }
        ensures nodes { nodes (tree self.now index) ≤ MAX_NODES }
    {
        let _ = &self.type_sizes;
    }
}
