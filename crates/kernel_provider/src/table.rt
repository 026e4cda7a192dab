//! The paths that were added, with their current values.
ghost use Rattle.std.specs.Prelude.{◌≡◌, ◌<◌, [], true, false, length, IsOk, OnOk, IfSome, IfNone};
ghost use Rattle.kernel_provider.specs.Steps.{value_in, is_held, number_of, with_value};
ghost use Rattle.trace_types.specs.declared.value.Value.TheVariants as values;

use attribute_tree::Attributes;
use std::alloc::Global;
use std::marker::Model;
use trace_types::{OutOfMemory, Path, Value};

/// The paths that were added, in order, with their current values. Contracts see the list of both,
/// and whether there is room for one more.
#[derive(Debug, Drop)]
pub struct Table {
    attributes: Attributes,
    values: Vec<Value>,
}

impl Model for Table {
    ghost use Rattle.std.specs.Prelude.{◌≡◌, ◌&&◌, nat_lt, length, vec_len, vec_capacity};
    ghost use Rattle.std.specs.List.{zip};
    ghost use Rattle.kernel_provider.specs.Given.{Entries};

    ghost Value = { Entries };

    ghost view = { λ t. record { table = zip t.attributes.paths t.values.items; has_room = t.attributes.has_room && nat_lt (vec_len t.values) (vec_capacity t.values) } };

    ghost invariant = { λ t. length t.attributes.paths ≡ length t.values.items };
}

/// A path's number and its current value.
#[derive(Clone, Copy, Debug, PartialEq, Eq)]
pub struct Found {
    pub number: usize,
    pub value: Value,
}

impl Table {
    /// No path. It takes no memory.
    pub fn new(alloc: Global) -> Table
        ensures { result.table ≡ [] }
    {
        Table {
            attributes: Attributes::new(alloc),
            values: Vec::new(alloc),
        }
    }

    /// Makes room for one more path.
    pub fn reserve(&mut self) -> Result<(), OutOfMemory>
        ensures same { self.new.table ≡ self.old.table }
        ensures room { OnOk result (self.new.has_room ≡ true) }
        ensures succeeds { self.old.has_room ≡ true → IsOk result }
    {
        self.attributes.reserve()?;
        self.values.reserve(1)?;
        Ok(())
    }

    /// The number and the current value of a path that was added.
    pub fn find(&self, path: &Path) -> Option<Found>
        ensures found { IfSome result (λ f. (is_held self.now.table path.now ≡ true) × (f.number ≡ number_of self.now.table path.now) × (f.value ≡ value_in self.now.table path.now)) }
        ensures within { IfSome result (λ f. f.number < length self.now.table) }
        ensures none { IfNone result (is_held self.now.table path.now ≡ false) }
    {
        let number = self.attributes.find(*path)?;
        let value = self.values[number];
        Some(Found { number, value })
    }

    /// A path's current value: `Null` where it wasn't added.
    pub fn value_of(&self, path: &Path) -> Value
        ensures { result ≡ value_in self.now.table path.now }
    {
        match self.find(path) {
            Some(found) => found.value,
            None => Value::Null,
        }
    }

    /// Adds a new path, without a value. There is room.
    pub fn add(&mut self, path: &Path)
        requires room { self.old.has_room ≡ true }
        requires absent { is_held self.old.table path.now ≡ false }
        ensures { self.new.table ≡ with_value self.old.table path.now values.Null }
    {
        self.attributes.add(*path).unwrap();
        self.values.push_reserved(Value::Null);
    }

    /// Gives the path of this number another value.
    pub fn set(&mut self, path: &Path, number: usize, value: Value)
        requires held { is_held self.old.table path.now ≡ true }
        requires number { number ≡ number_of self.old.table path.now }
        ensures { self.new.table ≡ with_value self.old.table path.now value }
    {
        self.values[number] = value;
    }
}
