//! Types by their names.
ghost use Rattle.std.specs.Prelude.{◌≡◌, ◌++◌, ◌∷◌, [], None, OnErr, OnOk};
ghost use Rattle.std.specs.Map.{lookup};
ghost use Rattle.trace_types.specs.Texts.{is_text};

use indexmap::IndexMap;
use std::alloc::Global;
use std::marker::Model;
use trace_types::{OutOfMemory, Text};

/// Indices of types by the types' names. Contracts see the pairs in the order in which they were added.
#[derive(Drop)]
pub struct NameMap {
    indices: IndexMap<Text, u32>,
}

impl Model for NameMap {
    ghost use Rattle.std.specs.Prelude.{List, ℕ};

    ghost Value = { List (List ℕ × ℕ) };

    ghost view = { λ m. m.indices.entries };
}

impl NameMap {
    /// No name. It takes no memory.
    pub fn new(alloc: Global) -> NameMap
        ensures { result ≡ [] }
    {
        NameMap {
            indices: IndexMap::new(alloc),
        }
    }

    /// The index of a name's type.
    pub fn find(&self, name: &Text) -> Option<u32>
        ensures { result ≡ lookup (is_text name.now) self.now }
    {
        self.indices.get(name).copied()
    }

    /// Adds a name that isn't there.
    pub fn add(&mut self, alloc: Global, name: &Text, index: u32) -> Result<(), OutOfMemory>
        requires { lookup (is_text name.now) self.old ≡ None }
        ensures ok { OnOk result (self.new ≡ self.old ++ (name.now, index) ∷ []) }
        ensures err { OnErr result (self.new ≡ self.old) }
    {
        let name = Text::from_bytes(alloc, name.as_bytes())?;
        self.indices.insert(name, index)?;
        Ok(())
    }
}
