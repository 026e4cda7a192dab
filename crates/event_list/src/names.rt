//! The names of a host, with the places in which they first appeared.
ghost use Rattle.std.specs.Prelude.{◌≡◌, ◌<◌, ◌^◌, [], IfOk, OnOk, length};
ghost use Rattle.std.specs.List.{position_or_len};
ghost use Rattle.indexmap.specs.IndexSet.{insert_key};
ghost use Rattle.event_list.specs.Names.{same_name};

use crate::narrow::narrow;
use indexmap::IndexSet;
use std::alloc::Global;
use std::marker::Model;
use trace_types::{OutOfMemory, Text};

/// Names, each once, by their places. Contracts see them as a list.
#[derive(Debug, Drop)]
pub struct NameTable {
    names: IndexSet<Text>,
}

impl Model for NameTable {
    ghost use Rattle.std.specs.Prelude.{List, ℕ};

    ghost Value = { List (List ℕ) };

    ghost view = { λ s. s.names.keys };
}

impl NameTable {
    /// No names. It takes no memory.
    pub fn new(alloc: Global) -> NameTable
        ensures { result ≡ [] }
    {
        NameTable {
            names: IndexSet::new(alloc),
        }
    }

    /// The place of a name, which goes last where it isn't there. The only error is lack of memory.
    pub fn number(&mut self, name: Text) -> Result<u32, OutOfMemory>
        requires { length self.old < 2 ^ 32 }
        ensures number { IfOk result (λ n. n ≡ position_or_len (same_name name) self.old) }
        ensures names { OnOk result (self.new ≡ insert_key same_name self.old name) }
    {
        let (number, _) = self.names.insert_full(name)?;
        Ok(narrow(number))
    }

    /// The names, in order.
    pub fn as_slice(&self) -> &[Text]
        ensures { result.now ≡ self.now }
    {
        self.names.as_slice()
    }
}
