//! The paths of the attributes that stand before a given one.
ghost use Rattle.std.specs.Prelude.{◌≡◌, [], not, IfOk, OnOk};
ghost use Rattle.type_rules.specs.Attributes.{is_seen, noted};

use indexmap::IndexSet;
use std::alloc::Global;
use std::marker::Model;
use trace_types::{OutOfMemory, Text};

/// Paths that stood before, each once.
#[derive(Drop)]
pub struct SeenPaths<'a> {
    paths: IndexSet<&'a [Text]>,
}

impl<'a> Model for SeenPaths<'a> {
    ghost use Rattle.std.specs.Prelude.{List, ℕ, map};

    ghost Value = { List (List (List ℕ)) };

    ghost view = { λ s. map (λ p. p.now) s.paths.keys };
}

impl<'a> SeenPaths<'a> {
    /// No path, with room for so many.
    pub fn with_capacity(alloc: Global, count: usize) -> Result<SeenPaths<'a>, OutOfMemory>
        ensures { IfOk result (λ seen. seen ≡ []) }
    {
        let paths = IndexSet::with_capacity(alloc, count)?;
        Ok(SeenPaths { paths })
    }

    /// Notes a path, and answers whether it stood before.
    pub fn note(&mut self, path: &'a [Text]) -> Result<bool, OutOfMemory>
        ensures stood { IfOk result (λ stood. stood ≡ is_seen path.now self.old) }
        ensures noted { OnOk result (self.new ≡ noted path.now self.old) }
    {
        Ok(!self.paths.insert(path)?)
    }
}
