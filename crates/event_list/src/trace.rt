//! A merge with the names that its events carry.
ghost use Rattle.std.specs.Prelude.{◌≡◌, IfOk};

use sqlite_items::Items;
use std::alloc::Global;
use trace_types::{Merged, OutOfMemory, Text};

/// A copy of names.
pub fn copy_names(alloc: Global, names: &[Text]) -> Result<Vec<Text>, OutOfMemory>
    ensures { IfOk result (λ copies. copies.items ≡ names.now) }
{
    let mut copies = Vec::new(alloc);
    for name in names {
        copies.push(Text::from_bytes(alloc, name.as_bytes())?)?;
    }
    Ok(copies)
}

/// Merged events, in order, and the event names of each host from 0 to the greatest. An event that carries a name has its place
/// among those of its host.
#[derive(Debug, Drop)]
pub struct MergedTrace {
    pub events: Vec<Merged>,
    pub names: Vec<Items<Text>>,
}
