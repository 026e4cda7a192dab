//! The threads that events name.
ghost use Rattle.std.specs.Prelude.{◌≡◌, ◌↔◌, ℕ, Contains, IfOk, OnOk};
ghost use Rattle.wait_graph.specs.Named.{IsNamed};
ghost use Rattle.wait_graph.specs.Names.{names_of, NotesName, NotesNames};

use indexmap::IndexSet;
use std::alloc::Global;
use trace_types::{KernelEvent, Merged, OutOfMemory};

/// A thread of a host, by its tid.
#[derive(Clone, Copy, Debug, PartialEq, Eq, Hash)]
pub struct ThreadName {
    pub host: u32,
    pub tid: u32,
}

/// The threads that events of a merge name. The only error is lack of memory.
pub fn named(alloc: Global, merged: &[Merged]) -> Result<IndexSet<ThreadName>, OutOfMemory>
    ensures { IfOk result (λ names. (host tid : ℕ) → Contains names.keys (record { host = host; tid = tid }) ↔ IsNamed merged.now host tid) }
{
    let mut names = IndexSet::new(alloc);
    for event in merged {
        note_names(&mut names, event.event.host, &event.event.kind)?;
    }
    Ok(names)
}

fn note_names(
    names: &mut IndexSet<ThreadName>,
    host: u32,
    kind: &KernelEvent,
) -> Result<(), OutOfMemory>
    ensures { OnOk result (NotesNames host kind.now names.old.keys names.new.keys) }
{
    let (first, second) = names_of(kind);
    note_name(names, host, first)?;
    note_name(names, host, second)
}

fn note_name(
    names: &mut IndexSet<ThreadName>,
    host: u32,
    tid: Option<u32>,
) -> Result<(), OutOfMemory>
    ensures { OnOk result (NotesName host tid names.old.keys names.new.keys) }
{
    if let Some(tid) = tid {
        names.insert(ThreadName { host, tid })?;
    }
    Ok(())
}

fn names_of(kind: &KernelEvent) -> (Option<u32>, Option<u32>)
    ensures { result ≡ names_of kind.now }
{
    match *kind {
        KernelEvent::Switch {
            prev_tid,
            next_tid,
            ..
        } => (Some(prev_tid), Some(next_tid)),
        KernelEvent::Wakeup { tid, .. } => (Some(tid), None),
        KernelEvent::WakeupNew { tid, .. } => (Some(tid), None),
        KernelEvent::Waking { tid, .. } => (Some(tid), None),
        KernelEvent::Fork {
            parent_tid,
            child_tid,
            ..
        } => (Some(parent_tid), Some(child_tid)),
        KernelEvent::Exit { tid } => (Some(tid), None),
        KernelEvent::Free { tid } => (Some(tid), None),
        KernelEvent::Migrate { tid, .. } => (Some(tid), None),
        KernelEvent::Process { tid, ppid, .. } => (Some(tid), Some(ppid)),
        _ => (None, None),
    }
}
