//! Whose leaf a path is.
ghost use Rattle.std.specs.Prelude.{◌≡◌, ◌<◌, true, slice_get};
ghost use Rattle.attribute_tree.specs.Rows.{owner_of, thread_of, leaf_of};
ghost use Rattle.attribute_tree.specs.Fronts.{host_of, group_of, is_group};
ghost use Rattle.attribute_tree.specs.Places.{cpu_leaves, thread_leaves, leaf_path};

use crate::prefix::Prefix;
use trace_types::{CpuLeaf, Path, ThreadKey, ThreadLeaf};

/// How many leaves a thread has; a processor has fewer.
pub const LEAVES: usize = 6;

/// A processor or a thread of a host: a path without its leaf. A processor's idle thread is a case of
/// its own, which takes less memory than an enum within this one.
#[derive(Clone, Copy, Debug, PartialEq, Eq, Hash)]
pub enum Owner {
    Cpu { host: u32, cpu: u32 },
    Idle { host: u32, cpu: u32 },
    Thread { host: u32, tid: u32 },
}

impl Owner {
    /// The host, and the front below it that the owner is in.
    pub fn groups(self) -> (Prefix, Prefix)
        ensures host { result.0 ≡ host_of self }
        ensures group { result.1 ≡ group_of self }
        ensures are_groups { (is_group result.0 ≡ true) × (is_group result.1 ≡ true) }
    {
        match self {
            Owner::Cpu { host, .. } => (Prefix::Host(host), Prefix::Cpus(host)),
            Owner::Idle { host, .. } | Owner::Thread { host, .. } => {
                (Prefix::Host(host), Prefix::Threads(host))
            }
        }
    }

    /// The path of the leaf with this place in the owner's row, if the owner has that leaf.
    pub fn path_of_leaf(self, leaf: usize) -> Option<Path>
        ensures { result ≡ leaf_path self leaf }
    {
        match self {
            Owner::Cpu { host, cpu } => {
                let leaf = cpu_leaf(leaf)?;
                Some(Path::Cpu { host, cpu, leaf })
            }
            Owner::Idle { host, cpu } => {
                let leaf = thread_leaf(leaf)?;
                let thread = ThreadKey::Idle(cpu);
                Some(Path::Thread { host, thread, leaf })
            }
            Owner::Thread { host, tid } => {
                let leaf = thread_leaf(leaf)?;
                let thread = ThreadKey::Tid(tid);
                Some(Path::Thread { host, thread, leaf })
            }
        }
    }
}

/// The processor or the thread that a path is of, and the leaf's place in its row.
pub fn split_leaf(path: Path) -> (Owner, usize)
    ensures owner { result.0 ≡ owner_of path }
    ensures leaf { result.1 ≡ leaf_of path }
    ensures within { result.1 < LEAVES }
{
    match path {
        Path::Cpu { host, cpu, leaf } => (Owner::Cpu { host, cpu }, leaf as usize),
        Path::Thread { host, thread, leaf } => (thread_owner(host, thread), leaf as usize),
    }
}

// A thread as an owner.
fn thread_owner(host: u32, thread: ThreadKey) -> Owner
    ensures { result ≡ thread_of host thread }
{
    match thread {
        ThreadKey::Idle(cpu) => Owner::Idle { host, cpu },
        ThreadKey::Tid(tid) => Owner::Thread { host, tid },
    }
}

// The leaf of a processor that has this place.
fn cpu_leaf(place: usize) -> Option<CpuLeaf>
    ensures { result ≡ slice_get cpu_leaves place }
{
    match place {
        0 => Some(CpuLeaf::Thread),
        1 => Some(CpuLeaf::Irq),
        2 => Some(CpuLeaf::Softirq),
        _ => None,
    }
}

// The leaf of a thread that has this place.
fn thread_leaf(place: usize) -> Option<ThreadLeaf>
    ensures { result ≡ slice_get thread_leaves place }
{
    match place {
        0 => Some(ThreadLeaf::Status),
        1 => Some(ThreadLeaf::Name),
        2 => Some(ThreadLeaf::Cpu),
        3 => Some(ThreadLeaf::Prio),
        4 => Some(ThreadLeaf::Parent),
        5 => Some(ThreadLeaf::Call),
        _ => None,
    }
}
