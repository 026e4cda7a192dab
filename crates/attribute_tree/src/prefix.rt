//! The fronts of paths: the nodes of the tree of attributes.
use trace_types::{Path, ThreadKey};

/// The first so many segments of a path, from none to all four. Contracts speak of each of them; a
/// run makes only those of hosts, and of all their processors and all their threads.
#[derive(Clone, Copy, Debug, PartialEq, Eq, Hash)]
pub enum Prefix {
    Root,
    Host(u32),
    Cpus(u32),
    Threads(u32),
    Cpu { host: u32, cpu: u32 },
    Thread { host: u32, thread: ThreadKey },
    Leaf(Path),
}
