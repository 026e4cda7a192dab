//! The attributes that a state has, and how they are written.
ghost use Rattle.std.specs.Prelude.{◌≡◌, ◌++◌, OnOk, OnErr, Some};
ghost use Rattle.trace_types.specs.Paths.{path_text};

use crate::OutOfMemory;
use std::alloc::Global;
use std::fmt;

/// A thread of a host: the idle thread of a processor, or a tid from 1 to 2^31 - 1.
#[derive(Clone, Copy, Debug, PartialEq, Eq, Hash)]
pub enum ThreadKey {
    Idle(u32),
    Tid(u32),
}

/// What a processor has: its thread's tid, the interrupt and the soft interrupt that it runs.
#[derive(Clone, Copy, Debug, PartialEq, Eq, Hash)]
pub enum CpuLeaf {
    Thread,
    Irq,
    Softirq,
}

/// What a thread has. `Call` is the system call that it is in.
#[derive(Clone, Copy, Debug, PartialEq, Eq, Hash)]
pub enum ThreadLeaf {
    Status,
    Name,
    Cpu,
    Prio,
    Parent,
    Call,
}

/// An attribute: a leaf of a host's processor or thread.
#[derive(Clone, Copy, Debug, PartialEq, Eq, Hash)]
pub enum Path {
    Cpu {
        host: u32,
        cpu: u32,
        leaf: CpuLeaf,
    },
    Thread {
        host: u32,
        thread: ThreadKey,
        leaf: ThreadLeaf,
    },
}

impl Path {
    ghost use Rattle.std.specs.Prelude.{◌≡◌};
    ghost use Rattle.trace_types.specs.Paths.{rank_of};

    /// Where the path stands in a list of paths, compared from the left: its host; 0 for a
    /// processor, 1 for an idle thread, 2 for another; the processor or the tid; the leaf's rank.
    pub fn rank(&self) -> [u32; 4]
        ensures { result ≡ rank_of self.now }
    {
        match *self {
            Path::Cpu { host, cpu, leaf } => [host, 0, cpu, leaf as u32],
            Path::Thread { host, thread, leaf } => match thread {
                ThreadKey::Idle(cpu) => [host, 1, cpu, leaf as u32],
                ThreadKey::Tid(tid) => [host, 2, tid, leaf as u32],
            },
        }
    }
}

impl fmt::Display for ThreadKey {
    ghost use Rattle.trace_types.specs.Paths.{thread_text};
    ghost use Rattle.std.specs.Prelude.{Some};

    ghost output = { λ k. Some (thread_text k) };

    fn fmt<W: fmt::Write>(&self, f: &mut fmt::Formatter<W>) -> fmt::Result {
        match *self {
            ThreadKey::Idle(cpu) => write!(f, "0_{cpu}"),
            ThreadKey::Tid(tid) => write!(f, "{tid}"),
        }
    }
}

impl fmt::Display for CpuLeaf {
    ghost use Rattle.trace_types.specs.Paths.{cpu_leaf_text};
    ghost use Rattle.std.specs.Prelude.{Some};

    ghost output = { λ l. Some (cpu_leaf_text l) };

    fn fmt<W: fmt::Write>(&self, f: &mut fmt::Formatter<W>) -> fmt::Result {
        f.write_str(match self {
            CpuLeaf::Thread => "Thread",
            CpuLeaf::Irq => "Irq",
            CpuLeaf::Softirq => "Softirq",
        })
    }
}

impl fmt::Display for ThreadLeaf {
    ghost use Rattle.trace_types.specs.Paths.{thread_leaf_text};
    ghost use Rattle.std.specs.Prelude.{Some};

    ghost output = { λ l. Some (thread_leaf_text l) };

    fn fmt<W: fmt::Write>(&self, f: &mut fmt::Formatter<W>) -> fmt::Result {
        f.write_str(match self {
            ThreadLeaf::Status => "Status",
            ThreadLeaf::Name => "Name",
            ThreadLeaf::Cpu => "Cpu",
            ThreadLeaf::Prio => "Prio",
            ThreadLeaf::Parent => "Parent",
            ThreadLeaf::Call => "Call",
        })
    }
}

impl fmt::Display for Path {
    ghost use Rattle.trace_types.specs.Paths.{path_text};
    ghost use Rattle.std.specs.Prelude.{Some};

    ghost output = { λ p. Some (path_text p) };

    fn fmt<W: fmt::Write>(&self, f: &mut fmt::Formatter<W>) -> fmt::Result {
        match *self {
            Path::Cpu { host, cpu, leaf } => write!(f, "h{host}/Cpu/{cpu}/{leaf}"),
            Path::Thread { host, thread, leaf } => write!(f, "h{host}/Thread/{thread}/{leaf}"),
        }
    }
}

/// Appends the one spelling of a path. The only error is lack of memory.
pub fn write_path(alloc: Global, path: Path, out: &mut Vec<u8>) -> Result<(), OutOfMemory>
    ensures ok { OnOk result (out.new.items ≡ out.old.items ++ path_text path) }
    ensures err { OnErr result (out.new.items ≡ out.old.items) }
{
    let text = format!(in alloc; "{path}")?;
    out.extend_from_slice(text.as_bytes())?;
    Ok(())
}
