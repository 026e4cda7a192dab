//! Threads as words.
ghost use Rattle.std.specs.Prelude.{◌<◌, ◌^◌, IfSome, IfNone, ℕ, ℤ, FitsSigned};
ghost use Rattle.std.specs.Int.{w32};
ghost use Rattle.trace_types.specs.Numbers.{IsNumber, IsSigned};
ghost use Rattle.event_list.specs.Threads.{IsThread};
ghost use Rattle.event_list.specs.declared.thread.NamedThread.{NamedThread};

use trace_types::{Comm, read_comm, read_number_below, read_signed};

/// A thread with its name and priority, as three words tell it.
#[derive(Drop)]
pub struct NamedThread {
    pub tid: u32,
    pub prio: i32,
    pub comm: Comm,
}

/// Reads a tid, a name and a priority.
pub fn read_thread(tid: &[u8], comm: &[u8], prio: &[u8]) -> Option<NamedThread>
    ensures found { IfSome result (λ t. IsThread tid.now comm.now prio.now t) }
    ensures none { IfNone result ((t : NamedThread) → ¬ (IsThread tid.now comm.now prio.now t)) }
{
    let tid = read_small(tid)?;
    let comm = read_comm(comm)?;
    let prio = read_prio(prio)?;
    Some(NamedThread { tid, prio, comm })
}

fn read_prio(word: &[u8]) -> Option<i32>
    ensures found { IfSome result (λ z. IsSigned word.now z) }
    ensures none { IfNone result ((z : ℤ) → FitsSigned w32 z → ¬ (IsSigned word.now z)) }
{
    i32::try_from(read_signed(word)?).ok()
}

/// Reads a number below 2^31: a tid, a processor, an interrupt or a status.
pub fn read_small(word: &[u8]) -> Option<u32>
    ensures found { IfSome result (λ n. IsNumber word.now n × (n < 2 ^ 31)) }
    ensures none { IfNone result ((n : ℕ) → n < 2 ^ 31 → ¬ (IsNumber word.now n)) }
{
    Some(read_number_below(word, 1 << 31)? as u32)
}
