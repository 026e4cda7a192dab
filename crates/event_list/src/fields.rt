//! The fields of each kind of event, as words.
ghost use Rattle.std.specs.Prelude.{◌≡◌, IfSome, IfNone, ℕ, ℤ, List, map};
ghost use Rattle.event_list.specs.Kinds.{IsWakeup, IsOf};
ghost use Rattle.trace_types.specs.declared.event_kind.EventKind.TheVariants.{Switch, Fork, Migrate, Process};
ghost use Rattle.trace_types.specs.declared.event.KernelEvent.{KernelEvent};

use crate::thread::{read_small, read_thread};
use trace_types::{KernelEvent, Woken, read_comm, read_signed};

/// Reads the seven fields of a switch.
pub fn read_switch(fields: &[&[u8]]) -> Option<KernelEvent>
    ensures found { IfSome result (λ k. IsOf Switch (map (λ w. w.now) fields.now) k) }
    ensures none { IfNone result ((k : KernelEvent) → ¬ (IsOf Switch (map (λ w. w.now) fields.now) k)) }
{
    let [
        prev_tid,
        prev_comm,
        prev_prio,
        prev_state,
        next_tid,
        next_comm,
        next_prio,
    ] = fields
    else {
        return None;
    };
    let prev = read_thread(prev_tid, prev_comm, prev_prio)?;
    let prev_state = read_signed(prev_state)?;
    let next = read_thread(next_tid, next_comm, next_prio)?;
    Some(KernelEvent::Switch {
        prev_state,
        prev_tid: prev.tid,
        next_tid: next.tid,
        prev_prio: prev.prio,
        next_prio: next.prio,
        prev_comm: prev.comm,
        next_comm: next.comm,
    })
}

/// Reads the four fields of a wakeup.
pub fn read_woken(fields: &[&[u8]]) -> Option<Woken>
    ensures found { IfSome result (λ w. IsWakeup (map (λ w. w.now) fields.now) w.tid w.comm w.prio w.target_cpu) }
    ensures none { IfNone result ((tid : ℕ) (comm : List ℕ) (prio : ℤ) (cpu : ℕ) → ¬ (IsWakeup (map (λ w. w.now) fields.now) tid comm prio cpu)) }
{
    let [tid, comm, prio, target_cpu] = fields else {
        return None;
    };
    let thread = read_thread(tid, comm, prio)?;
    let target_cpu = read_small(target_cpu)?;
    Some(Woken {
        tid: thread.tid,
        comm: thread.comm,
        prio: thread.prio,
        target_cpu,
    })
}

/// Reads the three fields of a fork.
pub fn read_fork(fields: &[&[u8]]) -> Option<KernelEvent>
    ensures found { IfSome result (λ k. IsOf Fork (map (λ w. w.now) fields.now) k) }
    ensures none { IfNone result ((k : KernelEvent) → ¬ (IsOf Fork (map (λ w. w.now) fields.now) k)) }
{
    let [parent_tid, child_tid, child_comm] = fields else {
        return None;
    };
    Some(KernelEvent::Fork {
        parent_tid: read_small(parent_tid)?,
        child_tid: read_small(child_tid)?,
        child_comm: read_comm(child_comm)?,
    })
}

/// Reads the two fields of a move to another processor.
pub fn read_migrate(fields: &[&[u8]]) -> Option<KernelEvent>
    ensures found { IfSome result (λ k. IsOf Migrate (map (λ w. w.now) fields.now) k) }
    ensures none { IfNone result ((k : KernelEvent) → ¬ (IsOf Migrate (map (λ w. w.now) fields.now) k)) }
{
    let [tid, dest_cpu] = fields else {
        return None;
    };
    Some(KernelEvent::Migrate {
        tid: read_small(tid)?,
        dest_cpu: read_small(dest_cpu)?,
    })
}

/// Reads the four fields of a thread that was there before the trace.
pub fn read_process(fields: &[&[u8]]) -> Option<KernelEvent>
    ensures found { IfSome result (λ k. IsOf Process (map (λ w. w.now) fields.now) k) }
    ensures none { IfNone result ((k : KernelEvent) → ¬ (IsOf Process (map (λ w. w.now) fields.now) k)) }
{
    let [tid, ppid, name, status] = fields else {
        return None;
    };
    Some(KernelEvent::Process {
        tid: read_small(tid)?,
        ppid: read_small(ppid)?,
        name: read_comm(name)?,
        status: read_small(status)?,
    })
}
