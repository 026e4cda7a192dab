//! What each kind of event assigns to attributes.
ghost use Rattle.std.specs.Prelude.{◌≡◌, ◌<◌, ◌≤◌, ◌+◌, ◌++◌, ◌∷◌, [], pos, Some, None, IfSome, IfNone};
ghost use Rattle.arrayvec.specs.ArrayVec.{array_vec_len};
ghost use Rattle.kernel_provider.specs.Rules.{assignments, call_assignments, coming_assignments, forked_assignments, freed_assignments, gives, leaving_assignments, left_status, lost_assignments, other_assignments, process_assignments, running, unless_idle, woken_assignments};
ghost use Rattle.kernel_provider.specs.Steps.{value_in};
ghost use Rattle.trace_types.specs.declared.path.Path.TheVariants as path;
ghost use Rattle.trace_types.specs.declared.path.ThreadKey.TheVariants.{Tid};
ghost use Rattle.trace_types.specs.declared.path.CpuLeaf.TheVariants as cpu_leaf;
ghost use Rattle.trace_types.specs.declared.path.ThreadLeaf.TheVariants as thread_leaf;
ghost use Rattle.trace_types.specs.declared.value.Value.TheVariants.{Int};

use crate::table::Table;
use arrayvec::ArrayVec;
use trace_types::{
    Comm, CpuLeaf, Event, KernelEvent, Path, ThreadKey, ThreadLeaf, Value, thread_status,
};

/// An attribute's next value.
#[derive(Clone, Copy, Debug, PartialEq, Eq)]
pub struct Assignment {
    pub path: Path,
    pub value: Value,
}

impl Default for Assignment {
    fn default() -> Assignment {
        let path = Path::Cpu {
            host: 0,
            cpu: 0,
            leaf: CpuLeaf::Thread,
        };
        Assignment {
            path,
            value: Value::Null,
        }
    }
}

/// The assignments of one event, at most so many.
pub type Assignments = ArrayVec<Assignment, 8>;

const RUNNING: Value = Value::Int(thread_status::RUNNING);

const READY: Value = Value::Int(thread_status::READY);

const BLOCKED: Value = Value::Int(thread_status::BLOCKED);

const ENDED: Value = Value::Int(thread_status::ENDED);

/// Writes what an event assigns, in order, by the values before it.
pub fn assign(table: &Table, event: &Event, out: &mut Assignments)
    ensures { out.new.items ≡ assignments (value_in table.now.table) event.now }
{
    out.clear();
    match event.kind {
        KernelEvent::Switch {
            prev_state,
            prev_tid,
            next_tid,
            prev_prio,
            next_prio,
            prev_comm,
            next_comm,
        } => {
            let prev = Thread::of(event, prev_tid);
            assign_leaving(table, prev, prev_state, prev_prio, prev_comm, out);
            assign_coming(event, next_tid, next_prio, next_comm, out);
        }
        KernelEvent::Wakeup {
            tid,
            comm,
            prio,
            target_cpu,
        }
        | KernelEvent::WakeupNew {
            tid,
            comm,
            prio,
            target_cpu,
        }
        | KernelEvent::Waking {
            tid,
            comm,
            prio,
            target_cpu,
        } => assign_woken(table, event, tid, comm, prio, target_cpu, out),
        _ => assign_other(table, event, out),
    }
}

// What the events assign that neither switch nor wake.
fn assign_other(table: &Table, event: &Event, out: &mut Assignments)
    requires { array_vec_len out.old ≡ 0 }
    ensures { out.new.items ≡ other_assignments (value_in table.now.table) event.now.host event.now.cpu event.now.kind }
{
    match event.kind {
        KernelEvent::Fork {
            parent_tid,
            child_tid,
            child_comm,
        } => assign_forked(Thread::of(event, child_tid), parent_tid, child_comm, out),
        KernelEvent::Exit { tid } => {
            let thread = Thread::of(event, tid);
            give(out, thread.at(ThreadLeaf::Status), ENDED);
            give(out, thread.at(ThreadLeaf::Call), Value::Null);
        }
        KernelEvent::Free { tid } => assign_freed(Thread::of(event, tid), out),
        KernelEvent::Migrate { tid, dest_cpu } => assign_migrated(event, tid, dest_cpu, out),
        KernelEvent::IrqIn { irq } => give(out, on_cpu(event, CpuLeaf::Irq), number(irq)),
        KernelEvent::IrqOut { .. } => give(out, on_cpu(event, CpuLeaf::Irq), Value::Null),
        KernelEvent::SoftIn { vec } => give(out, on_cpu(event, CpuLeaf::Softirq), number(vec)),
        KernelEvent::SoftOut { .. } => give(out, on_cpu(event, CpuLeaf::Softirq), Value::Null),
        KernelEvent::Process {
            tid,
            ppid,
            name,
            status,
        } => assign_process(table, event, tid, ppid, name, status, out),
        KernelEvent::CallIn { name } => assign_call(table, event, Value::Call(name), out),
        KernelEvent::CallOut { .. } => assign_call(table, event, Value::Null, out),
        KernelEvent::Lost { .. } => assign_lost(table, event, out),
        _ => {}
    }
}

// The thread that leaves its processor.
fn assign_leaving(
    table: &Table,
    thread: Thread,
    state: i64,
    prio: i32,
    comm: Comm,
    out: &mut Assignments,
)
    requires { array_vec_len out.old ≡ 0 }
    ensures items { out.new.items ≡ out.old.items ++ leaving_assignments (value_in table.now.table) thread.host thread.key state prio comm }
    ensures len { array_vec_len out.new ≤ 3 }
{
    let status = thread.at(ThreadLeaf::Status);
    if table.value_of(&status) != ENDED {
        give(out, status, left_status(state));
    }
    give(out, thread.at(ThreadLeaf::Name), Value::Comm(comm));
    give(
        out,
        thread.at(ThreadLeaf::Prio),
        Value::Int(i64::from(prio)),
    );
}

// The thread that comes to its processor.
fn assign_coming(event: &Event, tid: u32, prio: i32, comm: Comm, out: &mut Assignments)
    requires { array_vec_len out.old ≤ 3 }
    ensures { out.new.items ≡ out.old.items ++ coming_assignments event.now.host event.now.cpu tid prio comm }
{
    let thread = Thread::of(event, tid);
    give(out, thread.at(ThreadLeaf::Status), RUNNING);
    give(out, thread.at(ThreadLeaf::Name), Value::Comm(comm));
    give(out, thread.at(ThreadLeaf::Cpu), number(event.cpu));
    give(
        out,
        thread.at(ThreadLeaf::Prio),
        Value::Int(i64::from(prio)),
    );
    give(out, on_cpu(event, CpuLeaf::Thread), number(tid));
}

// A thread that is woken.
fn assign_woken(
    table: &Table,
    event: &Event,
    tid: u32,
    comm: Comm,
    prio: i32,
    target_cpu: u32,
    out: &mut Assignments,
)
    requires { array_vec_len out.old ≡ 0 }
    ensures { out.new.items ≡ unless_idle tid (woken_assignments (value_in table.now.table) event.now.host (Tid tid) comm prio target_cpu) }
{
    if tid == 0 {
        return;
    }
    let thread = Thread::of(event, tid);
    give(out, thread.at(ThreadLeaf::Name), Value::Comm(comm));
    give(
        out,
        thread.at(ThreadLeaf::Prio),
        Value::Int(i64::from(prio)),
    );
    let status = thread.at(ThreadLeaf::Status);
    if table.value_of(&status) != RUNNING {
        give(out, status, READY);
        give(out, thread.at(ThreadLeaf::Cpu), number(target_cpu));
    }
}

// A thread that is made.
fn assign_forked(thread: Thread, parent_tid: u32, comm: Comm, out: &mut Assignments)
    requires { array_vec_len out.old ≡ 0 }
    ensures { out.new.items ≡ forked_assignments thread.host thread.key parent_tid comm }
{
    give(out, thread.at(ThreadLeaf::Status), READY);
    give(out, thread.at(ThreadLeaf::Name), Value::Comm(comm));
    give(out, thread.at(ThreadLeaf::Parent), number(parent_tid));
    give(out, thread.at(ThreadLeaf::Call), Value::Null);
}

// A thread of which nothing is left.
fn assign_freed(thread: Thread, out: &mut Assignments)
    requires { array_vec_len out.old ≡ 0 }
    ensures { out.new.items ≡ freed_assignments thread.host thread.key }
{
    give(out, thread.at(ThreadLeaf::Status), Value::Null);
    give(out, thread.at(ThreadLeaf::Name), Value::Null);
    give(out, thread.at(ThreadLeaf::Cpu), Value::Null);
    give(out, thread.at(ThreadLeaf::Prio), Value::Null);
    give(out, thread.at(ThreadLeaf::Parent), Value::Null);
    give(out, thread.at(ThreadLeaf::Call), Value::Null);
}

fn assign_migrated(event: &Event, tid: u32, dest_cpu: u32, out: &mut Assignments)
    requires { array_vec_len out.old ≡ 0 }
    ensures { out.new.items ≡ unless_idle tid (gives (path.Thread event.now.host (Tid tid) thread_leaf.Cpu) (Int (pos dest_cpu)) ∷ []) }
{
    if tid != 0 {
        let thread = Thread::of(event, tid);
        give(out, thread.at(ThreadLeaf::Cpu), number(dest_cpu));
    }
}

// A thread that was there before the trace.
fn assign_process(
    table: &Table,
    event: &Event,
    tid: u32,
    ppid: u32,
    name: Comm,
    status: u32,
    out: &mut Assignments,
)
    requires { array_vec_len out.old ≡ 0 }
    ensures { out.new.items ≡ unless_idle tid (process_assignments (value_in table.now.table) event.now.host (Tid tid) ppid name status) }
{
    if tid == 0 {
        return;
    }
    let thread = Thread::of(event, tid);
    give(out, thread.at(ThreadLeaf::Name), Value::Comm(name));
    give(out, thread.at(ThreadLeaf::Parent), number(ppid));
    let path = thread.at(ThreadLeaf::Status);
    if table.value_of(&path) == Value::Null {
        match status {
            2 => give(out, path, READY),
            5 => give(out, path, BLOCKED),
            _ => {}
        }
    }
}

// The call in which the running thread is.
fn assign_call(table: &Table, event: &Event, call: Value, out: &mut Assignments)
    requires { array_vec_len out.old ≡ 0 }
    ensures { out.new.items ≡ call_assignments (running (value_in table.now.table (path.Cpu event.now.host event.now.cpu cpu_leaf.Thread)) event.now.cpu) event.now.host call }
{
    if let Some(thread) = running(table, event) {
        give(out, thread.at(ThreadLeaf::Call), call);
    }
}

// Nothing more is known of the processor, nor of what the thread does that ran there.
fn assign_lost(table: &Table, event: &Event, out: &mut Assignments)
    requires { array_vec_len out.old ≡ 0 }
    ensures { out.new.items ≡ lost_assignments (running (value_in table.now.table (path.Cpu event.now.host event.now.cpu cpu_leaf.Thread)) event.now.cpu) event.now.host event.now.cpu }
{
    if let Some(thread) = running(table, event) {
        give(out, thread.at(ThreadLeaf::Status), Value::Null);
        give(out, thread.at(ThreadLeaf::Call), Value::Null);
    }
    give(out, on_cpu(event, CpuLeaf::Thread), Value::Null);
    give(out, on_cpu(event, CpuLeaf::Irq), Value::Null);
    give(out, on_cpu(event, CpuLeaf::Softirq), Value::Null);
}

// The thread that runs on the event's processor, where one is known.
fn running(table: &Table, event: &Event) -> Option<Thread>
    ensures found { IfSome result (λ t. (t.host ≡ event.now.host) × (running (value_in table.now.table (path.Cpu event.now.host event.now.cpu cpu_leaf.Thread)) event.now.cpu ≡ Some t.key)) }
    ensures none { IfNone result (running (value_in table.now.table (path.Cpu event.now.host event.now.cpu cpu_leaf.Thread)) event.now.cpu ≡ None) }
{
    let Value::Int(tid) = table.value_of(&on_cpu(event, CpuLeaf::Thread)) else {
        return None;
    };
    let tid = u32::try_from(tid).ok()?;
    Some(Thread::of(event, tid))
}

// An attribute of the event's processor.
fn on_cpu(event: &Event, leaf: CpuLeaf) -> Path
    ensures { result ≡ path.Cpu event.now.host event.now.cpu leaf }
{
    Path::Cpu {
        host: event.host,
        cpu: event.cpu,
        leaf,
    }
}

fn number(n: u32) -> Value
    ensures { result ≡ Int (pos n) }
{
    Value::Int(i64::from(n))
}

// A thread of a host.
#[derive(Clone, Copy)]
struct Thread {
    host: u32,
    key: ThreadKey,
}

impl Thread {
    ghost use Rattle.kernel_provider.specs.Rules.{thread_of};
    ghost use Rattle.trace_types.specs.declared.path.Path.TheVariants as path;

    // The thread that a tid means where an event stands.
    fn of(event: &Event, tid: u32) -> Thread
        ensures host { result.host ≡ event.now.host }
        ensures key { result.key ≡ thread_of tid event.now.cpu }
    {
        let key = if tid == 0 {
            ThreadKey::Idle(event.cpu)
        } else {
            ThreadKey::Tid(tid)
        };
        let host = event.host;
        Thread { host, key }
    }

    fn at(&self, leaf: ThreadLeaf) -> Path
        ensures { result ≡ path.Thread self.now.host self.now.key leaf }
    {
        Path::Thread {
            host: self.host,
            thread: self.key,
            leaf,
        }
    }
}

// The status of a thread that leaves its processor in this state.
fn left_status(state: i64) -> Value
    ensures { result ≡ left_status state }
{
    if state.cast_unsigned() % 256 == 0 {
        READY
    } else {
        BLOCKED
    }
}

fn give(out: &mut Assignments, path: Path, value: Value)
    requires { array_vec_len out.old < 8 }
    ensures items { out.new.items ≡ out.old.items ++ gives path value ∷ [] }
    ensures len { array_vec_len out.new ≡ array_vec_len out.old + 1 }
{
    out.push(Assignment { path, value });
}
