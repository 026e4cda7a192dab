//! The kinds of events, by their names and fields.
ghost use Rattle.std.specs.Prelude.{◌≡◌};
ghost use Rattle.kernel_layout.specs.Kinds.{event_of, fork, kind_of, migrate, name_of, or_other, other_event_of, process, disk_request, switch, wakeup_fields};
ghost use Rattle.kernel_layout.specs.Tracepoints.{layout_of};

use crate::fields::{Fields, Segments};
use crate::layout::Layout;
use crate::needed::{of_32, of_64, priority, small, state};
use crate::sought::Sought;
use crate::whole::WholeFields;
use ctf_fields::RawEvent;
use trace_types::{EventKind, KernelEvent, Request, Woken};
use type_table::TraceMeta;

/// What an event is, and whether a field is missing that its name calls for; it is then another event. A field of
/// another form or out of its range is missing. `layout` is that of the trace. It takes no memory.
pub fn kind_of(meta: &TraceMeta, layout: &Layout, raw: &RawEvent) -> (KernelEvent, bool)
    requires { layout.now ≡ layout_of meta.now }
    ensures { result ≡ kind_of meta.now raw.now }
{
    let name = name_of(meta, raw.event);
    let fields = WholeFields {
        table: meta.table(),
        known: layout.known(),
        root: &raw.fields,
    };
    or_other(name, event_of(layout.of(name), name, fields))
}

/// The event, or another one that lacks a field.
pub fn or_other(name: u32, event: Option<KernelEvent>) -> (KernelEvent, bool)
    ensures { result ≡ or_other name event }
{
    match event {
        Some(kind) => (kind, false),
        None => (KernelEvent::Other { name }, true),
    }
}

/// The number of an event's name.
pub fn name_of(meta: &TraceMeta, index: u32) -> u32
    ensures { result ≡ name_of meta.now index }
{
    match meta.event(index) {
        Some((_, parts)) => parts.name,
        None => 0,
    }
}

/// The event of a kind, where all fields are there that it needs.
pub fn event_of<F: Segments>(kind: EventKind, name: u32, fields: F) -> Option<KernelEvent>
    requires { F.can_tell fields }
    ensures { result ≡ event_of kind name (F.table fields) (F.root fields) }
{
    match kind {
        EventKind::Switch => switch(fields),
        EventKind::Wakeup => Some(wakeup_fields(fields)?.wakeup()),
        EventKind::WakeupNew => Some(wakeup_fields(fields)?.wakeup_new()),
        EventKind::Waking => Some(wakeup_fields(fields)?.waking()),
        EventKind::Fork => fork(fields),
        EventKind::Migrate => migrate(fields),
        EventKind::Process => process(fields),
        other => other_event_of(other, name, fields),
    }
}

// The event of a kind that has one number, or a call, a segment or a request.
fn other_event_of<F: Segments>(kind: EventKind, name: u32, fields: F) -> Option<KernelEvent>
    requires { F.can_tell fields }
    ensures { result ≡ other_event_of kind name (F.table fields) (F.root fields) }
{
    Some(match kind {
        EventKind::Exit => KernelEvent::Exit {
            tid: small(fields, Sought::Tid)?,
        },
        EventKind::Free => KernelEvent::Free {
            tid: small(fields, Sought::Tid)?,
        },
        EventKind::IrqIn => KernelEvent::IrqIn {
            irq: small(fields, Sought::Irq)?,
        },
        EventKind::IrqOut => KernelEvent::IrqOut {
            irq: small(fields, Sought::Irq)?,
        },
        EventKind::SoftIn => KernelEvent::SoftIn {
            vec: small(fields, Sought::Vec)?,
        },
        EventKind::SoftOut => KernelEvent::SoftOut {
            vec: small(fields, Sought::Vec)?,
        },
        EventKind::CallIn => KernelEvent::CallIn { name },
        EventKind::CallOut => KernelEvent::CallOut { name },
        EventKind::Send => KernelEvent::Send {
            key: fields.segment()?,
        },
        EventKind::Receive => KernelEvent::Receive {
            key: fields.segment()?,
        },
        EventKind::DiskIssue => disk_request(fields)?.issue(),
        EventKind::DiskDone => disk_request(fields)?.done(),
        _ => KernelEvent::Other { name },
    })
}

fn switch<F: Fields>(fields: F) -> Option<KernelEvent>
    requires { F.can_tell fields }
    ensures { result ≡ switch (F.table fields) (F.root fields) }
{
    let prev_state = state(fields, Sought::PrevState)?;
    let prev_tid = small(fields, Sought::PrevTid)?;
    let next_tid = small(fields, Sought::NextTid)?;
    let prev_prio = priority(fields, Sought::PrevPrio)?;
    let next_prio = priority(fields, Sought::NextPrio)?;
    let prev_comm = fields.comm(Sought::PrevComm)?;
    let next_comm = fields.comm(Sought::NextComm)?;
    Some(KernelEvent::Switch {
        prev_state,
        prev_tid,
        next_tid,
        prev_prio,
        next_prio,
        prev_comm,
        next_comm,
    })
}

fn wakeup_fields<F: Fields>(fields: F) -> Option<Woken>
    requires { F.can_tell fields }
    ensures { result ≡ wakeup_fields (F.table fields) (F.root fields) }
{
    let tid = small(fields, Sought::Tid)?;
    let comm = fields.comm(Sought::Comm)?;
    let prio = priority(fields, Sought::Prio)?;
    let target_cpu = small(fields, Sought::TargetCpu)?;
    Some(Woken {
        tid,
        comm,
        prio,
        target_cpu,
    })
}

fn fork<F: Fields>(fields: F) -> Option<KernelEvent>
    requires { F.can_tell fields }
    ensures { result ≡ fork (F.table fields) (F.root fields) }
{
    let parent_tid = small(fields, Sought::ParentTid)?;
    let child_tid = small(fields, Sought::ChildTid)?;
    let child_comm = fields.comm(Sought::ChildComm)?;
    Some(KernelEvent::Fork {
        parent_tid,
        child_tid,
        child_comm,
    })
}

fn migrate<F: Fields>(fields: F) -> Option<KernelEvent>
    requires { F.can_tell fields }
    ensures { result ≡ migrate (F.table fields) (F.root fields) }
{
    let tid = small(fields, Sought::Tid)?;
    let dest_cpu = small(fields, Sought::DestCpu)?;
    Some(KernelEvent::Migrate { tid, dest_cpu })
}

fn process<F: Fields>(fields: F) -> Option<KernelEvent>
    requires { F.can_tell fields }
    ensures { result ≡ process (F.table fields) (F.root fields) }
{
    let tid = small(fields, Sought::Tid)?;
    let ppid = small(fields, Sought::Ppid)?;
    let name = fields.comm(Sought::Name)?;
    let status = small(fields, Sought::Status)?;
    Some(KernelEvent::Process {
        tid,
        ppid,
        name,
        status,
    })
}

fn disk_request<F: Fields>(fields: F) -> Option<Request>
    requires { F.can_tell fields }
    ensures { result ≡ disk_request (F.table fields) (F.root fields) }
{
    let sector = of_64(fields, Sought::Sector)?;
    let dev = of_32(fields, Sought::Dev)?;
    let nr_sector = of_32(fields, Sought::NrSector)?;
    Some(Request {
        sector,
        dev,
        nr_sector,
    })
}
