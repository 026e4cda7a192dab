//! Writing one line of an event list.
ghost use Rattle.std.specs.Prelude.{◌≡◌, ◌++◌, ◌∷◌, [], OnErr, OnOk};
ghost use Rattle.std.specs.Fmt.{decimal};
ghost use Rattle.event_list.specs.Lines.{AreBytes, field_words, head_text, line_text};
ghost use Rattle.event_list.specs.Written.{texts_in};
ghost use Rattle.std.specs.List.{AllByRecursion};
ghost use Rattle.event_list.specs.Spaced.{spaced};

use crate::thread::NamedThread;
use crate::write_fields::{
    write_fork, write_lost, write_name, write_number, write_process, write_request, write_segment,
    write_switch, write_two, write_woken, write_word,
};
use itoa::Buffer;
use trace_types::{Event, KernelEvent, Merged, OutOfMemory, Text};

// Most lines are shorter, in bytes.
const LINE: usize = 128;

/// Appends the line of an event. `names` are those of its host. The only error is lack of memory, after which nothing
/// has changed.
pub fn write_line(event: &Merged, names: &[Text], out: &mut Vec<u8>) -> Result<(), OutOfMemory>
    ensures text { OnOk result (out.new.items ≡ out.old.items ++ line_text names.now event.now) }
    ensures bytes { OnOk result (AllByRecursion AreBytes (texts_in names.now event.now.event.kind)) }
    ensures err { OnErr result (out.new.items ≡ out.old.items) }
{
    let mut line = Vec::with_capacity(*out.allocator(), LINE)?;
    append_line(event, names, &mut line)?;
    out.extend_from_slice(&line)?;
    Ok(())
}

/// Appends the line of an event. `names` are those of its host. The only error is lack of memory, after which a front
/// of the line may be left.
pub fn append_line(event: &Merged, names: &[Text], out: &mut Vec<u8>) -> Result<(), OutOfMemory>
    ensures text { OnOk result (out.new.items ≡ out.old.items ++ line_text names.now event.now) }
    ensures bytes { OnOk result (AllByRecursion AreBytes (texts_in names.now event.now.event.kind)) }
{
    append_head(event, out)?;
    write_fields(&event.event.kind, names, out)?;
    out.push(b'\n')?;
    Ok(())
}

/// Appends what stands in an event's line before its fields, without the space that follows. The only error is lack of
/// memory, after which a front of it may be left.
pub fn append_head(event: &Merged, out: &mut Vec<u8>) -> Result<(), OutOfMemory>
    ensures { OnOk result (out.new.items ≡ out.old.items ++ head_text event.now) }
{
    let mut digits = Buffer::new();
    out.extend_from_slice(digits.format(event.key).as_bytes())?;
    write_line_head(&event.event, out)?;
    write_word(event.event.kind.kind().word(), out)
}

// Appends an event's host, its processor and its own time, each with a space before it.
fn write_line_head(event: &Event, out: &mut Vec<u8>) -> Result<(), OutOfMemory>
    ensures { OnOk result (out.new.items ≡ out.old.items ++ spaced (decimal event.now.host ∷ decimal event.now.cpu ∷ decimal event.now.time ∷ [])) }
{
    write_number(event.host, out)?;
    write_number(event.cpu, out)?;
    write_number(event.time, out)
}

// Appends an event's fields, each with a space before it.
fn write_fields(event: &KernelEvent, names: &[Text], out: &mut Vec<u8>) -> Result<(), OutOfMemory>
    ensures text { OnOk result (out.new.items ≡ out.old.items ++ spaced (field_words names.now event.now)) }
    ensures bytes { OnOk result (AllByRecursion AreBytes (texts_in names.now event.now)) }
{
    match *event {
        KernelEvent::Switch {
            prev_state,
            prev_tid,
            next_tid,
            prev_prio,
            next_prio,
            prev_comm,
            next_comm,
        } => {
            let prev = NamedThread {
                tid: prev_tid,
                prio: prev_prio,
                comm: prev_comm,
            };
            let next = NamedThread {
                tid: next_tid,
                prio: next_prio,
                comm: next_comm,
            };
            write_switch(&prev, prev_state, &next, out)
        }
        KernelEvent::Wakeup {
            tid,
            comm,
            prio,
            target_cpu,
        }
        | KernelEvent::WakeupNew {
            tid,
            comm,
            prio,
            target_cpu,
        }
        | KernelEvent::Waking {
            tid,
            comm,
            prio,
            target_cpu,
        } => write_woken(&NamedThread { tid, prio, comm }, target_cpu, out),
        KernelEvent::Fork {
            parent_tid,
            child_tid,
            child_comm,
        } => write_fork(parent_tid, child_tid, &child_comm, out),
        KernelEvent::Migrate { tid, dest_cpu } => write_two(tid, dest_cpu, out),
        KernelEvent::Process {
            tid,
            ppid,
            name,
            status,
        } => write_process(tid, ppid, &name, status, out),
        KernelEvent::Exit { tid: number }
        | KernelEvent::Free { tid: number }
        | KernelEvent::IrqIn { irq: number }
        | KernelEvent::IrqOut { irq: number }
        | KernelEvent::SoftIn { vec: number }
        | KernelEvent::SoftOut { vec: number } => write_number(number, out),
        KernelEvent::Send { key } | KernelEvent::Receive { key } => write_segment(&key, out),
        KernelEvent::DiskIssue {
            sector,
            dev,
            nr_sector,
        }
        | KernelEvent::DiskDone {
            sector,
            dev,
            nr_sector,
        } => write_request(sector, dev, nr_sector, out),
        KernelEvent::Lost { events, gap } => write_lost(events, gap, out),
        KernelEvent::CallIn { name }
        | KernelEvent::CallOut { name }
        | KernelEvent::Other { name } => write_name(names, name, out),
    }
}
