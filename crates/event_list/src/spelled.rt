//! The texts that the lines of events spell: the names of threads, and those of events.
ghost use Rattle.std.specs.Prelude.{◌≡◌};
ghost use Rattle.std.specs.List.{AllByRecursion};
ghost use Rattle.event_list.specs.Lines.{AreBytes};
ghost use Rattle.event_list.specs.Names.{names_at};
ghost use Rattle.event_list.specs.Written.{SpellBytes, name_parsed, texts_in};

use sqlite_items::Items;
use trace_types::{Comm, KernelEvent, Merged, Text};

/// The event names of a host; none where it has no list.
pub fn names_of(names: &[Items<Text>], host: u32) -> &[Text]
    ensures { result.now ≡ names_at names.now host }
{
    match names.get(host as usize) {
        Some(names) => names.as_slice(),
        None => &[],
    }
}

/// The name that an event carries, among the names of its host; the empty one where it carries none.
pub fn name_of<'a>(names: &'a [Text], event: &KernelEvent) -> &'a [u8]
    ensures { result.now ≡ name_parsed names.now event.now }
{
    let number = match *event {
        KernelEvent::CallIn { name }
        | KernelEvent::CallOut { name }
        | KernelEvent::Other { name } => name,
        _ => return &[],
    };
    match names.get(number as usize) {
        Some(name) => name.as_bytes(),
        None => &[],
    }
}

/// All texts that the lines of events spell are bytes. This does nothing: it is called for what it ensures.
pub fn spell_bytes(names: &[Items<Text>], events: &[Merged])
    ensures { SpellBytes (names_at names.now) events.now }
{
    for event in events {
        texts_are_bytes(names_of(names, event.event.host), &event.event.kind);
    }
}

// The names of an event's threads and its own are bytes.
fn texts_are_bytes(names: &[Text], event: &KernelEvent)
    ensures { AllByRecursion AreBytes (texts_in names.now event.now) }
{
    match *event {
        KernelEvent::Switch {
            prev_comm,
            next_comm,
            ..
        } => {
            comm_is_bytes(&prev_comm);
            comm_is_bytes(&next_comm);
        }
        KernelEvent::Wakeup { comm, .. }
        | KernelEvent::WakeupNew { comm, .. }
        | KernelEvent::Waking { comm, .. }
        | KernelEvent::Fork {
            child_comm: comm,
            ..
        }
        | KernelEvent::Process { name: comm, .. } => comm_is_bytes(&comm),
        KernelEvent::CallIn { .. } | KernelEvent::CallOut { .. } | KernelEvent::Other { .. } => {
            are_bytes(name_of(names, event));
        }
        _ => {}
    }
}

fn comm_is_bytes(comm: &Comm)
    ensures { AreBytes comm.now }
{
    are_bytes(comm.as_bytes());
}

fn are_bytes(text: &[u8])
    ensures { AreBytes text.now }
{
    let _ = text;
}
