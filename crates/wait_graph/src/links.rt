//! What ended a wait.
ghost use Rattle.std.specs.Prelude.{◌≡◌, ◌<◌, ℕ, List, Some, IfSome, length, slice_get};
ghost use Rattle.trace_types.specs.declared.event.Merged.{Merged};
ghost use Rattle.host_merge.specs.declared.placed.Placed.{Placed as PlacedMessage};
ghost use Rattle.wait_graph.specs.Links.{thread_link, wakes, IsLinkAt, IsNetLink, IsSoftLink, IsWakeLink};
ghost use Rattle.wait_graph.specs.Places.{sender_link, ArePlaces, HavePlaces};
ghost use Rattle.wait_graph.specs.Moments.{value_of, HasReceived};

use crate::Link;
use crate::moment::Moment;
use trace_types::{KernelEvent, Merged};

/// A merge with what is known of each of its places: the moments before the events, and for each place where a matched
/// message was received the place of its send.
#[derive(Clone, Copy)]
pub struct Places<'a> {
    pub merged: &'a [Merged],
    pub moments: &'a [Moment],
    pub sends: &'a [Option<u32>],
}

/// What ended a wait of the thread at a place.
pub fn link_at(places: &Places, tid: u32, end: u32) -> Link
    requires places { HavePlaces places.now.merged.now places.now.moments.now places.now.sends.now }
    requires within { end < length places.now.merged.now }
    ensures { (placed : List PlacedMessage) (e : Merged) → ArePlaces places.now.merged.now placed places.now.moments.now places.now.sends.now → slice_get places.now.merged.now end ≡ Some e → IsLinkAt places.now.merged.now placed e.event.host tid end result }
{
    let event = &places.merged[end as usize].event;
    if !wakes(tid, &event.kind) {
        return Link::Nobody;
    }
    wake_link(places, event.host, tid, places.moments[end as usize])
}

// Where a thread was woken on a processor at this moment.
fn wake_link(places: &Places, host: u32, tid: u32, moment: Moment) -> Link
    requires places { HavePlaces places.now.merged.now places.now.moments.now places.now.sends.now }
    requires received { IfSome moment.receive (λ r. r < length places.now.sends.now) }
    ensures { (placed : List PlacedMessage) (cpu end : ℕ) → ArePlaces places.now.merged.now placed places.now.moments.now places.now.sends.now → HasReceived places.now.merged.now placed end host cpu moment.receive → IsWakeLink places.now.merged.now placed host tid cpu end (value_of moment.irq) (value_of moment.softirq) moment.thread result }
{
    if moment.irq.is_some() {
        return Link::Interrupt;
    }
    match moment.softirq {
        None => thread_link(host, tid, moment.thread),
        Some(vec) => soft_link(places, vec, moment.receive),
    }
}

fn soft_link(places: &Places, vec: u32, receive: Option<u32>) -> Link
    requires places { HavePlaces places.now.merged.now places.now.moments.now places.now.sends.now }
    requires received { IfSome receive (λ r. r < length places.now.sends.now) }
    ensures { (placed : List PlacedMessage) (host cpu end : ℕ) → ArePlaces places.now.merged.now placed places.now.moments.now places.now.sends.now → HasReceived places.now.merged.now placed end host cpu receive → IsSoftLink places.now.merged.now placed host cpu end vec result }
{
    match vec {
        1 | 8 => Link::Timer,
        4 => Link::Disk,
        3 => net_link(places, receive),
        _ => Link::Interrupt,
    }
}

fn net_link(places: &Places, receive: Option<u32>) -> Link
    requires places { HavePlaces places.now.merged.now places.now.moments.now places.now.sends.now }
    requires received { IfSome receive (λ r. r < length places.now.sends.now) }
    ensures { (placed : List PlacedMessage) (host cpu end : ℕ) → ArePlaces places.now.merged.now placed places.now.moments.now places.now.sends.now → HasReceived places.now.merged.now placed end host cpu receive → IsNetLink places.now.merged.now placed host cpu end result }
{
    let Some(receive) = receive else {
        return Link::Interrupt;
    };
    let Some(send) = places.sends[receive as usize] else {
        return Link::Interrupt;
    };
    let moment = places.moments[send as usize];
    sender_link(moment.thread, places.merged[send as usize].event.host, send)
}

fn sender_link(thread: Option<u32>, host: u32, send: u32) -> Link
    ensures { result ≡ sender_link thread host send }
{
    match thread {
        Some(tid) if tid != 0 => Link::Net { host, tid, send },
        _ => Link::Interrupt,
    }
}

fn thread_link(host: u32, tid: u32, running: Option<u32>) -> Link
    ensures { result ≡ thread_link host tid running }
{
    match running {
        None => Link::Nobody,
        Some(running) if running == tid => Link::Nobody,
        Some(0) => Link::Interrupt,
        Some(running) => Link::Thread { host, tid: running },
    }
}

fn wakes(tid: u32, kind: &KernelEvent) -> bool
    ensures { result ≡ wakes tid kind.now }
{
    match *kind {
        KernelEvent::Wakeup { tid: woken, .. } => woken == tid,
        KernelEvent::WakeupNew { tid: woken, .. } => woken == tid,
        KernelEvent::Waking { tid: woken, .. } => woken == tid,
        _ => false,
    }
}
