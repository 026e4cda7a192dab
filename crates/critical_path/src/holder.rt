//! Who holds a thread up at a place.
ghost use Rattle.std.specs.Prelude.{◌≡◌, ◌<◌, ◌≤◌, ℕ, List, IfSome, length};
ghost use Rattle.critical_path.specs.Holder.{holds};
ghost use Rattle.critical_path.specs.declared.holder.Next.TheVariants.{Held};
ghost use Rattle.wait_graph.specs.declared.vertex.Link.TheVariants.{Net};
ghost use Rattle.critical_path.specs.Steps.{ForMerges, HasHolder, HoldsAfter, IsFollowedBy, IsNext, IsUnsent, IsUntil, IsWaitBy, IsWithin};
ghost use Rattle.wait_graph.specs.Graph.{HoldsPlace};
ghost use Rattle.wait_graph.specs.declared.vertex.ThreadState.TheVariants.{Blocked};
ghost use Rattle.trace_types.specs.declared.event.Merged.{Merged};
ghost use Rattle.host_merge.specs.declared.placed.Placed.{Placed};

use crate::piece::{Holder, What};
use wait_graph::{Link, ThreadState, Vertex, Waits};

/// A thread that is followed up to a place.
#[derive(Clone, Copy)]
pub struct Followed {
    host: u32,
    tid: u32,
    limit: u32,
}

/// Either somebody holds the thread up, or it waits for another.
#[derive(Clone, Copy)]
pub enum Next {
    Held(Holder),
    Waits(Followed),
}

/// A step that holds up to a place.
#[derive(Clone, Copy)]
struct Step {
    next: Next,
    until: u32,
}

/// Who holds a thread up, up to a place.
#[derive(Clone, Copy)]
pub struct HeldUntil {
    pub holder: Holder,
    pub until: u32,
}

/// Who holds a thread up after the event at a place, or before all events, where nobody knows.
pub fn held_after(graph: &Waits, host: u32, tid: u32, place: Option<u32>) -> HeldUntil
    requires thread { 1 ≤ tid }
    requires place { IfSome place (λ p. p < length graph.now.keys) }
    ensures until { IsUntil place result.until }
    ensures held { ForMerges graph.now (λ merged placed. HoldsAfter merged placed host tid place result.until result.holder) }
{
    match place {
        Some(place) => holder_at(graph, host, tid, place),
        None => HeldUntil {
            holder: holds(host, tid, What::Unknown),
            until: 0,
        },
    }
}

// Each further wait has a lower limit, so somebody holds the thread up.
fn holder_at(graph: &Waits, host: u32, tid: u32, place: u32) -> HeldUntil
    requires thread { 1 ≤ tid }
    requires place { place < length graph.now.keys }
    ensures until { place < result.until }
    ensures held { ForMerges graph.now (λ merged placed. (p : ℕ) → place ≤ p → p < result.until → HasHolder merged placed host tid p (length merged) result.holder) }
{
    graph.is_graph();
    let events = graph.events();
    let mut until = events;
    let mut followed = Followed {
        host,
        tid,
        limit: events,
    };
    loop {
        let step = follow(graph, followed, place);
        until = until.min(step.until);
        match step.next {
            Next::Held(holder) => return HeldUntil { holder, until },
            Next::Waits(next) => followed = next,
        }
    }
}

// This thread holds itself up.
fn holds(host: u32, tid: u32, what: What) -> Holder
    ensures { result ≡ holds host tid what }
{
    Holder { host, tid, what }
}

fn follow(graph: &Waits, followed: Followed, place: u32) -> Step
    requires thread { 1 ≤ followed.tid }
    requires place { place < length graph.now.keys }
    ensures until { place < result.until }
    ensures next { ForMerges graph.now (λ merged placed. (p : ℕ) → place ≤ p → p < result.until → IsNext merged placed p followed result.next) }
{
    let events = graph.events();
    let Some(number) = graph.segment(followed.host, followed.tid, place) else {
        return Step {
            next: held(followed, What::Unknown),
            until: place + 1,
        };
    };
    let vertex = graph.vertex(number);
    Step {
        next: by_state(followed, &vertex, place),
        until: until_of(&vertex, place, events),
    }
}

// The thread and its state stay up to the end of the stretch, and so does whom it waits for, but where a message is sent.
fn until_of(vertex: &Vertex, place: u32, events: u32) -> u32
    ensures later { HoldsPlace vertex.now place → place < events → place < result }
    ensures in_stretch { IsWithin vertex.now.end events result }
    ensures unsent { (p : ℕ) → p < result → IsUnsent place p vertex.now.link }
{
    let end = vertex.end.unwrap_or(events);
    match vertex.link {
        Link::Net { send, .. } if place < send && send < end => send,
        _ => end,
    }
}

fn held(followed: Followed, what: What) -> Next
    ensures { result ≡ Held (holds followed.host followed.tid what) }
{
    Next::Held(holds(followed.host, followed.tid, what))
}

fn by_state(followed: Followed, vertex: &Vertex, place: u32) -> Next
    ensures { (merged : List Merged) (placed : List Placed) (p : ℕ) → place ≤ p → IsUnsent place p vertex.now.link → IsFollowedBy merged placed p followed vertex.now → IsNext merged placed p followed result }
{
    match vertex.state {
        ThreadState::Running => held(followed, What::Running),
        ThreadState::Waiting => held(followed, What::Waiting),
        ThreadState::Unknown => held(followed, What::Unknown),
        ThreadState::Blocked => blocked(followed, vertex, place),
    }
}

// A wait that doesn't end by the limit is followed no further.
fn blocked(followed: Followed, vertex: &Vertex, place: u32) -> Next
    ensures { (merged : List Merged) (placed : List Placed) (p : ℕ) → place ≤ p → IsUnsent place p vertex.now.link → IsFollowedBy merged placed p followed vertex.now → vertex.now.state ≡ Blocked → IsNext merged placed p followed result }
{
    let Some(end) = vertex.end else {
        return held(followed, What::Unknown);
    };
    if end > followed.limit {
        return held(followed, What::Unknown);
    }
    waited(followed, vertex.link, place, end)
}

// A wait that ended at a place is followed to the waker, or to the sender up to its send.
fn waited(followed: Followed, link: Link, place: u32, end: u32) -> Next
    ensures { (merged : List Merged) (placed : List Placed) (p : ℕ) → place ≤ p → IsUnsent place p link → IsWaitBy merged placed p followed end link → IsNext merged placed p followed result }
{
    match link {
        Link::Thread { host, tid } => Next::Waits(Followed {
            host,
            tid,
            limit: end,
        }),
        Link::Net { host, tid, send } => sent(followed, host, tid, send, place, end),
        Link::Timer => held(followed, What::Timer),
        Link::Disk => held(followed, What::Disk),
        Link::Interrupt => held(followed, What::Interrupt),
        Link::Nobody | Link::Nothing => held(followed, What::Nobody),
    }
}

// From its send on a message is in transit.
fn sent(followed: Followed, host: u32, tid: u32, send: u32, place: u32, end: u32) -> Next
    ensures { (merged : List Merged) (placed : List Placed) (p : ℕ) → place ≤ p → (place < send → p < send) → IsWaitBy merged placed p followed end (Net host tid send) → IsNext merged placed p followed result }
{
    if place < send {
        Next::Waits(Followed {
            host,
            tid,
            limit: send,
        })
    } else {
        held(followed, What::Transit)
    }
}
