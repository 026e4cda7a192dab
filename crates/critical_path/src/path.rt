//! The pieces of a window.
ghost use Rattle.std.specs.Prelude.{◌≡◌, ◌<◌, ◌≤◌, ◌^◌, ◌↔◌, ℕ, All, Contains, Err, IfOk, IsTrue, List, Option};
ghost use Rattle.trace_types.specs.declared.event.Merged.{Merged};
ghost use Rattle.host_merge.specs.declared.placed.Placed.{Placed};
ghost use Rattle.wait_graph.specs.Graph.{IsGraphOf, IsMergeWithMessages};
ghost use Rattle.critical_path.specs.declared.path.PathError.TheVariants.{NoThread};
ghost use Rattle.critical_path.specs.Pieces.{holder_of, Advances, AreTiles, IsCriticalPath, NeighboursDiffer};
ghost use Rattle.critical_path.specs.Steps.{IsHeld, IsPlaceAt, IsPlaceFrom, IsUntil};

use crate::holder::{HeldUntil, held_after};
use crate::piece::PathPiece;
use std::alloc::Global;
use trace_types::OutOfMemory;
use wait_graph::Waits;

/// Why there is no path: no event names the thread, or memory ran out.
#[derive(Clone, Copy, Debug, PartialEq, Eq)]
pub enum PathError {
    NoThread,
    OutOfMemory,
}

impl From<OutOfMemory> for PathError {
    ghost use Rattle.std.specs.Prelude.{◌≡◌};
    ghost use Rattle.critical_path.specs.declared.path.PathError.TheVariants.{OutOfMemory};

    ghost from_gives = { λ _ e. e ≡ OutOfMemory };

    fn from(_: OutOfMemory) -> PathError {
        PathError::OutOfMemory
    }
}

/// The critical path of a thread over a window, in ns: who holds it up at each instant from `from` on, up to `to`. The
/// errors are `NoThread` where no event names the thread, and lack of memory.
pub fn critical(
    alloc: Global,
    graph: &Waits,
    host: u32,
    tid: u32,
    from: u64,
    to: u64,
) -> Result<Vec<PathPiece>, PathError>
    requires tid { 1 ≤ tid }
    requires window { from < to }
    requires end { to < 2 ^ 62 }
    ensures path { IfOk result (λ pieces. (merged : List Merged) (placed : List Placed) → IsMergeWithMessages merged placed → IsGraphOf merged placed graph.now → IsCriticalPath merged placed host tid from to pieces.items) }
    ensures named { IfOk result (λ _. Contains graph.now.named (record { host = host; tid = tid })) }
    ensures no_thread { result ≡ Err NoThread → ¬ Contains graph.now.named (record { host = host; tid = tid }) }
    ensures unnamed { ¬ Contains graph.now.named (record { host = host; tid = tid }) → result ≡ Err NoThread }
{
    if !graph.names(host, tid) {
        return Err(PathError::NoThread);
    }
    Ok(pieces(alloc, graph, host, tid, from, to)?)
}

fn pieces(
    alloc: Global,
    graph: &Waits,
    host: u32,
    tid: u32,
    from: u64,
    to: u64,
) -> Result<Vec<PathPiece>, OutOfMemory>
    requires tid { 1 ≤ tid }
    requires window { from < to }
    ensures tiles { IfOk result (λ pieces. AreTiles from to pieces.items) }
    ensures differ { IfOk result (λ pieces. NeighboursDiffer pieces.items) }
    ensures held { IfOk result (λ pieces. All (IsHeld graph.now host tid) pieces.items) }
{
    let mut pieces = Vec::new(alloc);
    let mut last = piece_from(graph, host, tid, from, to);
    while last.to < to {
        let next = piece_from(graph, host, tid, last.to, to);
        last = advance(&mut pieces, last, next)?;
    }
    pieces.push(last)?;
    Ok(pieces)
}

// The piece from an instant up to where the holder may change, or the end of the window.
fn piece_from(graph: &Waits, host: u32, tid: u32, start: u64, to: u64) -> PathPiece
    requires tid { 1 ≤ tid }
    requires window { start < to }
    ensures from { result.from ≡ start }
    ensures later { start < result.to }
    ensures within { result.to ≤ to }
    ensures held { IsHeld graph.now host tid result }
{
    let place = graph.place_at(start);
    let HeldUntil { holder, until } = held_after(graph, host, tid, place);
    PathPiece {
        from: start,
        to: end_of(graph, until, to),
        host: holder.host,
        tid: holder.tid,
        what: holder.what,
    }
}

// The key at a place, or the end of the window.
fn end_of(graph: &Waits, until: u32, to: u64) -> u64
    ensures later { (start : ℕ) (place : Option ℕ) → start < to → IsPlaceAt graph.now.keys start place → IsUntil place until → start < result }
    ensures within { result ≤ to }
    ensures still { (start : ℕ) (place : Option ℕ) → IsPlaceAt graph.now.keys start place → IsUntil place until → (t : ℕ) → start ≤ t → t < result → IsPlaceFrom graph.now.keys t place until }
{
    graph.is_graph();
    if until >= graph.events() {
        return to;
    }
    graph.key(until).min(to)
}

// The last piece grows by the next one where one thread holds both; else the next one is the last.
fn advance(
    pieces: &mut Vec<PathPiece>,
    last: PathPiece,
    next: PathPiece,
) -> Result<PathPiece, OutOfMemory>
    ensures { IfOk result (λ o. Advances pieces.old.items last next pieces.new.items o) }
{
    if have_one_holder(&last, &next) {
        return Ok(PathPiece {
            from: last.from,
            to: next.to,
            host: last.host,
            tid: last.tid,
            what: last.what,
        });
    }
    pieces.push(last)?;
    Ok(next)
}

fn have_one_holder(a: &PathPiece, b: &PathPiece) -> bool
    ensures { IsTrue result ↔ (holder_of a.now ≡ holder_of b.now) }
{
    a.host == b.host && a.tid == b.tid && a.what == b.what
}
