//! All vertices of a merge, in order.
ghost use Rattle.std.specs.Prelude.{◌≡◌, ◌<◌, ◌≤◌, ◌^◌, ℕ, List, Some, IfOk, IsPermutation, length, slice_get};
ghost use Rattle.std.specs.List.Sorted.{IsNonDecreasingBy};
ghost use Rattle.trace_types.specs.declared.limits.TheConstants.{MAX_EVENTS};
ghost use Rattle.host_merge.specs.declared.placed.Placed.{Placed as PlacedMessage};
ghost use Rattle.wait_graph.specs.declared.change.Change.{Change as StateChange};
ghost use Rattle.wait_graph.specs.Graph.{AreVertices, IsMergeWithMessages};
ghost use Rattle.wait_graph.specs.Changes.{change_order, AreChanges};
ghost use Rattle.wait_graph.specs.Cuts.{Rises};
ghost use Rattle.wait_graph.specs.Moments.{HaveValues};
ghost use Rattle.wait_graph.specs.Places.{ArePlaces, HavePlaces};
ghost use Rattle.wait_graph.specs.Stretches.{AreUnwoven, AreVerticesOf};
ghost use Rattle.wait_graph.specs.Wakes.{wake_order, AllFit, AreWakes, AreWoven};
ghost use Rattle.wait_graph.specs.Whole.{AreInOrder};

use crate::Vertex;
use crate::change::Change;
use crate::changes::changes;
use crate::links::Places;
use crate::moment::Moment;
use crate::moments::{moments, sends_by_place};
use crate::sorting::sort_changes;
use crate::stretches::stretches;
use crate::wake::{Wake, sort_wakes};
use crate::weaving::{wakes, weave};
use host_merge::Placed;
use std::alloc::Global;
use trace_types::{Merged, OutOfMemory};

/// The vertices in the order of their threads and starts, and the waits in that of their wakers and ends.
#[derive(Drop)]
pub struct InOrder {
    pub vertices: Vec<Vertex>,
    pub wakes: Vec<Wake>,
}

/// The vertices of a merge and of the places of its messages. The only error is lack of memory.
pub fn ordered(alloc: Global, merged: &[Merged], placed: &[Placed]) -> Result<InOrder, OutOfMemory>
    requires { IsMergeWithMessages merged.now placed.now }
    ensures vertices { IfOk result (λ o. AreVertices merged.now placed.now o.vertices.items) }
    ensures order { IfOk result (λ o. AreInOrder o.vertices.items o.wakes.items) }
{
    let sends = sends_by_place(alloc, merged, placed)?;
    let moments = moments(alloc, merged, &sends)?;
    let places = Places {
        merged,
        moments: &moments,
        sends: &sends,
    };
    let mut vertices = all_stretches(alloc, &places)?;
    let wakes = ordered_wakes(alloc, &vertices)?;
    weave_all(&mut vertices, &wakes);
    Ok(InOrder { vertices, wakes })
}

fn all_stretches(alloc: Global, places: &Places) -> Result<Vec<Vertex>, OutOfMemory>
    requires places { HavePlaces places.now.merged.now places.now.moments.now places.now.sends.now }
    requires few { length places.now.merged.now ≤ MAX_EVENTS }
    ensures vertices { IfOk result (λ vertices. (cs : List StateChange) × (AreChanges places.now.merged.now (length places.now.merged.now) cs × (Rises change_order cs × ((placed : List PlacedMessage) → ArePlaces places.now.merged.now placed places.now.moments.now places.now.sends.now → AreVerticesOf places.now.merged.now placed cs vertices.items)))) }
    ensures unwoven { IfOk result (λ vertices. AreUnwoven vertices.items) }
    ensures few { IfOk result (λ vertices. length vertices.items < 2 ^ 31) }
{
    let changes = ordered_changes(alloc, places.merged, places.moments)?;
    stretches(alloc, &changes, places)
}

fn ordered_changes(
    alloc: Global,
    merged: &[Merged],
    moments: &[Moment],
) -> Result<Vec<Change>, OutOfMemory>
    requires few { length merged.now ≤ MAX_EVENTS }
    requires moments { HaveValues merged.now moments.now }
    ensures changes { IfOk result (λ changes. AreChanges merged.now (length merged.now) changes.items) }
    ensures rise { IfOk result (λ changes. Rises change_order changes.items) }
    ensures few { IfOk result (λ changes. length changes.items < 2 ^ 31) }
{
    let mut changes = changes(alloc, merged, moments)?;
    sort_all_changes(&mut changes);
    Ok(changes)
}

fn sort_all_changes(changes: &mut Vec<Change>)
    ensures permutation { IsPermutation changes.old.items changes.new.items }
    ensures sorted { IsNonDecreasingBy change_order changes.new.items }
{
    sort_changes(changes);
}

fn ordered_wakes(alloc: Global, vertices: &[Vertex]) -> Result<Vec<Wake>, OutOfMemory>
    requires few { length vertices.now < 2 ^ 31 }
    ensures wakes { IfOk result (λ wakes. AreWakes vertices.now (length vertices.now) wakes.items) }
    ensures sorted { IfOk result (λ wakes. IsNonDecreasingBy wake_order wakes.items) }
    ensures fit { IfOk result (λ wakes. AllFit wakes.items) }
    ensures few { IfOk result (λ wakes. length wakes.items < 2 ^ 31) }
{
    let mut wakes = wakes(alloc, vertices)?;
    sort_all_wakes(&mut wakes);
    Ok(wakes)
}

fn sort_all_wakes(wakes: &mut Vec<Wake>)
    ensures permutation { IsPermutation wakes.old.items wakes.new.items }
    ensures sorted { IsNonDecreasingBy wake_order wakes.new.items }
{
    sort_wakes(wakes);
}

fn weave_all(vertices: &mut Vec<Vertex>, wakes: &[Wake])
    requires wakes { AreWakes vertices.old.items (length vertices.old.items) wakes.now }
    requires few { length wakes.now < 2 ^ 31 }
    ensures { AreWoven wakes.now (length wakes.now) vertices.old.items vertices.new.items }
{
    weave(vertices, wakes);
}
