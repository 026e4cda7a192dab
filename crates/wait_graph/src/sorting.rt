//! Changes in the order of threads, and of places for each thread.
ghost use Rattle.std.specs.Prelude.{◌≡◌, IsPermutation};
ghost use Rattle.std.specs.List.Sorted.{IsNonDecreasingBy};
ghost use Rattle.wait_graph.specs.Changes.{change_order};

use crate::change::{Change, order};

/// Sorts changes by host, tid and place.
pub fn sort_changes(changes: &mut [Change])
    ensures permutation { IsPermutation changes.old changes.new }
    ensures sorted { IsNonDecreasingBy change_order changes.new }
{
    changes.sort_unstable_by_key(
        |change: &Change| -> u128
            ensures { result ≡ change_order change.now }
        { order(change.host, change.tid, change.place) },
    );
}
