//! The merge, from the deepest hosts up.
ghost use Rattle.std.specs.Prelude.{◌≡◌, ◌≢◌, ◌<◌, ◌∷◌, [], IfOk, OnOk, length, map, slice_get};
ghost use Rattle.std.specs.List.{flat_map};
ghost use Rattle.host_merge.specs.Depths.{AreDepths};
ghost use Rattle.host_merge.specs.Kept.{AreInTime, AreOwn, KeepsOrder};
ghost use Rattle.host_merge.specs.Lists.{AllAreTimed, AreBroughtUp, AreTimed, IsBroughtUp, own_lists, sorted_at};
ghost use Rattle.host_merge.specs.Merge.{HaveTimes, IsMergeOf, roots_of};
ghost use Rattle.host_tree.specs.Rooted.{LeadToRoots};
ghost use Rattle.trace_types.specs.Order.{RiseFrom};

use crate::depths::depths_of;
use crate::lists::MergedList;
use clock_fraction::PairMap;
use host_tree::{Parent, Parents};
use std::alloc::Global;
use std::mem;
use trace_types::{HostEvents, Merged, OutOfMemory};

/// All events of the hosts, each with its time on the clock of its tree's root as its key, in order of the keys. Where keys are
/// equal, a host's own events stand before those of its children, and children stand in the order of their numbers. The only
/// error is lack of memory.
pub fn merge(
    alloc: Global,
    forest: &Parents,
    hosts: &[HostEvents],
) -> Result<Vec<Merged>, OutOfMemory>
    requires counted { length forest.now.items ≡ length hosts.now }
    requires rooted { LeadToRoots forest.now.items }
    requires times { HaveTimes hosts.now }
    ensures exact { IfOk result (λ merged. IsMergeOf forest.now.items hosts.now merged.items) }
    ensures order { IfOk result (λ merged. RiseFrom 0 merged.items) }
    ensures times { IfOk result (λ merged. AreTimed merged.items) }
    ensures kept { AreOwn hosts.now → AreInTime hosts.now → IfOk result (λ merged. KeepsOrder hosts.now merged.items) }
{
    let depths = depths_of(alloc, forest)?;
    let mut lists = lists_of(alloc, hosts)?;
    bring_all_up(alloc, forest, &depths, &mut lists)?;
    let mut whole = join_roots(alloc, forest, &mut lists)?;
    whole.sort()?;
    whole.gather(alloc)
}

fn lists_of<'a>(alloc: Global, hosts: &'a [HostEvents]) -> Result<Vec<MergedList<'a>>, OutOfMemory>
    ensures { IfOk result (λ lists. lists.items ≡ own_lists hosts.now) }
{
    let mut lists = Vec::new(alloc);
    for host in hosts {
        lists.push(MergedList::own(alloc, host.events.as_slice())?)?;
    }
    Ok(lists)
}

// From the deepest level up, so that each list is whole when it is brought to its parent.
fn bring_all_up<'a>(
    alloc: Global,
    forest: &Parents,
    depths: &[usize],
    lists: &mut Vec<MergedList<'a>>,
) -> Result<(), OutOfMemory>
    requires counted { length forest.now.items ≡ length lists.old.items }
    requires rooted { LeadToRoots forest.now.items }
    requires depths { AreDepths forest.now.items depths.now }
    requires times { AllAreTimed lists.old.items }
    ensures up { OnOk result (AreBroughtUp forest.now.items lists.old.items lists.new.items) }
    ensures times { OnOk result (AllAreTimed lists.new.items) }
{
    let count = forest.len();
    let mut spare = MergedList::new(alloc);
    for step in 0..count {
        let depth = count - step;
        for host in 0..count {
            if depths[host] != depth {
                continue;
            }
            let Parent::Child { parent, map } = forest[host] else {
                continue;
            };
            bring_up(alloc, lists, host, parent as usize, &map, &mut spare)?;
        }
    }
    Ok(())
}

fn bring_up<'a>(
    alloc: Global,
    lists: &mut Vec<MergedList<'a>>,
    host: usize,
    parent: usize,
    map: &PairMap,
    spare: &mut MergedList<'a>,
) -> Result<(), OutOfMemory>
    requires host { host < length lists.old.items }
    requires parent { parent < length lists.old.items }
    requires apart { host ≢ parent }
    requires times { AllAreTimed lists.old.items }
    ensures { OnOk result (IsBroughtUp host parent map.now lists.old.items lists.new.items) }
{
    let list = mem::replace(&mut lists[host], MergedList::new(alloc));
    lists[parent].bring(list, map, spare)
}

fn join_roots<'a>(
    alloc: Global,
    forest: &Parents,
    lists: &mut Vec<MergedList<'a>>,
) -> Result<MergedList<'a>, OutOfMemory>
    requires counted { length forest.now.items ≡ length lists.old.items }
    requires times { AllAreTimed lists.old.items }
    ensures whole { IfOk result (λ whole. whole ≡ flat_map (sorted_at lists.old.items) (roots_of forest.now.items)) }
    ensures times { IfOk result (λ whole. AreTimed whole) }
{
    let mut whole = MergedList::new(alloc);
    for host in 0..forest.len() {
        let Parent::Root = forest[host] else {
            continue;
        };
        let mut list = mem::replace(&mut lists[host], MergedList::new(alloc));
        list.sort()?;
        whole.append(list)?;
    }
    Ok(whole)
}
