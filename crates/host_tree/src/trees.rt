//! The trees of the forest, each grown level by level.
ghost use Rattle.std.specs.Prelude.{◌≡◌, ◌+◌, ◌*◌, ◌<◌, ◌≤◌, ◌↔◌, IsTrue, IsSomeAnd, IfOk, count_by, is_none, length, replicate, slice_get};
ghost use Rattle.std.specs.List.{filter_map};
ghost use Rattle.std.specs.Option.{option_map};
ghost use Rattle.host_tree.specs.Forest.{AreParents};
ghost use Rattle.host_tree.specs.Places.{AreGrown, AreUnder};
ghost use Rattle.host_tree.specs.Rooted.{LeadToRoots};

use crate::place::Place;
use crate::{Parent, Parents};
use hull_lines::Fit;
use std::alloc::Global;
use trace_types::OutOfMemory;

/// The forest of the pairs whose fit is a map. From the least host on, each that no tree holds yet is the root of one; a tree
/// grows by levels, and of several hosts of one level that could be a host's parent, the least one is. The only error is lack
/// of memory.
pub fn forest(alloc: Global, hosts: u32, fits: &[Fit]) -> Result<Parents, OutOfMemory>
    requires few { hosts ≤ 64 }
    requires square { length fits.now ≡ hosts * hosts }
    ensures exact { IfOk result (λ parents. AreParents hosts fits.now parents.items) }
    ensures rooted { IfOk result (λ parents. LeadToRoots parents.items) }
{
    let mut places = vec![in alloc; None; hosts as usize]?;
    grow_forest(&mut places, hosts, fits);
    parents_of(alloc, &places)
}

fn grow_forest(places: &mut [Option<Place>], hosts: u32, fits: &[Fit])
    requires few { hosts ≤ 64 }
    requires square { length fits.now ≡ hosts * hosts }
    requires none { places.old ≡ replicate hosts None }
    ensures { AreGrown hosts fits.now hosts 0 places.new }
{
    for root in 0..hosts {
        if places[root as usize].is_none() {
            grow_tree(places, hosts, fits, root);
        }
    }
}

// A tree is done when a level brings no host into it.
fn grow_tree(places: &mut [Option<Place>], hosts: u32, fits: &[Fit], root: u32)
    requires few { hosts ≤ 64 }
    requires square { length fits.now ≡ hosts * hosts }
    requires root { root < hosts }
    requires free { slice_get places.old root ≡ Some None }
    requires grown { AreGrown hosts fits.now root 0 places.old }
    ensures { AreGrown hosts fits.now (root + 1) 0 places.new }
{
    places[root as usize] = Some(Place {
        root,
        level: 0,
        parent: Parent::Root,
    });
    let mut level = 0;
    while grow_level(places, hosts, fits, root, level) > 0 {
        level += 1;
    }
}

// Gives the hosts of the next level their places, and tells how many they are.
fn grow_level(places: &mut [Option<Place>], hosts: u32, fits: &[Fit], root: u32, level: u32) -> u32
    requires few { hosts ≤ 64 }
    requires square { length fits.now ≡ hosts * hosts }
    requires grown { AreGrown hosts fits.now root (level + 1) places.old }
    requires shallow { level < hosts }
    ensures grown { AreGrown hosts fits.now root (level + 2) places.new }
    ensures count { count_by is_none places.new + result ≡ count_by is_none places.old }
    ensures idle { result ≡ 0 → places.new ≡ places.old }
{
    let mut grown = 0;
    for parent in 0..hosts {
        if is_at(&places[parent as usize], root, level) {
            grown += place_children(places, hosts, fits, parent, root, level + 1);
        }
    }
    grown
}

fn is_at(place: &Option<Place>, root: u32, level: u32) -> bool
    ensures { IsTrue result ↔ IsSomeAnd place.now (λ p. (p.root ≡ root) × (p.level ≡ level)) }
{
    matches!(place, Some(place) if place.root == root && place.level == level)
}

// Gives the hosts that have no place yet and are usable from the parent one under it, and tells how many they are.
fn place_children(
    places: &mut [Option<Place>],
    hosts: u32,
    fits: &[Fit],
    parent: u32,
    root: u32,
    level: u32,
) -> u32
    requires few { hosts ≤ 64 }
    requires square { length fits.now ≡ hosts * hosts }
    requires parent { parent < hosts }
    requires places { length places.old ≡ hosts }
    ensures under { AreUnder hosts fits.now root level parent places.old places.new }
    ensures count { count_by is_none places.new + result ≡ count_by is_none places.old }
    ensures idle { result ≡ 0 → places.new ≡ places.old }
{
    let mut added = 0;
    for child in 0..hosts {
        let Fit::Map(map) = fits[(parent * hosts + child) as usize] else {
            continue;
        };
        if places[child as usize].is_some() {
            continue;
        }
        places[child as usize] = Some(Place {
            root,
            level,
            parent: Parent::Child { parent, map },
        });
        added += 1;
    }
    added
}

fn parents_of(alloc: Global, places: &[Option<Place>]) -> Result<Parents, OutOfMemory>
    ensures { IfOk result (λ parents. parents.items ≡ filter_map (option_map (λ place. place.parent)) places.now) }
{
    let parents = places
        .iter()
        .filter_map(|place| place.map(|place| place.parent))
        .collect(alloc)?;
    Ok(parents)
}
