//! The places of each host's events in a merge.
ghost use Rattle.std.specs.Prelude.{◌≡◌, ◌<◌, ◌≤◌, ◌∷◌, ◌++◌, [], All, IfOk, OnOk, Some, length, replicate, slice_get};
ghost use Rattle.host_merge.specs.PlaceLists.{ArePlaceLists};
ghost use Rattle.trace_types.specs.declared.limits.TheConstants.{MAX_EVENTS};

use std::alloc::Global;
use std::marker::Model;
use trace_types::{Merged, OutOfMemory};

// Hosts' numbers lie below this.
const HOSTS: usize = 64;

/// The places of one host's events, in their order.
#[derive(Drop)]
pub struct PlaceList {
    places: Vec<u32>,
}

impl Model for PlaceList {
    ghost use Rattle.std.specs.Prelude.{ℕ, List};

    ghost Value = { List ℕ };

    ghost view = { λ l. l.places.items };
}

impl PlaceList {
    pub fn new(alloc: Global) -> Self
        ensures { result ≡ [] }
    {
        PlaceList {
            places: Vec::new(alloc),
        }
    }

    pub fn push(&mut self, place: u32) -> Result<(), OutOfMemory>
        ensures { OnOk result (self.new ≡ self.old ++ place ∷ []) }
    {
        self.places.push(place)?;
        Ok(())
    }

    /// The place of the host's event with this number.
    pub fn at(&self, number: u32) -> u32
        requires { number < length self.now }
        ensures { slice_get self.now number ≡ Some result }
    {
        self.places[number as usize]
    }
}

/// The places of all events, host by host.
pub fn place_lists(alloc: Global, merged: &[Merged]) -> Result<Vec<PlaceList>, OutOfMemory>
    requires small { length merged.now ≤ MAX_EVENTS }
    requires hosts { All (λ m. m.event.host < 64) merged.now }
    ensures { IfOk result (λ lists. ArePlaceLists merged.now (length merged.now) lists.items) }
{
    let mut lists = no_places(alloc)?;
    add_places(&mut lists, merged)?;
    Ok(lists)
}

fn no_places(alloc: Global) -> Result<Vec<PlaceList>, OutOfMemory>
    ensures { IfOk result (λ lists. lists.items ≡ replicate 64 []) }
{
    let mut lists = Vec::new(alloc);
    for _ in 0..HOSTS {
        lists.push(PlaceList::new(alloc))?;
    }
    Ok(lists)
}

fn add_places(lists: &mut Vec<PlaceList>, merged: &[Merged]) -> Result<(), OutOfMemory>
    requires small { length merged.now ≤ MAX_EVENTS }
    requires hosts { All (λ m. m.event.host < 64) merged.now }
    requires empty { lists.old.items ≡ replicate 64 [] }
    ensures { OnOk result (ArePlaceLists merged.now (length merged.now) lists.new.items) }
{
    for place in 0..merged.len() {
        lists[merged[place].event.host as usize].push(place as u32)?;
    }
    Ok(())
}
