//! Where messages stand in a merge.
ghost use Rattle.std.specs.Prelude.{◌≡◌, ◌<◌, ◌≤◌, ◌^◌, All, IfOk, count_by, length};
ghost use Rattle.host_merge.specs.PlaceLists.{ArePlaceLists};
ghost use Rattle.host_merge.specs.Placed.{ArePlaced, IsAmong, IsAt, inverted_among, is_of};
ghost use Rattle.trace_types.specs.declared.limits.TheConstants.{MAX_EVENTS};

use crate::Placed;
use crate::place_lists::{PlaceList, place_lists};
use message_match::{Message, Messages};
use std::alloc::Global;
use trace_types::{Merged, OutOfMemory};

/// Where the two events of each message stand in the merge of its hosts, in the order of the messages. The only error is lack
/// of memory.
pub fn place(
    alloc: Global,
    messages: &Messages,
    merged: &[Merged],
) -> Result<Vec<Placed>, OutOfMemory>
    requires small { length merged.now ≤ MAX_EVENTS }
    requires hosts { All (λ m. m.event.host < 64) merged.now }
    requires among { All (IsAmong merged.now) messages.now.matched.items }
    ensures { IfOk result (λ placed. ArePlaced merged.now messages.now.matched.items placed.items) }
{
    let lists = place_lists(alloc, merged)?;
    places_in(alloc, &messages.matched, merged, &lists)
}

fn places_in(
    alloc: Global,
    messages: &[Message],
    merged: &[Merged],
    lists: &[PlaceList],
) -> Result<Vec<Placed>, OutOfMemory>
    requires hosts { All (λ m. m.event.host < 64) merged.now }
    requires among { All (IsAmong merged.now) messages.now }
    requires lists { ArePlaceLists merged.now (length merged.now) lists.now }
    ensures { IfOk result (λ placed. ArePlaced merged.now messages.now placed.items) }
{
    let mut placed = Vec::new(alloc);
    for message in messages {
        placed.push(Placed {
            send: place_of(merged, lists, message.from, message.send),
            receive: place_of(merged, lists, message.to, message.receive),
        })?;
    }
    Ok(placed)
}

// The place of the host's event with this number.
fn place_of(merged: &[Merged], lists: &[PlaceList], host: u32, number: u32) -> u32
    requires hosts { All (λ m. m.event.host < 64) merged.now }
    requires there { number < count_by (is_of host) merged.now }
    requires lists { ArePlaceLists merged.now (length merged.now) lists.now }
    ensures { IsAt merged.now host number result }
{
    let _ = merged;
    lists[host as usize].at(number)
}

/// The numbers of the messages that were received, by the merge, before they were sent, ascending. The only error is lack of
/// memory.
pub fn inverted(alloc: Global, placed: &[Placed]) -> Result<Vec<u32>, OutOfMemory>
    requires { length placed.now < 2 ^ 32 }
    ensures { IfOk result (λ numbers. numbers.items ≡ inverted_among placed.now) }
{
    let mut numbers = Vec::new(alloc);
    for number in 0..placed.len() {
        if placed[number].receive < placed[number].send {
            numbers.push(number as u32)?;
        }
    }
    Ok(numbers)
}
