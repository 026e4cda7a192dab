//! What the files of a host give together.
ghost use Rattle.std.specs.Prelude.{◌≡◌, ◌≤◌, ◌+◌, ◌^◌, ◌++◌, [], IfErr, IfOk, OnOk, length};
ghost use Rattle.decode_pool.specs.Excess.{events_in};
ghost use Rattle.decode_pool.specs.Hosts.{incomplete_in, refused_in};
ghost use Rattle.decode_pool.specs.Marks.{file_events, accepted_in};

use crate::decoded_packet::{DecodedPacket, part_events};
use crate::listing::add_file_events;
use std::alloc::Global;
use trace_types::{Event, HostEvents, OutOfMemory, RefusedPacket, Text};

/// No events yet, with room for those of all of these parts and a mark before those of each.
pub fn with_room(alloc: Global, parts: &[DecodedPacket]) -> Result<Vec<Event>, OutOfMemory>
    ensures { IfOk result (λ events. events.items ≡ []) }
{
    Ok(Vec::with_capacity(alloc, most_listed(parts)?)?)
}

// How many events parts give at most, with a mark before those of each.
fn most_listed(parts: &[DecodedPacket]) -> Result<usize, OutOfMemory>
    ensures { IfOk result (λ n. n ≡ events_in parts.now + length parts.now) }
{
    let mut events = parts.len() as u64;
    for part in parts {
        events = sum(events, part_events(part))?;
    }
    Ok(events as usize)
}

/// Adds what the pieces of one more file of a host hold, whose events stay in the order of the files.
pub fn add_parts(
    alloc: Global,
    name: &Text,
    parts: &[DecodedPacket],
    gathered: &mut HostEvents,
) -> Result<(), OutOfMemory>
    ensures host { OnOk result ((gathered.new.host ≡ gathered.old.host) × (gathered.new.hostname ≡ gathered.old.hostname) × (gathered.new.names ≡ gathered.old.names)) }
    ensures events { OnOk result (gathered.new.events.items ≡ gathered.old.events.items ++ file_events parts.now) }
    ensures refused { OnOk result (gathered.new.refused.items ≡ gathered.old.refused.items ++ refused_in name.now parts.now) }
    ensures packets { OnOk result (gathered.new.packets ≡ gathered.old.packets + length (accepted_in parts.now)) }
    ensures incomplete { OnOk result (gathered.new.incomplete ≡ gathered.old.incomplete + incomplete_in (accepted_in parts.now)) }
{
    add_file_events(parts, &mut gathered.events)?;
    for part in parts {
        match part {
            DecodedPacket::Accepted(kept) => {
                gathered.packets = sum(gathered.packets, 1)?;
                gathered.incomplete = sum(gathered.incomplete, kept.incomplete)?;
            }
            DecodedPacket::Refused { offset, cause } => {
                let file = Text::from_bytes(alloc, name.as_bytes())?;
                gathered.refused.push(RefusedPacket {
                    file,
                    offset: *offset,
                    cause: *cause,
                })?;
            }
        }
    }
    Ok(())
}

/// The sum of two counts. It is refused where it passes 64 bits, and no memory holds so many things.
pub fn sum(a: u64, b: u64) -> Result<u64, OutOfMemory>
    ensures sum { IfOk result (λ n. n ≡ a + b) }
    ensures full { IfErr result (λ error. 2 ^ 64 ≤ a + b) }
{
    match a.checked_add(b) {
        Some(sum) => Ok(sum),
        None => Err(OutOfMemory),
    }
}
