//! Events that repeat the one before: the header of each is one number, its id, which is the same, and nothing stands behind it.
ghost use Rattle.std.specs.Prelude.{◌≡◌, ℕ, ◌≤◌, ◌^◌, None, Some};
ghost use Rattle.packet_decoder.specs.Events.{cleared};
ghost use Rattle.packet_decoder.specs.EventReaders.{IsSeen, SingleFits, events_after, refusal, repeated_id};
ghost use Rattle.ctf_fields.specs.Fields.{Scopes};
ghost use Rattle.read_plan.specs.Singles.{end_of, single_read};

use crate::events::{Cursor, Packet};
use crate::passing::Seen;
use read_plan::SingleNumber;

/// Passes over all events from a cursor on that repeat the one that was looked up last, and keeps none: before the cursor that it
/// answers so many events were read.
#[inline(never)]
pub fn pass_repeated(
    packet: &Packet<'_>,
    header: SingleNumber,
    seen: Seen,
    first: Cursor,
    before: u64,
) -> (Cursor, u64)
    requires at { first.at ≤ 2 ^ 63 }
    requires before { before ≤ first.at }
    requires fits { SingleFits packet.now.meta.table packet.now.parts.event_header header }
    requires seen { IsSeen packet.now seen }
    ensures same { (scopes : Scopes) → refusal (events_after packet.now (cleared scopes) result.0 result.1) ≡ refusal (events_after packet.now (cleared scopes) first before) }
    ensures all { (id : ℕ) → repeated_id header seen first.clock ≡ Some id → end_of id (single_read packet.now.bytes packet.now.end header result.0.at) ≡ None }
    ensures within { (result.1 ≤ result.0.at) × (first.at ≤ result.0.at) × (result.0.at ≤ 2 ^ 63) }
{
    let Some(id) = repeated_id(header, seen, first.clock) else {
        return (first, before);
    };
    let clock = first.clock;
    let mut at = first.at;
    let mut read = before;
    while let Some(next) = header.end_of(packet.bits, id, at) {
        at = next;
        read += 1;
    }
    (Cursor { clock, at }, read)
}

// The id of the event that was looked up last, where an event of its id can only repeat it at this value of the clock.
fn repeated_id(header: SingleNumber, seen: Seen, clock: u64) -> Option<u64>
    ensures { result ≡ repeated_id header seen clock }
{
    let last = seen.last?;
    let timed = seen.timed?;
    if header.number.is_id && !header.number.is_timestamp && last.is_bare && timed == clock {
        Some(last.id)
    } else {
        None
    }
}
