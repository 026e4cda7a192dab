//! The events of a file, with marks where some are missing.
ghost use Rattle.std.specs.Prelude.{◌≡◌, ◌++◌, IfOk, OnOk};
ghost use Rattle.decode_pool.specs.Marks.{added, plus_lost, counts_of, file_events, accepted_in, left, listed, mark, no_counts, nothing_lost};

use crate::decoded_packet::{AcceptedPacket, DecodedPacket};
use crate::lost_events::{Counts, LostEvents, plus_lost};
use trace_types::{Event, KernelEvent, OutOfMemory};

const NOTHING_LOST: LostEvents = LostEvents {
    events: 0,
    gap: false,
};

/// Adds the events of a file's accepted packets, one after the other. Where events of a processor are missing before
/// a packet, a mark of it stands before the packet's first event.
pub fn add_file_events(parts: &[DecodedPacket], events: &mut Vec<Event>) -> Result<(), OutOfMemory>
    ensures { OnOk result (events.new.items ≡ events.old.items ++ file_events parts.now) }
{
    let mut before = Counts {
        seq: None,
        discarded: None,
    };
    let mut lost = NOTHING_LOST;
    for part in parts {
        if let DecodedPacket::Accepted(kept) = part {
            let now = counts_of(kept);
            lost = add_packet(kept, plus_lost(lost, before, now), events)?;
            before = now;
        }
    }
    Ok(())
}

fn counts_of(kept: &AcceptedPacket) -> Counts
    ensures { result ≡ counts_of kept.now }
{
    Counts {
        seq: kept.seq,
        discarded: kept.discarded,
    }
}

// Adds the events of a packet, after a mark of what is missing before it, and tells what is missing after it.
fn add_packet(
    kept: &AcceptedPacket,
    lost: LostEvents,
    events: &mut Vec<Event>,
) -> Result<LostEvents, OutOfMemory>
    ensures events { OnOk result (events.new.items ≡ events.old.items ++ added kept.now lost) }
    ensures left { IfOk result (λ l. l ≡ left kept.now lost) }
{
    let Some(first) = kept.events.as_slice().first() else {
        return Ok(lost);
    };
    if lost != NOTHING_LOST {
        events.push(Event {
            time: first.time,
            host: first.host,
            cpu: kept.cpu,
            kind: KernelEvent::Lost {
                events: lost.events,
                gap: lost.gap,
            },
        })?;
    }
    events.extend_from_slice(kept.events.as_slice())?;
    Ok(NOTHING_LOST)
}
