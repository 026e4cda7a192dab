//! Packets, decoded into their events.
ghost use Rattle.std.specs.Prelude.{◌≡◌, ◌≤◌, ◌^◌, Err, IfOk, length};
ghost use Rattle.packet_decoder.specs.Events.{decoded};
ghost use Rattle.packet_decoder.specs.Pieces.{LiesIn};
ghost use Rattle.packet_decoder.specs.declared.failure.Failure.TheVariants as failure;
ghost use Rattle.packet_decoder.specs.declared.piece.PacketResult.TheVariants as packet;
ghost use Rattle.trace_types.specs.declared.cause.Cause.{Cause};

use crate::failure::Failure;
use crate::piece::{PacketResult, PacketSpan};
use crate::reader::EventReader;
use ctf_fields::RawEvent;
use sqlite_items::Items;
use std::alloc::Global;
use trace_types::OutOfMemory;
use type_table::TraceMeta;

/// All events of a packet of a file, or the first cause for which it is refused.
pub fn decode(
    alloc: Global,
    meta: &TraceMeta,
    file: &[u8],
    span: &PacketSpan,
) -> Result<PacketResult, OutOfMemory>
    requires file { length file.now ≤ 2 ^ 60 }
    requires span { LiesIn file.now span.now }
    ensures { IfOk result (λ r. r ≡ decoded meta.now file.now span.now) }
{
    match all_events(alloc, meta, file, span) {
        Ok(events) => Ok(PacketResult::Events(events)),
        Err(Failure::Refused(cause)) => Ok(PacketResult::Refused { cause }),
        Err(Failure::OutOfMemory) => Err(OutOfMemory),
    }
}

// The events of a packet, of which none is refused.
fn all_events(
    alloc: Global,
    meta: &TraceMeta,
    file: &[u8],
    span: &PacketSpan,
) -> Result<Items<RawEvent>, Failure>
    requires file { length file.now ≤ 2 ^ 60 }
    requires span { LiesIn file.now span.now }
    ensures events { IfOk result (λ events. decoded meta.now file.now span.now ≡ packet.Events events) }
    ensures refused { (cause : Cause) → result ≡ Err (failure.Refused cause) → decoded meta.now file.now span.now ≡ packet.Refused cause }
{
    let mut reader = EventReader::open(alloc, meta, file, span)?;
    let mut events = Items::new(alloc);
    while let Some(event) = reader.next_event(alloc)? {
        events.push(event)?;
    }
    Ok(events)
}
