//! The pieces of a file with what they hold.
ghost use Rattle.std.specs.Prelude.{◌≡◌, ◌≤◌, ◌<◌, ◌+◌, ◌^◌, [], Ok, Err, None, Some, IfNone, IfOk, IfSome, length};
ghost use Rattle.ctf_fields.specs.declared.raw.RawEvent.{RawEvent};
ghost use Rattle.kernel_layout.specs.Tracepoints.{layout_of, skips_of};
ghost use Rattle.packet_decoder.specs.EventReaders.{IsReadAs, and_before, events_left, refusal};
ghost use Rattle.packet_decoder.specs.Events.{as_packet, decoded};
ghost use Rattle.packet_decoder.specs.Pieces.{LiesIn, PieceLiesIn};
ghost use Rattle.packet_decoder.specs.declared.failure.Failure.TheVariants as failure;
ghost use Rattle.packet_decoder.specs.declared.piece.PacketResult.TheVariants as packet;
ghost use Rattle.trace_types.specs.declared.cause.Cause.{Cause};
ghost use Rattle.decode_pool.specs.Excess.{part_events, part_within};
ghost use Rattle.decode_pool.specs.Parts.{made_of, part_by, part_of, part_of_packet};
ghost use Rattle.decode_pool.specs.declared.decoded_packet.DecodedPacket.TheVariants as part;

use kernel_layout::{Layout, kind_from};
use packet_decoder::{Counter, EventReader, Failure, PacketSpan, Piece, ReadEvent};
use sqlite_items::Items;
use std::alloc::Global;
use trace_types::{Cause, Event, OutOfMemory};
use type_table::TraceMeta;

/// A packet that was accepted: the processor that wrote it, its number and its count of lost events, its events with
/// the host's own times, and how many of these lack a field that their names call for.
#[derive(Debug, Drop)]
pub struct AcceptedPacket {
    pub cpu: u32,
    pub seq: Option<Counter>,
    pub discarded: Option<Counter>,
    pub events: Items<Event>,
    pub incomplete: u64,
}

/// A piece of a file: a packet that was accepted, or one that was refused, or the rest of the file, from this byte on.
#[derive(Debug, Drop)]
pub enum DecodedPacket {
    Accepted(AcceptedPacket),
    Refused { offset: u64, cause: Cause },
}

/// What a piece of a file holds, and none where it is a packet with more than `most` events. `layout` is that of the
/// trace.
#[tactic(auto, unfolding(crate::specs::Parts::part_of))]
pub fn part_within(
    alloc: Global,
    most: u64,
    host: u32,
    meta: &TraceMeta,
    layout: &Layout,
    file: &[u8],
    piece: &Piece,
) -> Result<Option<DecodedPacket>, OutOfMemory>
    requires layout { layout.now ≡ layout_of meta.now }
    requires file { length file.now ≤ 2 ^ 60 }
    requires piece { PieceLiesIn file.now piece.now }
    ensures { IfOk result (λ part. part ≡ part_within most (part_of host meta.now file.now piece.now)) }
{
    match piece {
        Piece::Packet(span) => packet_within(alloc, most, host, meta, layout, file, span),
        Piece::Bad { offset, cause } => Ok(Some(DecodedPacket::Refused {
            offset: *offset,
            cause: *cause,
        })),
    }
}

fn packet_within(
    alloc: Global,
    most: u64,
    host: u32,
    meta: &TraceMeta,
    layout: &Layout,
    file: &[u8],
    span: &PacketSpan,
) -> Result<Option<DecodedPacket>, OutOfMemory>
    requires layout { layout.now ≡ layout_of meta.now }
    requires file { length file.now ≤ 2 ^ 60 }
    requires span { LiesIn file.now span.now }
    ensures { IfOk result (λ part. part ≡ part_within most (part_of_packet host meta.now file.now span.now)) }
{
    match accept_packet(alloc, most, host, meta, layout, file, span) {
        Ok(Some(kept)) => Ok(Some(DecodedPacket::Accepted(kept))),
        Ok(None) => Ok(None),
        Err(Failure::Refused(cause)) => Ok(Some(DecodedPacket::Refused {
            offset: span.offset,
            cause,
        })),
        Err(Failure::OutOfMemory) => Err(OutOfMemory),
    }
}

// Before the first event of a packet. Its context and the headers of its events are read by plans where there are any that fit
// them.
fn open_planned<'a>(
    alloc: Global,
    meta: &'a TraceMeta,
    layout: &Layout,
    file: &'a [u8],
    span: &PacketSpan,
) -> Result<EventReader<'a>, Failure>
    requires layout { layout.now ≡ layout_of meta.now }
    requires file { length file.now ≤ 2 ^ 60 }
    requires span { LiesIn file.now span.now }
    ensures opened { IfOk result (λ r. decoded meta.now file.now span.now ≡ as_packet (events_left r)) }
    ensures first { IfOk result (λ r. r.read ≡ 0) }
    ensures within { IfOk result (λ r. r.within.meta ≡ meta.now) }
    ensures refused { (cause : Cause) → result ≡ Err (failure.Refused cause) → decoded meta.now file.now span.now ≡ packet.Refused cause }
{
    let mut reader = EventReader::open_known(alloc, meta, layout.contexts(meta), file, span)?;
    plan_headers(alloc, meta, layout, &mut reader)?;
    Ok(reader)
}

// Lets headers be read by a plan, where no type looks into them.
fn plan_headers(
    alloc: Global,
    meta: &TraceMeta,
    layout: &Layout,
    reader: &mut EventReader<'_>,
) -> Result<(), OutOfMemory>
    requires layout { layout.now ≡ layout_of meta.now }
    requires within { reader.old.within.meta ≡ meta.now }
    ensures { reader.new ≡ reader.old }
{
    reader.plan_headers(alloc, layout.lone(meta))
}

// A packet with its events. Fields that no kind needs, or that are read by a plan, are passed over. Where there are more than
// `most`, the packet is read to its end all the same, since it may be refused there.
fn accept_packet(
    alloc: Global,
    most: u64,
    host: u32,
    meta: &TraceMeta,
    layout: &Layout,
    file: &[u8],
    span: &PacketSpan,
) -> Result<Option<AcceptedPacket>, Failure>
    requires layout { layout.now ≡ layout_of meta.now }
    requires file { length file.now ≤ 2 ^ 60 }
    requires span { LiesIn file.now span.now }
    ensures kept { IfOk result (λ r. IfSome r (λ k. part_of_packet host meta.now file.now span.now ≡ part.Accepted k)) }
    ensures within { IfOk result (λ r. IfSome r (λ k. length k.events ≤ most)) }
    ensures more { IfOk result (λ r. IfNone r (part_within most (part_of_packet host meta.now file.now span.now) ≡ None)) }
    ensures refused { (cause : Cause) → result ≡ Err (failure.Refused cause) → part_of_packet host meta.now file.now span.now ≡ part.Refused span.now.offset cause }
{
    let reader = open_planned(alloc, meta, layout, file, span)?;
    accept_events(alloc, most, host, meta, layout, span, reader)
}

// The packet before whose first event the reader stands.
fn accept_events(
    alloc: Global,
    most: u64,
    host: u32,
    meta: &TraceMeta,
    layout: &Layout,
    span: &PacketSpan,
    mut reader: EventReader<'_>,
) -> Result<Option<AcceptedPacket>, Failure>
    requires layout { layout.now ≡ layout_of meta.now }
    requires first { reader.read ≡ 0 }
    requires reader { reader.within.meta ≡ meta.now }
    ensures kept { IfOk result (λ r. IfSome r (λ k. part_by host meta.now span.now (as_packet (events_left reader.entry)) ≡ part.Accepted k)) }
    ensures within { IfOk result (λ r. IfSome r (λ k. length k.events ≤ most)) }
    ensures more { IfOk result (λ r. IfNone r (part_within most (part_by host meta.now span.now (as_packet (events_left reader.entry))) ≡ None)) }
    ensures refused { (cause : Cause) → result ≡ Err (failure.Refused cause) → part_by host meta.now span.now (as_packet (events_left reader.entry)) ≡ part.Refused span.now.offset cause }
{
    match take_events(alloc, most, host, meta, layout, span, &mut reader) {
        Ok(None) => match reader.skip_rest(alloc, layout.skips(meta)) {
            Ok(()) => Ok(None),
            Err(failure) => Err(failure),
        },
        found => found,
    }
}

// The packet, where it has at most `most` events; none where the reader has read one more, and then stands behind that.
fn take_events(
    alloc: Global,
    most: u64,
    host: u32,
    meta: &TraceMeta,
    layout: &Layout,
    span: &PacketSpan,
    reader: &mut EventReader<'_>,
) -> Result<Option<AcceptedPacket>, Failure>
    requires layout { layout.now ≡ layout_of meta.now }
    requires first { reader.old.read ≡ 0 }
    requires reader { reader.old.within.meta ≡ meta.now }
    ensures kept { IfOk result (λ r. IfSome r (λ k. part_by host meta.now span.now (as_packet (events_left reader.old)) ≡ part.Accepted k)) }
    ensures within { IfOk result (λ r. IfSome r (λ k. length k.events ≤ most)) }
    ensures more { IfOk result (λ r. IfNone r (refusal (events_left reader.new) ≡ None → part_within most (part_by host meta.now span.now (as_packet (events_left reader.old))) ≡ None)) }
    ensures rest { IfOk result (λ r. IfNone r ((cause : Cause) → refusal (events_left reader.new) ≡ Some cause → part_by host meta.now span.now (as_packet (events_left reader.old)) ≡ part.Refused span.now.offset cause)) }
    ensures reader { IfOk result (λ r. IfNone r (reader.new.within.meta ≡ meta.now)) }
    ensures refused { (cause : Cause) → result ≡ Err (failure.Refused cause) → part_by host meta.now span.now (as_packet (events_left reader.old)) ≡ part.Refused span.now.offset cause }
{
    let mut events = Items::new(alloc);
    let mut incomplete = 0u64;
    while let Some((event, lacks)) = next_made(alloc, host, meta, layout, reader)? {
        if events.len() as u64 >= most {
            return Ok(None);
        }
        events.push(event)?;
        incomplete += u64::from(lacks);
    }
    Ok(Some(AcceptedPacket {
        cpu: span.cpu,
        seq: span.seq,
        discarded: span.discarded,
        events,
        incomplete,
    }))
}

// The next event, made a kernel event, and whether it lacks a field that its name calls for. Its fields' memory is used again.
#[inline(always)]
fn next_made(
    alloc: Global,
    host: u32,
    meta: &TraceMeta,
    layout: &Layout,
    reader: &mut EventReader<'_>,
) -> Result<Option<(Event, bool)>, Failure>
    requires layout { layout.now ≡ layout_of meta.now }
    requires reader { reader.old.within.meta ≡ meta.now }
    ensures none { IfOk result (λ next. IfNone next (events_left reader.old ≡ Ok [])) }
    ensures some { IfOk result (λ next. IfSome next (λ made. (whole : RawEvent) × (made ≡ made_of host meta.now whole) × (events_left reader.old ≡ and_before whole (events_left reader.new)))) }
    ensures counts { IfOk result (λ next. IfSome next (λ made. (reader.new.read ≡ reader.old.read + 1) × (reader.new.read ≤ 2 ^ 63) × (reader.old.read < reader.old.within.end))) }
    ensures within { IfOk result (λ next. IfSome next (λ made. reader.new.within ≡ reader.old.within)) }
    ensures refused { (cause : Cause) → result ≡ Err (failure.Refused cause) → events_left reader.old ≡ Err cause }
{
    let skips = layout.skips(meta);
    match reader.next_event_of(alloc, skips)? {
        Some(read) => Ok(Some(made_event(host, meta, layout, reader, read))),
        None => Ok(None),
    }
}

// An event that was read, made a kernel event, and whether it lacks a field.
#[inline(always)]
fn made_event(
    host: u32,
    meta: &TraceMeta,
    layout: &Layout,
    reader: &mut EventReader<'_>,
    read: ReadEvent,
) -> (Event, bool)
    requires layout { layout.now ≡ layout_of meta.now }
    requires reader { reader.old.within.meta ≡ meta.now }
    ensures made { (whole : RawEvent) → IsReadAs reader.old.within.meta reader.old.within.bytes reader.old.within.end (skips_of meta.now) whole read → result ≡ made_of host meta.now whole }
    ensures reader { reader.new ≡ reader.old }
{
    let ReadEvent { raw, fields_at } = read;
    let (kind, lacks) = kind_from(meta, layout, &raw, reader.bits(), fields_at);
    let event = Event {
        time: raw.time,
        host,
        cpu: raw.cpu,
        kind,
    };
    reader.recycle(raw.fields);
    (event, lacks)
}

/// How many events a piece holds.
pub fn part_events(part: &DecodedPacket) -> u64
    ensures { result ≡ part_events part.now }
{
    match part {
        DecodedPacket::Accepted(kept) => kept.events.len() as u64,
        DecodedPacket::Refused { .. } => 0,
    }
}
