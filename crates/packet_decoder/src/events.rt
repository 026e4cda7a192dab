//! The events of a packet.
ghost use Rattle.std.specs.Prelude.{◌≡◌, ◌≤◌, ◌<◌, ◌%◌, ◌^◌, ◌++◌, None, Some, option_map, slice_get, IfOk, OnOk, IfSome, [], ◌∷◌};
ghost use Rattle.std.specs.Option.{option_copied};
ghost use Rattle.packet_decoder.specs.Events.{cleared, event, event_body, event_fields, event_by, event_head, failure_of, field_or_none, scope_at};
ghost use Rattle.packet_decoder.specs.EventReaders.{EventReadAs, FieldsReadAs, HeadReadAs, HeadToldAs, IsLast, NamedAs, PlanFits, is_bare};
ghost use Rattle.packet_decoder.specs.PacketHeads.{Answers};
ghost use Rattle.ctf_fields.specs.Fields.{Scopes};
ghost use Rattle.read_plan.specs.FixedSizes.{AreSkips, FieldsTake, skip_at};

use crate::failure::Failure;
use crate::times::{Timestamp, time_after, timestamp_in};
use crate::values::id_in;
use ctf_fields::{
    BitSpan, Field, FieldError, RawEvent, Scopes, Scratch, last_and_first, number_of,
    read_type_within,
};
use read_plan::{HeaderPlan, skip_fixed};
use sqlite_items::Items;
use std::alloc::Global;
use std::marker::Model;
use trace_types::Cause;
use type_table::{EventParts, StreamScopes, TraceMeta};

/// A packet whose events are read: what its trace declares, its bits, its stream and its processor.
#[derive(Drop)]
pub struct Packet<'a> {
    pub meta: &'a TraceMeta,
    pub bits: BitSpan<'a>,
    pub stream: u64,
    pub parts: StreamScopes,
    pub cpu: u32,
}

impl<'a> Model for Packet<'a> {
    ghost use Rattle.ctf_fields.specs.Leaves.{IsSpan};
    ghost use Rattle.packet_decoder.specs.Events.{PacketModel};

    ghost Value = { PacketModel };

    ghost view = { λ p. record { meta = p.meta.now; bytes = p.bits.bytes.now; end = p.bits.end; stream = p.stream; parts = p.parts; cpu = p.cpu } };

    ghost invariant = { λ p. IsSpan p.bits.bytes.now p.bits.end };
}

/// Where the next event is read: the clock's value before it, and its first bit.
#[derive(Clone, Copy, Debug, PartialEq, Eq)]
pub struct Cursor {
    pub clock: u64,
    pub at: u64,
}

/// An event's header, where its fields are kept, the first bit after it, the event's index among those that are declared,
/// the types of its scopes, and its timestamp.
#[derive(Debug, Drop)]
pub struct EventHead {
    pub header: Option<Field>,
    pub at: u64,
    pub event: u32,
    pub parts: EventParts,
    pub timestamp: Option<Timestamp>,
}

/// The same of a header whose fields aren't kept. Of the types of the event's scopes it tells only whether there are none, nor one
/// of the stream's context.
#[derive(Clone, Copy, Debug)]
pub struct ToldHead {
    pub at: u64,
    pub event: u32,
    pub is_bare: bool,
    pub timestamp: Option<Timestamp>,
}

/// The event that was looked up last, and the id that it was looked up by.
#[derive(Clone, Copy, Debug)]
pub struct LastEvent {
    pub id: u64,
    pub event: u32,
    pub is_bare: bool,
}

/// An event as it was read. Where its fields were passed over it has none of them, and `fields_at` is the first bit of them,
/// a whole byte.
#[derive(Debug, Drop)]
pub struct ReadEvent {
    pub raw: RawEvent,
    pub fields_at: Option<u64>,
}

/// An event's fields, where there are any that were kept, the first bit after them, and their own first bit where they were
/// passed over.
#[derive(Debug, Drop)]
pub struct FieldsRead {
    pub fields: Option<Field>,
    pub end: u64,
    pub from: Option<u64>,
}

// The field of a scope, and the bit after it.
fn scope_at(
    alloc: Global,
    packet: &Packet<'_>,
    scopes: &Scopes,
    scratch: &mut Scratch,
    ty: Option<u32>,
    at: u64,
) -> Result<(Option<Field>, u64), Failure>
    requires { at ≤ 2 ^ 63 }
    ensures answers { Answers (scope_at packet.now scopes.now ty at) result }
    ensures forward { IfOk result (λ r. (at ≤ r.1) × (r.1 ≤ 2 ^ 63)) }
{
    let Some(ty) = ty else {
        return Ok((None, at));
    };
    match read_type_within(alloc, packet.meta, ty, packet.bits, at, scopes, scratch) {
        Ok((field, end)) => Ok((Some(field), end)),
        Err(error) => Err(failure_of(error)),
    }
}

// Why an event can't be read of which a field can't be.
#[inline(always)]
fn failure_of(error: FieldError) -> Failure
    ensures { result ≡ failure_of error }
{
    match error {
        FieldError::ShortContent => Failure::Refused(Cause::ShortContent),
        FieldError::NoVariant => Failure::Refused(Cause::NoVariant),
        FieldError::TooLong => Failure::Refused(Cause::TooLong),
        FieldError::OutOfMemory => Failure::OutOfMemory,
    }
}

// The index of the event of an id, and the types of its scopes.
fn event_by(meta: &TraceMeta, stream: u64, id: Option<u64>) -> Option<(u32, EventParts)>
    ensures found { result ≡ event_by meta.now stream id }
    ensures declared { IfSome result (λ e. option_map (λ d. d.1) (slice_get meta.now.declared.events e.0) ≡ Some e.1) }
{
    let index = meta.find_event(stream, id?)?;
    let (_, parts) = meta.event(index)?;
    Some((index, parts))
}

// Whether nothing stands behind the headers of events with these parts.
fn is_bare(packet: &Packet<'_>, parts: EventParts) -> bool
    ensures { result ≡ is_bare packet.now parts }
{
    packet.parts.event_context.is_none() && parts.context.is_none() && parts.fields.is_none()
}

// The index of the event of an id, and whether nothing stands behind its headers. It is looked up only where the id isn't that of the
// last look-up.
#[inline(always)]
fn event_named(
    packet: &Packet<'_>,
    last: &mut Option<LastEvent>,
    id: Option<u64>,
) -> Option<(u32, bool)>
    requires { IsLast packet.now last.old }
    ensures found { NamedAs packet.now (event_by packet.now.meta packet.now.stream id) result }
    ensures last { IsLast packet.now last.new }
{
    let id = id?;
    if let Some(known) = *last {
        if known.id == id {
            return Some((known.event, known.is_bare));
        }
    }
    let (event, parts) = event_by(packet.meta, packet.stream, Some(id))?;
    let is_bare = is_bare(packet, parts);
    *last = Some(LastEvent { id, event, is_bare });
    Some((event, is_bare))
}

// The header, what event it names, and its timestamp.
#[tactic(auto, unfolding(crate::specs::Events::event_head))]
fn event_head(
    alloc: Global,
    packet: &Packet<'_>,
    scopes: &Scopes,
    scratch: &mut Scratch,
    at: u64,
) -> Result<EventHead, Failure>
    requires { at ≤ 2 ^ 63 }
    ensures answers { Answers (event_head packet.now scopes.now at) result }
    ensures forward { IfOk result (λ h. (at ≤ h.at) × (h.at ≤ 2 ^ 63)) }
    ensures declared { IfOk result (λ h. option_map (λ d. d.1) (slice_get packet.now.meta.declared.events h.event) ≡ Some h.parts) }
    ensures timestamp { IfOk result (λ h. IfSome h.timestamp (λ s. (1 ≤ s.size) × (s.size ≤ 64))) }
{
    let (header, at) = scope_at(
        alloc,
        packet,
        scopes,
        scratch,
        packet.parts.event_header,
        at,
    )?;
    let table = packet.meta.table();
    let named = last_and_first(table, b"id", b"timestamp", header.as_ref());
    let id = id_in(number_of(named.last));
    let timestamp = timestamp_in(table, number_of(named.first));
    let Some((event, parts)) = event_by(packet.meta, packet.stream, id) else {
        return Err(Failure::Refused(Cause::UnknownEvent));
    };
    Ok(EventHead {
        header,
        at,
        event,
        parts,
        timestamp,
    })
}

/// What a header tells that is read by a plan, which keeps no field of it.
#[inline(always)]
#[tactic(auto, unfolding(crate::specs::Events::event_head))]
pub fn told_head(
    packet: &Packet<'_>,
    plan: &HeaderPlan,
    last: &mut Option<LastEvent>,
    at: u64,
) -> Result<ToldHead, Failure>
    requires at { at ≤ 2 ^ 63 }
    requires fits { PlanFits packet.now.meta.table packet.now.parts.event_header (Some plan.now) }
    requires last { IsLast packet.now last.old }
    ensures answers { (scopes : Scopes) → HeadToldAs packet.now (event_head packet.now scopes at) result }
    ensures forward { IfOk result (λ h. (at ≤ h.at) × (h.at ≤ 2 ^ 63)) }
    ensures timestamp { IfOk result (λ h. IfSome h.timestamp (λ s. (1 ≤ s.size) × (s.size ≤ 64))) }
    ensures last { IsLast packet.now last.new }
{
    let (told, at) = match plan.read(packet.bits, at) {
        Ok(read) => read,
        Err(error) => return Err(failure_of(error)),
    };
    let timestamp = timestamp_in(packet.meta.table(), told.timestamp);
    let Some((event, is_bare)) = event_named(packet, last, id_in(told.id)) else {
        return Err(Failure::Refused(Cause::UnknownEvent));
    };
    Ok(ToldHead {
        at,
        event,
        is_bare,
        timestamp,
    })
}

// The same of a header that is read by a plan, with the types of the event's scopes.
#[tactic(auto, unfolding(crate::specs::Events::event_head))]
fn planned_head(packet: &Packet<'_>, plan: &HeaderPlan, at: u64) -> Result<EventHead, Failure>
    requires at { at ≤ 2 ^ 63 }
    requires fits { PlanFits packet.now.meta.table packet.now.parts.event_header (Some plan.now) }
    ensures answers { (scopes : Scopes) → HeadReadAs packet.now.meta.table (event_head packet.now scopes at) result }
    ensures forward { IfOk result (λ h. (at ≤ h.at) × (h.at ≤ 2 ^ 63)) }
    ensures declared { IfOk result (λ h. option_map (λ d. d.1) (slice_get packet.now.meta.declared.events h.event) ≡ Some h.parts) }
    ensures timestamp { IfOk result (λ h. IfSome h.timestamp (λ s. (1 ≤ s.size) × (s.size ≤ 64))) }
{
    let (told, at) = match plan.read(packet.bits, at) {
        Ok(read) => read,
        Err(error) => return Err(failure_of(error)),
    };
    let timestamp = timestamp_in(packet.meta.table(), told.timestamp);
    let Some((event, parts)) = event_by(packet.meta, packet.stream, id_in(told.id)) else {
        return Err(Failure::Refused(Cause::UnknownEvent));
    };
    Ok(EventHead {
        header: None,
        at,
        event,
        parts,
        timestamp,
    })
}

// The header, by its plan where there is one.
fn head_at(
    alloc: Global,
    packet: &Packet<'_>,
    scopes: &Scopes,
    scratch: &mut Scratch,
    plan: Option<&HeaderPlan>,
    at: u64,
) -> Result<EventHead, Failure>
    requires at { at ≤ 2 ^ 63 }
    requires fits { PlanFits packet.now.meta.table packet.now.parts.event_header (option_copied plan) }
    ensures answers { HeadReadAs packet.now.meta.table (event_head packet.now scopes.now at) result }
    ensures forward { IfOk result (λ h. (at ≤ h.at) × (h.at ≤ 2 ^ 63)) }
    ensures declared { IfOk result (λ h. option_map (λ d. d.1) (slice_get packet.now.meta.declared.events h.event) ≡ Some h.parts) }
    ensures timestamp { IfOk result (λ h. IfSome h.timestamp (λ s. (1 ≤ s.size) × (s.size ≤ 64))) }
{
    match plan {
        Some(plan) => planned_head(packet, plan, at),
        None => event_head(alloc, packet, scopes, scratch, at),
    }
}

// The fields of an event. They are passed over where it is known how many bits they take and they begin at a whole byte.
fn fields_at(
    alloc: Global,
    packet: &Packet<'_>,
    scopes: &Scopes,
    scratch: &mut Scratch,
    ty: Option<u32>,
    skip: Option<u64>,
    at: u64,
) -> Result<FieldsRead, Failure>
    requires at { at ≤ 2 ^ 63 }
    requires skip { IfSome skip (FieldsTake packet.now.meta.table ty) }
    ensures answers { FieldsReadAs packet.now ty skip (scope_at packet.now scopes.now ty at) result }
    ensures forward { IfOk result (λ r. (at ≤ r.end) × (r.end ≤ 2 ^ 63)) }
{
    if let Some(bits) = skip {
        if at % 8 == 0 {
            return pass_over(packet, scopes, ty, bits, at);
        }
    }
    let (fields, end) = scope_at(alloc, packet, scopes, scratch, ty, at)?;
    Ok(FieldsRead {
        fields,
        end,
        from: None,
    })
}

// Passes over fields that take so many bits.
fn pass_over(
    packet: &Packet<'_>,
    scopes: &Scopes,
    ty: Option<u32>,
    bits: u64,
    at: u64,
) -> Result<FieldsRead, Failure>
    requires at { at ≤ 2 ^ 63 }
    requires whole { at % 8 ≡ 0 }
    requires skip { FieldsTake packet.now.meta.table ty bits }
    ensures answers { FieldsReadAs packet.now ty (Some bits) (scope_at packet.now scopes.now ty at) result }
    ensures forward { IfOk result (λ r. (at ≤ r.end) × (r.end ≤ 2 ^ 63)) }
{
    match skip_fixed(packet.bits.end, at, bits) {
        Ok(end) => Ok(FieldsRead {
            fields: None,
            end,
            from: Some(at),
        }),
        Err(_) => Err(Failure::Refused(Cause::ShortContent)),
    }
}

// The event's fields, after its context.
#[tactic(auto, unfolding(crate::specs::Events::event_fields))]
fn event_fields(
    alloc: Global,
    packet: &Packet<'_>,
    scopes: &mut Scopes,
    scratch: &mut Scratch,
    parts: EventParts,
    skip: Option<u64>,
    at: u64,
) -> Result<FieldsRead, Failure>
    requires at { at ≤ 2 ^ 63 }
    requires skip { IfSome skip (FieldsTake packet.now.meta.table parts.fields) }
    ensures answers { FieldsReadAs packet.now parts.fields skip (event_fields packet.now scopes.old parts at) result }
    ensures forward { IfOk result (λ r. (at ≤ r.end) × (r.end ≤ 2 ^ 63)) }
    ensures stays { OnOk result (cleared scopes.new ≡ cleared scopes.old) }
{
    let (context, at) = scope_at(alloc, packet, scopes, scratch, parts.context, at)?;
    scopes.event_context = context;
    fields_at(alloc, packet, scopes, scratch, parts.fields, skip, at)
}

/// What stands after an event's header: the stream's context for events, and the event's own. Most events have neither.
#[tactic(auto, unfolding(crate::specs::Events::event_body, crate::specs::Events::event_fields))]
pub fn event_body(
    alloc: Global,
    packet: &Packet<'_>,
    scopes: &mut Scopes,
    scratch: &mut Scratch,
    parts: EventParts,
    skip: Option<u64>,
    at: u64,
) -> Result<FieldsRead, Failure>
    requires at { at ≤ 2 ^ 63 }
    requires skip { IfSome skip (FieldsTake packet.now.meta.table parts.fields) }
    ensures answers { FieldsReadAs packet.now parts.fields skip (event_body packet.now scopes.old parts at) result }
    ensures forward { IfOk result (λ r. (at ≤ r.end) × (r.end ≤ 2 ^ 63)) }
    ensures stays { OnOk result (cleared scopes.new ≡ cleared scopes.old) }
{
    if packet.parts.event_context.is_none() && parts.context.is_none() {
        scopes.stream_context = None;
        scopes.event_context = None;
        return fields_at(alloc, packet, scopes, scratch, parts.fields, skip, at);
    }
    let (context, at) = scope_at(
        alloc,
        packet,
        scopes,
        scratch,
        packet.parts.event_context,
        at,
    )?;
    scopes.stream_context = context;
    event_fields(alloc, packet, scopes, scratch, parts, skip, at)
}

/// No scope of an event is read. The memory of the header is used again.
pub fn clear(scopes: &mut Scopes, scratch: &mut Scratch)
    ensures { scopes.new ≡ cleared scopes.old }
{
    if let Some(header) = scopes.event_header.take() {
        scratch.recycle(header);
    }
    scopes.stream_context = None;
    scopes.event_context = None;
    scopes.event_fields = None;
}

/// Takes the memory of an event's fields that are no longer needed.
pub fn recycle_fields(scratch: &mut Scratch, fields: Field) {
    // the structure of an event without fields has no memory, and many of them would fill the list of what is kept
    if let Field::Struct(members) = &fields {
        if members.is_empty() {
            return;
        }
    }
    scratch.recycle(fields);
}

fn field_or_none(alloc: Global, field: Option<Field>) -> Field
    ensures { result ≡ field_or_none field }
{
    match field {
        Some(field) => field,
        None => Field::Struct(Items::new(alloc)),
    }
}

/// How many bits of an event may be passed over.
pub fn skip_at(skips: &[Option<u64>], event: u32) -> Option<u64>
    ensures { result ≡ skip_at skips.now event }
{
    match skips.get(event as usize) {
        Some(skip) => *skip,
        None => None,
    }
}

/// The event at a bit, and what stands after it. Its header is read by a plan where there is one, and of events that `skips` has
/// a number of bits for, the fields may be passed over.
#[tactic(auto, unfolding(crate::specs::Events::event))]
pub fn read_event(
    alloc: Global,
    packet: &Packet<'_>,
    scopes: &mut Scopes,
    scratch: &mut Scratch,
    header: Option<&HeaderPlan>,
    skips: &[Option<u64>],
    cursor: Cursor,
) -> Result<(ReadEvent, Cursor), Failure>
    requires at { cursor.at ≤ 2 ^ 63 }
    requires header { PlanFits packet.now.meta.table packet.now.parts.event_header (option_copied header) }
    requires skips { AreSkips packet.now.meta skips.now }
    ensures answers { EventReadAs packet.now skips.now (event packet.now (cleared scopes.old) cursor) result }
    ensures forward { IfOk result (λ r. (cursor.at < r.1.at) × (r.1.at ≤ 2 ^ 63)) }
    ensures stays { OnOk result (cleared scopes.new ≡ cleared scopes.old) }
{
    clear(scopes, scratch);
    let head = head_at(alloc, packet, scopes, scratch, header, cursor.at)?;
    scopes.event_header = head.header;
    let skip = skip_at(skips, head.event);
    let body = event_body(alloc, packet, scopes, scratch, head.parts, skip, head.at)?;
    if body.end == cursor.at {
        return Err(Failure::Refused(Cause::NoBits));
    }
    let (clock, time) = time_after(packet.meta, head.timestamp, cursor.clock)?;
    let read = ReadEvent {
        raw: RawEvent {
            time,
            cpu: packet.cpu,
            event: head.event,
            fields: field_or_none(alloc, body.fields),
        },
        fields_at: body.from,
    };
    Ok((
        read,
        Cursor {
            clock,
            at: body.end,
        },
    ))
}
