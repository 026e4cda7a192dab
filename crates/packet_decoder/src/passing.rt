//! Events that are passed over: of each it is found out only whether it is refused, and where the next one begins.
ghost use Rattle.std.specs.Prelude.{◌≡◌, ◌≤◌, ◌<◌, ◌^◌, None, Some, Err, option_map, slice_get, IfOk, OnOk, IfSome};
ghost use Rattle.std.specs.Option.{option_and_then, option_copied};
ghost use Rattle.packet_decoder.specs.Events.{cleared, event, event_body};
ghost use Rattle.packet_decoder.specs.EventReaders.{ClockAs, EndsAs, EventPassedAs, IsDeclared, IsSeen, IsTimed, PlanFits, events_after, refusal};
ghost use Rattle.packet_decoder.specs.Times.{time_after};
ghost use Rattle.read_plan.specs.FixedSizes.{AreSkips};
ghost use Rattle.read_plan.specs.Headers.{IsReadablePlan};
ghost use Rattle.read_plan.specs.Singles.{IsReadableSingle, single_number};
ghost use Rattle.type_table.specs.declared.declared.EventParts.{EventParts};
ghost use Rattle.packet_decoder.specs.declared.failure.Failure.TheVariants as failure;
ghost use Rattle.trace_types.specs.declared.cause.Cause.{Cause};

use crate::events::{
    Cursor, FieldsRead, LastEvent, Packet, ToldHead, clear, event_body, read_event, recycle_fields,
    skip_at, told_head,
};
use crate::failure::Failure;
use crate::repeated::pass_repeated;
use crate::times::{Timestamp, time_after};
use ctf_fields::{Scopes, Scratch};
use read_plan::{HeaderPlan, SingleNumber};
use std::alloc::Global;
use trace_types::Cause;
use type_table::TraceMeta;

/// What was found out of the events before: the event that was looked up last, and a value of the clock at which an event without a
/// timestamp has a time.
#[derive(Clone, Copy, Debug)]
pub struct Seen {
    pub last: Option<LastEvent>,
    pub timed: Option<u64>,
}

/// Before the first event.
pub fn nothing_seen() -> Seen
    ensures { (result.last ≡ None) × (result.timed ≡ None) }
{
    Seen {
        last: None,
        timed: None,
    }
}

// The clock's value after a timestamp that has a time then. It isn't computed again for events without timestamps, which leave
// the clock as it is.
#[inline(always)]
fn clock_after(
    meta: &TraceMeta,
    timed: &mut Option<u64>,
    timestamp: Option<Timestamp>,
    clock: u64,
) -> Result<u64, Cause>
    requires timestamp { IfSome timestamp (λ s. (1 ≤ s.size) × (s.size ≤ 64)) }
    requires timed { IsTimed meta.now timed.old }
    ensures answers { ClockAs (time_after meta.now timestamp clock) result }
    ensures timed { IsTimed meta.now timed.new }
{
    if timestamp.is_some() {
        let (value, _) = time_after(meta, timestamp, clock)?;
        return Ok(value);
    }
    if *timed == Some(clock) {
        return Ok(clock);
    }
    let (value, _) = time_after(meta, None, clock)?;
    *timed = Some(clock);
    Ok(value)
}

// The bit after what stands behind an event's header, of which nothing is kept.
#[inline(never)]
fn body_passed(
    alloc: Global,
    packet: &Packet<'_>,
    scopes: &mut Scopes,
    scratch: &mut Scratch,
    skips: &[Option<u64>],
    head: ToldHead,
) -> Result<u64, Failure>
    requires at { head.at ≤ 2 ^ 63 }
    requires skips { AreSkips packet.now.meta skips.now }
    requires declared { IsDeclared packet.now head }
    ensures answers { (parts : EventParts) → option_map (λ d. d.1) (slice_get packet.now.meta.declared.events head.event) ≡ Some parts → EndsAs (event_body packet.now (cleared scopes.old) parts head.at) result }
    ensures forward { IfOk result (λ end. (head.at ≤ end) × (end ≤ 2 ^ 63)) }
    ensures stays { OnOk result (cleared scopes.new ≡ cleared scopes.old) }
{
    let Some((_, parts)) = packet.meta.event(head.event) else {
        return Err(Failure::Refused(Cause::UnknownEvent));
    };
    clear(scopes, scratch);
    let skip = skip_at(skips, head.event);
    let FieldsRead { fields, end, .. } = event_body(
        alloc, packet, scopes, scratch, parts, skip, head.at,
    )?;
    if let Some(fields) = fields {
        recycle_fields(scratch, fields);
    }
    Ok(end)
}

// The same, and nothing is read where nothing stands there.
#[inline(always)]
fn body_end(
    alloc: Global,
    packet: &Packet<'_>,
    scopes: &mut Scopes,
    scratch: &mut Scratch,
    skips: &[Option<u64>],
    head: ToldHead,
) -> Result<u64, Failure>
    requires at { head.at ≤ 2 ^ 63 }
    requires skips { AreSkips packet.now.meta skips.now }
    requires declared { IsDeclared packet.now head }
    ensures answers { (parts : EventParts) → option_map (λ d. d.1) (slice_get packet.now.meta.declared.events head.event) ≡ Some parts → EndsAs (event_body packet.now (cleared scopes.old) parts head.at) result }
    ensures forward { IfOk result (λ end. (head.at ≤ end) × (end ≤ 2 ^ 63)) }
    ensures stays { OnOk result (cleared scopes.new ≡ cleared scopes.old) }
{
    if head.is_bare {
        return Ok(head.at);
    }
    body_passed(alloc, packet, scopes, scratch, skips, head)
}

// Passes over an event whose header is read by a plan.
#[inline(always)]
fn pass_planned(
    alloc: Global,
    packet: &Packet<'_>,
    scopes: &mut Scopes,
    scratch: &mut Scratch,
    plan: &HeaderPlan,
    skips: &[Option<u64>],
    seen: &mut Seen,
    cursor: Cursor,
) -> Result<Cursor, Failure>
    requires at { cursor.at ≤ 2 ^ 63 }
    requires fits { PlanFits packet.now.meta.table packet.now.parts.event_header (Some plan.now) }
    requires skips { AreSkips packet.now.meta skips.now }
    requires seen { IsSeen packet.now seen.old }
    ensures answers { EventPassedAs (event packet.now (cleared scopes.old) cursor) result }
    ensures forward { IfOk result (λ next. (cursor.at < next.at) × (next.at ≤ 2 ^ 63)) }
    ensures stays { OnOk result (cleared scopes.new ≡ cleared scopes.old) }
    ensures seen { OnOk result (IsSeen packet.now seen.new) }
{
    let head = told_head(packet, plan, &mut seen.last, cursor.at)?;
    let at = body_end(alloc, packet, scopes, scratch, skips, head)?;
    if at == cursor.at {
        return Err(Failure::Refused(Cause::NoBits));
    }
    let clock = clock_after(packet.meta, &mut seen.timed, head.timestamp, cursor.clock)?;
    Ok(Cursor { clock, at })
}

// Passes over an event whose header is read with its fields.
#[inline(never)]
fn pass_read(
    alloc: Global,
    packet: &Packet<'_>,
    scopes: &mut Scopes,
    scratch: &mut Scratch,
    skips: &[Option<u64>],
    cursor: Cursor,
) -> Result<Cursor, Failure>
    requires at { cursor.at ≤ 2 ^ 63 }
    requires skips { AreSkips packet.now.meta skips.now }
    ensures answers { EventPassedAs (event packet.now (cleared scopes.old) cursor) result }
    ensures forward { IfOk result (λ next. (cursor.at < next.at) × (next.at ≤ 2 ^ 63)) }
    ensures stays { OnOk result (cleared scopes.new ≡ cleared scopes.old) }
{
    match read_event(alloc, packet, scopes, scratch, None, skips, cursor) {
        Ok((read, next)) => {
            recycle_fields(scratch, read.raw.fields);
            Ok(next)
        }
        Err(failure) => Err(failure),
    }
}

// The cursor behind the event at a cursor. The event's header is read by a plan where there is one, and nothing of the event is kept.
#[inline(always)]
fn pass_event(
    alloc: Global,
    packet: &Packet<'_>,
    scopes: &mut Scopes,
    scratch: &mut Scratch,
    header: Option<&HeaderPlan>,
    skips: &[Option<u64>],
    seen: &mut Seen,
    cursor: Cursor,
) -> Result<Cursor, Failure>
    requires at { cursor.at ≤ 2 ^ 63 }
    requires header { PlanFits packet.now.meta.table packet.now.parts.event_header (option_copied header) }
    requires skips { AreSkips packet.now.meta skips.now }
    requires seen { IsSeen packet.now seen.old }
    ensures answers { EventPassedAs (event packet.now (cleared scopes.old) cursor) result }
    ensures forward { IfOk result (λ next. (cursor.at < next.at) × (next.at ≤ 2 ^ 63)) }
    ensures stays { OnOk result (cleared scopes.new ≡ cleared scopes.old) }
    ensures seen { OnOk result (IsSeen packet.now seen.new) }
{
    match header {
        Some(plan) => pass_planned(alloc, packet, scopes, scratch, plan, skips, seen, cursor),
        None => pass_read(alloc, packet, scopes, scratch, skips, cursor),
    }
}

// The number that headers are which have nothing else.
fn single_of(header: Option<&HeaderPlan>) -> Option<SingleNumber>
    requires { IfSome (option_copied header) IsReadablePlan }
    ensures is { result ≡ option_and_then single_number (option_copied header.entry) }
    ensures readable { IfSome result IsReadableSingle }
{
    header?.single_number()
}

/// Passes over all events from a cursor on, before which so many were read, and keeps none. Those that repeat the one before are
/// passed over in a loop of their own, which does less for each.
#[inline(never)]
pub fn pass_rest(
    alloc: Global,
    packet: &Packet<'_>,
    scopes: &mut Scopes,
    scratch: &mut Scratch,
    header: Option<&HeaderPlan>,
    skips: &[Option<u64>],
    first: Cursor,
    before: u64,
) -> Result<(), Failure>
    requires at { first.at ≤ 2 ^ 63 }
    requires before { before ≤ first.at }
    requires header { PlanFits packet.now.meta.table packet.now.parts.event_header (option_copied header) }
    requires skips { AreSkips packet.now.meta skips.now }
    ensures accepted { OnOk result (refusal (events_after packet.now (cleared scopes.old) first before) ≡ None) }
    ensures refused { (cause : Cause) → result ≡ Err (failure.Refused cause) → refusal (events_after packet.now (cleared scopes.old) first before) ≡ Some cause }
{
    let single = single_of(header);
    let mut seen = nothing_seen();
    let mut cursor = first;
    let mut read = before;
    while cursor.at < packet.bits.end {
        cursor = pass_event(
            alloc, packet, scopes, scratch, header, skips, &mut seen, cursor,
        )?;
        read += 1;
        if let Some(number) = single {
            (cursor, read) = pass_repeated(packet, number, seen, cursor, read);
        }
    }
    Ok(())
}
