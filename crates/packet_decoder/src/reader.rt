//! The events of a packet, read one by one.
ghost use Rattle.std.specs.Prelude.{◌≡◌, ◌≤◌, ◌<◌, ◌+◌, ◌^◌, true, false, Ok, Err, None, Some, IfOk, IfSome, IfNone, OnOk, [], length};
ghost use Rattle.packet_decoder.specs.Events.{as_packet, decoded};
ghost use Rattle.packet_decoder.specs.Pieces.{LiesIn};
ghost use Rattle.packet_decoder.specs.EventReaders.{IsReadAs, PlanFits, and_before, events_left, planned_header, refusal};
ghost use Rattle.read_plan.specs.FixedSizes.{AreSkips};
ghost use Rattle.read_plan.specs.Contexts.{AreContextPlans};
ghost use Rattle.read_plan.specs.Lone.{HasLoneContexts, IsLone};
ghost use Rattle.ctf_fields.specs.Leaves.{IsSpan};
ghost use Rattle.ctf_fields.specs.declared.raw.RawEvent.{RawEvent};
ghost use Rattle.packet_decoder.specs.declared.failure.Failure.TheVariants as failure;
ghost use Rattle.packet_decoder.specs.declared.piece.PacketResult.TheVariants as packet;
ghost use Rattle.trace_types.specs.declared.cause.Cause.{Cause};

use crate::cutting::bytes_from;
use crate::events::{Cursor, Packet, ReadEvent, read_event, recycle_fields};
use crate::failure::Failure;
use crate::packet_head::open_packet_head;
use crate::passing::pass_rest;
use crate::piece::PacketSpan;
use ctf_fields::{BitSpan, Field, RawEvent, Scopes, Scratch};
use read_plan::{HeaderPlan, KnownContexts, header_plan};
use std::alloc::Global;
use std::marker::Model;
use trace_types::OutOfMemory;
use type_table::TraceMeta;

/// A packet whose events are read one by one.
#[derive(Drop)]
pub struct EventReader<'a> {
    packet: Packet<'a>,
    scopes: Scopes,
    scratch: Scratch,
    header: Option<HeaderPlan>,
    cursor: Cursor,
    read: u64,
}

impl<'a> Model for EventReader<'a> {
    ghost use Rattle.std.specs.Prelude.{◌≤◌, ◌^◌};
    ghost use Rattle.packet_decoder.specs.Events.{cleared};
    ghost use Rattle.packet_decoder.specs.EventReaders.{EventReaderModel, PlanFits};
    ghost use Rattle.ctf_fields.specs.contracts.field.Field as field;
    ghost use Rattle.std.specs.Coded.{codes};

    ghost Value = { EventReaderModel };

    ghost coded = { Prim.hlevel (codes, field.the_row.coded) };

    ghost view = { λ r. record { within = r.packet; scopes = cleared r.scopes; cursor = r.cursor; read = r.read } };

    ghost invariant = { λ r. (r.read ≤ r.cursor.at) × (r.cursor.at ≤ 2 ^ 63) × PlanFits r.packet.meta.table r.packet.parts.event_header r.header };
}

impl<'a> EventReader<'a> {
    /// Before the first event of a packet of a file.
    pub fn open(
        alloc: Global,
        meta: &'a TraceMeta,
        file: &'a [u8],
        span: &PacketSpan,
    ) -> Result<EventReader<'a>, Failure>
        requires file { length file.now ≤ 2 ^ 60 }
        requires span { LiesIn file.now span.now }
        ensures opened { IfOk result (λ r. decoded meta.now file.now span.now ≡ as_packet (events_left r)) }
        ensures first { IfOk result (λ r. r.read ≡ 0) }
        ensures within { IfOk result (λ r. r.within.meta ≡ meta.now) }
        ensures refused { (cause : Cause) → result ≡ Err (failure.Refused cause) → decoded meta.now file.now span.now ≡ packet.Refused cause }
    {
        let known = KnownContexts::nothing();
        EventReader::open_known(alloc, meta, known, file, span)
    }

    /// The same. The packet's context is read by its plan, and its fields aren't kept, where `known` allows that.
    #[tactic(auto, unfolding(crate::specs::Events::decoded, crate::specs::Events::packet_events))]
    pub fn open_known(
        alloc: Global,
        meta: &'a TraceMeta,
        known: KnownContexts<'_>,
        file: &'a [u8],
        span: &PacketSpan,
    ) -> Result<EventReader<'a>, Failure>
        requires file { length file.now ≤ 2 ^ 60 }
        requires span { LiesIn file.now span.now }
        requires plans { AreContextPlans meta.now.table known.plans.now }
        requires lone { known.lone ≡ true → HasLoneContexts meta.now.table }
        ensures opened { IfOk result (λ r. decoded meta.now file.now span.now ≡ as_packet (events_left r)) }
        ensures first { IfOk result (λ r. r.read ≡ 0) }
        ensures within { IfOk result (λ r. r.within.meta ≡ meta.now) }
        ensures refused { (cause : Cause) → result ≡ Err (failure.Refused cause) → decoded meta.now file.now span.now ≡ packet.Refused cause }
    {
        let rest = bytes_from(file, span.offset);
        let packet_head = open_packet_head(alloc, meta, known, rest)?;
        Ok(EventReader {
            packet: Packet {
                meta,
                bits: BitSpan {
                    bytes: rest,
                    end: span.content_bits,
                },
                stream: packet_head.stream,
                parts: packet_head.parts,
                cpu: span.cpu,
            },
            scopes: packet_head.scopes,
            scratch: Scratch::new(alloc),
            header: None,
            cursor: Cursor {
                clock: span.begin,
                at: span.start_bit,
            },
            read: 0,
        })
    }

    /// The next event, and none after the last.
    pub fn next_event(&mut self, alloc: Global) -> Result<Option<RawEvent>, Failure>
        ensures none { IfOk result (λ next. IfNone next (events_left self.old ≡ Ok [])) }
        ensures some { IfOk result (λ next. IfSome next (λ raw. events_left self.old ≡ and_before raw (events_left self.new))) }
        ensures counts { IfOk result (λ next. IfSome next (λ raw. (self.new.read ≡ self.old.read + 1) × (self.new.read ≤ 2 ^ 63) × (self.old.read < self.old.within.end))) }
        ensures within { IfOk result (λ next. IfSome next (λ raw. self.new.within ≡ self.old.within)) }
        ensures refused { (cause : Cause) → result ≡ Err (failure.Refused cause) → events_left self.old ≡ Err cause }
    {
        match self.next_event_of(alloc, &[])? {
            Some(read) => Ok(Some(read.raw)),
            None => Ok(None),
        }
    }

    /// Lets the headers of the packet's events be read by a plan, without keeping their fields, where there is one that fits them.
    /// `lone` tells that no type of the trace looks into the headers of events. The only error is lack of memory.
    pub fn plan_headers(&mut self, alloc: Global, lone: bool) -> Result<(), OutOfMemory>
        requires { lone ≡ true → IsLone self.old.within.meta.table }
        ensures { self.new ≡ self.old }
    {
        self.header = plan_of(alloc, &self.packet, lone)?;
        Ok(())
    }

    /// The packet's bits. The first bit of fields that were passed over is counted in them.
    pub fn bits(&self) -> BitSpan<'a>
        ensures bytes { result.bytes.now ≡ self.now.within.bytes }
        ensures end { result.end ≡ self.now.within.end }
        ensures span { IsSpan result.bytes.now result.end }
    {
        self.packet.bits
    }

    /// The next event, and none after the last. Where `skips` has a number of bits for an event, its fields may be
    /// passed over: the event is then given without them, and with their first bit.
    pub fn next_event_of(
        &mut self,
        alloc: Global,
        skips: &[Option<u64>],
    ) -> Result<Option<ReadEvent>, Failure>
        requires { AreSkips self.old.within.meta skips.now }
        ensures none { IfOk result (λ next. IfNone next (events_left self.old ≡ Ok [])) }
        ensures some { IfOk result (λ next. IfSome next (λ read. (whole : RawEvent) × IsReadAs self.old.within.meta self.old.within.bytes self.old.within.end skips.now whole read × (events_left self.old ≡ and_before whole (events_left self.new)))) }
        ensures at { IfOk result (λ next. IfSome next (λ read. IfSome read.fields_at (λ at. at ≤ 2 ^ 63))) }
        ensures counts { IfOk result (λ next. IfSome next (λ raw. (self.new.read ≡ self.old.read + 1) × (self.new.read ≤ 2 ^ 63) × (self.old.read < self.old.within.end))) }
        ensures within { IfOk result (λ next. IfSome next (λ raw. self.new.within ≡ self.old.within)) }
        ensures refused { (cause : Cause) → result ≡ Err (failure.Refused cause) → events_left self.old ≡ Err cause }
    {
        if self.cursor.at >= self.packet.bits.end {
            return Ok(None);
        }
        let (read, next) = read_event(
            alloc,
            &self.packet,
            &mut self.scopes,
            &mut self.scratch,
            self.header.as_ref(),
            skips,
            self.cursor,
        )?;
        self.cursor = next;
        self.read += 1;
        Ok(Some(read))
    }

    /// Reads the packet to its end, and keeps no event. What `skips` says may be passed over is passed over. The reader is
    /// used up.
    pub fn skip_rest(self, alloc: Global, skips: &[Option<u64>]) -> Result<(), Failure>
        requires { AreSkips self.within.meta skips.now }
        ensures accepted { OnOk result (refusal (events_left self.entry) ≡ None) }
        ensures refused { (cause : Cause) → result ≡ Err (failure.Refused cause) → refusal (events_left self.entry) ≡ Some cause }
    {
        let EventReader {
            packet,
            mut scopes,
            mut scratch,
            header,
            cursor,
            read,
        } = self;
        pass_rest(
            alloc,
            &packet,
            &mut scopes,
            &mut scratch,
            header.as_ref(),
            skips,
            cursor,
            read,
        )
    }

    /// Takes the memory of an event's fields that are no longer needed.
    pub fn recycle(&mut self, fields: Field)
        ensures { self.new ≡ self.old }
    {
        recycle_fields(&mut self.scratch, fields);
    }
}

// How the headers of a packet's events are read without keeping their fields, where they have a plan and no type looks into
// them.
fn plan_of(
    alloc: Global,
    packet: &Packet<'_>,
    lone: bool,
) -> Result<Option<HeaderPlan>, OutOfMemory>
    requires { lone ≡ true → IsLone packet.now.meta.table }
    ensures is { IfOk result (λ plan. plan ≡ planned_header packet.now lone) }
    ensures fits { IfOk result (λ plan. PlanFits packet.now.meta.table packet.now.parts.event_header plan) }
{
    if !lone {
        return Ok(None);
    }
    match packet.parts.event_header {
        Some(ty) => header_plan(alloc, packet.meta.table(), ty),
        None => Ok(None),
    }
}
