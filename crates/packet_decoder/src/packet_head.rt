//! What stands before the events of a packet: its header and its context.
ghost use Rattle.std.specs.Prelude.{◌≡◌, ◌≤◌, ◌*◌, ◌^◌, None, Some, IfOk, IfSome, codes, length, option_map, pos, true};
ghost use Rattle.std.specs.Option.{option_copied};
ghost use Rattle.ctf_fields.specs.Leaves.{IsSpan};
ghost use Rattle.ctf_fields.specs.Reading.{Gives};
ghost use Rattle.read_plan.specs.Contexts.{AreContextPlans};
ghost use Rattle.read_plan.specs.Lone.{HasLoneContexts};
ghost use Rattle.packet_decoder.specs.PacketHeads.{Answers, context_read, header_judged, packet_head, read_scope, stream_of};
ghost use Rattle.packet_decoder.specs.ToldHeads.{ContextFits, HeadOpenedAs, HeaderJudgedAs, PacketToldAs, plan_from};
ghost use Rattle.packet_decoder.specs.declared.piece.PacketSpan.{PacketSpan};

use crate::failure::Failure;
use crate::values::{id_in, magic_matches, uuid_matches};
use ctf_fields::{
    BitSpan, Field, FieldError, Scopes, Scratch, first_named, number_named, read_type_within,
};
use read_plan::{ContextNumbers, ContextPlan, KnownContexts, context_numbers, context_plan_at};
use std::alloc::Global;
use trace_types::Cause;
use type_table::{PerScope, StreamScopes, TraceMeta};

/// The fields of a packet's header and of its context, the first bit after them, and its stream: its id, and the
/// types of its scopes.
#[derive(Debug, Drop)]
pub struct PacketHead {
    pub scopes: Scopes,
    pub start: u64,
    pub stream: u64,
    pub parts: StreamScopes,
}

/// The field of a scope that may be declared, and the bit after it. `scratch` is memory for structures that are
/// being read.
pub fn read_scope(
    alloc: Global,
    meta: &TraceMeta,
    ty: Option<u32>,
    bits: BitSpan<'_>,
    at: u64,
    scopes: &Scopes,
    scratch: &mut Scratch,
) -> Result<(Option<Field>, u64), FieldError>
    requires span { IsSpan bits.bytes.now bits.end }
    requires at { at ≤ 2 ^ 63 }
    ensures gives { Gives (read_scope (record { table = meta.now.table; bytes = bits.entry.bytes.now; end = bits.entry.end; scopes = scopes.now }) ty at) result }
    ensures forward { IfOk result (λ r. (at ≤ r.1) × (r.1 ≤ 2 ^ 63)) }
{
    let Some(ty) = ty else {
        return Ok((None, at));
    };
    let (field, end) = read_type_within(alloc, meta, ty, bits, at, scopes, scratch)?;
    Ok((Some(field), end))
}

// All bits of some bytes.
fn all_bits(bytes: &[u8]) -> BitSpan<'_>
    requires { length bytes.now ≤ 2 ^ 60 }
    ensures bytes { result.bytes.now ≡ bytes.now }
    ensures end { result.end ≡ 8 * length bytes.now }
    ensures span { IsSpan result.bytes.now result.end }
{
    BitSpan {
        bytes,
        end: 8 * bytes.len() as u64,
    }
}

// The stream that a header names: its id, and the types of its scopes.
fn stream_of(meta: &TraceMeta, header: Option<&Field>) -> Option<(u64, StreamScopes)>
    ensures { result ≡ stream_of meta.now (option_copied header.entry) }
{
    let id = id_in(number_named(meta.table(), b"stream_id", header))?;
    let parts = meta.stream(id)?;
    Some((id, parts))
}

// A packet's header, the first bit after it, and its stream. Its context is left to be read.
#[derive(Debug, Drop)]
struct JudgedHeader {
    header: Option<Field>,
    at: u64,
    stream: u64,
    parts: StreamScopes,
}

/// What stands before a packet's events, with the numbers of its context in the place of its fields.
#[derive(Debug, Drop)]
pub struct ToldPacketHead {
    pub header: Option<Field>,
    pub numbers: ContextNumbers,
    pub start: u64,
    pub stream: u64,
    pub parts: StreamScopes,
}

// The header of the packet that these bytes begin with.
#[tactic(auto, unfolding(crate::specs::PacketHeads::packet_head))]
fn read_header(
    alloc: Global,
    meta: &TraceMeta,
    rest: &[u8],
    scratch: &mut Scratch,
) -> Result<JudgedHeader, Failure>
    requires { length rest.now ≤ 2 ^ 60 }
    ensures judged { HeaderJudgedAs meta.now rest.now (packet_head meta.now rest.now) result }
    ensures at { IfOk result (λ h. h.at ≤ 2 ^ 63) }
{
    match read_scope(
        alloc,
        meta,
        meta.packet_header(),
        all_bits(rest),
        0,
        &PerScope::none(),
        scratch,
    ) {
        Ok((header, at)) => header_judged(meta, rest, header, at),
        Err(FieldError::OutOfMemory) => Err(Failure::OutOfMemory),
        Err(_) => Err(Failure::Refused(Cause::ShortHeader)),
    }
}

#[tactic(auto, unfolding(crate::specs::PacketHeads::header_judged))]
fn header_judged(
    meta: &TraceMeta,
    rest: &[u8],
    header: Option<Field>,
    at: u64,
) -> Result<JudgedHeader, Failure>
    requires { at ≤ 2 ^ 63 }
    ensures judged { HeaderJudgedAs meta.now rest.now (header_judged meta.now rest.now header at) result }
    ensures at { IfOk result (λ h. h.at ≤ 2 ^ 63) }
{
    let table = meta.table();
    if !magic_matches(first_named(table, b"magic", header.as_ref())) {
        return Err(Failure::Refused(Cause::BadMagic));
    }
    if !uuid_matches(meta.uuid(), first_named(table, b"uuid", header.as_ref())) {
        return Err(Failure::Refused(Cause::WrongUuid));
    }
    let Some((stream, parts)) = stream_of(meta, header.as_ref()) else {
        return Err(Failure::Refused(Cause::UnknownStream));
    };
    Ok(JudgedHeader {
        header,
        at,
        stream,
        parts,
    })
}

// The head of a packet with this header, with its context's fields.
#[tactic(auto, unfolding(crate::specs::PacketHeads::context_read))]
fn context_read(
    alloc: Global,
    meta: &TraceMeta,
    rest: &[u8],
    judged: JudgedHeader,
    scratch: &mut Scratch,
) -> Result<PacketHead, Failure>
    requires rest { length rest.now ≤ 2 ^ 60 }
    requires at { judged.at ≤ 2 ^ 63 }
    ensures answers { Answers (context_read meta.now rest.now judged.header judged.at judged.stream judged.parts) result }
    ensures start { IfOk result (λ h. h.start ≤ 2 ^ 63) }
{
    let mut scopes = PerScope::none();
    scopes.packet_header = judged.header;
    match read_scope(
        alloc,
        meta,
        judged.parts.packet_context,
        all_bits(rest),
        judged.at,
        &scopes,
        scratch,
    ) {
        Ok((context, start)) => {
            scopes.packet_context = context;
            Ok(PacketHead {
                scopes,
                start,
                stream: judged.stream,
                parts: judged.parts,
            })
        }
        Err(FieldError::OutOfMemory) => Err(Failure::OutOfMemory),
        Err(_) => Err(Failure::Refused(Cause::ShortHeader)),
    }
}

/// The head of the packet that these bytes begin with.
pub fn read_packet_head(alloc: Global, meta: &TraceMeta, rest: &[u8]) -> Result<PacketHead, Failure>
    requires { length rest.now ≤ 2 ^ 60 }
    ensures answers { Answers (packet_head meta.now rest.now) result }
    ensures start { IfOk result (λ h. h.start ≤ 2 ^ 63) }
{
    let mut scratch = Scratch::new(alloc);
    let judged = read_header(alloc, meta, rest, &mut scratch)?;
    context_read(alloc, meta, rest, judged, &mut scratch)
}

/// The same, of whose context only the numbers are kept. Where the context's type has a plan, they are read by it.
pub fn tell_packet_head(
    alloc: Global,
    meta: &TraceMeta,
    known: KnownContexts<'_>,
    rest: &[u8],
) -> Result<ToldPacketHead, Failure>
    requires rest { length rest.now ≤ 2 ^ 60 }
    requires plans { AreContextPlans meta.now.table known.plans.now }
    ensures told { PacketToldAs meta.now.table (packet_head meta.now rest.now) result }
    ensures start { IfOk result (λ h. h.start ≤ 2 ^ 63) }
{
    let mut scratch = Scratch::new(alloc);
    let judged = read_header(alloc, meta, rest, &mut scratch)?;
    match plan_at(meta, known, judged.parts.packet_context, judged.at) {
        Some(plan) => planned_head(meta, rest, plan, judged),
        None => context_told(alloc, meta, rest, judged, &mut scratch),
    }
}

// The plan by which a context of this type is read that begins at this bit, where it has one and this is a whole byte.
fn plan_at<'a>(
    meta: &TraceMeta,
    known: KnownContexts<'a>,
    ty: Option<u32>,
    at: u64,
) -> Option<&'a ContextPlan>
    requires { AreContextPlans meta.now.table known.plans.now }
    ensures is { option_copied result ≡ plan_from known.entry.plans.now ty at }
    ensures fits { IfSome result (λ plan. ContextFits meta.now.table ty at plan.now) }
{
    let _ = meta;
    if at % 8 != 0 {
        return None;
    }
    context_plan_at(known.plans, ty?)
}

// What a packet with this header tells whose context is read by a plan.
fn planned_head(
    meta: &TraceMeta,
    rest: &[u8],
    plan: &ContextPlan,
    judged: JudgedHeader,
) -> Result<ToldPacketHead, Failure>
    requires rest { length rest.now ≤ 2 ^ 60 }
    requires at { judged.at ≤ 2 ^ 63 }
    requires fits { ContextFits meta.now.table judged.parts.packet_context judged.at plan.now }
    ensures told { PacketToldAs meta.now.table (context_read meta.now rest.now judged.header judged.at judged.stream judged.parts) result }
    ensures start { IfOk result (λ h. h.start ≤ 2 ^ 63) }
{
    let _ = meta;
    let Ok((numbers, start)) = plan.read(all_bits(rest), judged.at) else {
        return Err(Failure::Refused(Cause::ShortHeader));
    };
    Ok(ToldPacketHead {
        header: judged.header,
        numbers,
        start,
        stream: judged.stream,
        parts: judged.parts,
    })
}

// What a packet with this header tells whose context is read field by field.
fn context_told(
    alloc: Global,
    meta: &TraceMeta,
    rest: &[u8],
    judged: JudgedHeader,
    scratch: &mut Scratch,
) -> Result<ToldPacketHead, Failure>
    requires rest { length rest.now ≤ 2 ^ 60 }
    requires at { judged.at ≤ 2 ^ 63 }
    ensures told { PacketToldAs meta.now.table (context_read meta.now rest.now judged.header judged.at judged.stream judged.parts) result }
    ensures start { IfOk result (λ h. h.start ≤ 2 ^ 63) }
{
    let mut head = context_read(alloc, meta, rest, judged, scratch)?;
    let numbers = context_numbers(meta.table(), head.scopes.packet_context.as_ref());
    Ok(ToldPacketHead {
        header: head.scopes.packet_header.take(),
        numbers,
        start: head.start,
        stream: head.stream,
        parts: head.parts,
    })
}

/// The head of a packet whose events are to be read. Its context's fields are kept only where a type may look into them.
pub fn open_packet_head(
    alloc: Global,
    meta: &TraceMeta,
    known: KnownContexts<'_>,
    rest: &[u8],
) -> Result<PacketHead, Failure>
    requires rest { length rest.now ≤ 2 ^ 60 }
    requires plans { AreContextPlans meta.now.table known.plans.now }
    requires lone { known.lone ≡ true → HasLoneContexts meta.now.table }
    ensures opened { (span : PacketSpan) → HeadOpenedAs meta.now rest.now span result }
{
    if !known.lone {
        return read_packet_head(alloc, meta, rest);
    }
    let told = tell_packet_head(alloc, meta, known, rest)?;
    let mut scopes = PerScope::none();
    scopes.packet_header = told.header;
    Ok(PacketHead {
        scopes,
        start: told.start,
        stream: told.stream,
        parts: told.parts,
    })
}
