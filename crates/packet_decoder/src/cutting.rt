//! Stream files, cut into packets.
ghost use Rattle.std.specs.Prelude.{◌≡◌, ◌≤◌, ◌<◌, ◌+◌, ◌*◌, ◌^◌, IfNone, IfOk, IfSome, drop, length};
ghost use Rattle.packet_decoder.specs.PacketHeads.{Answers};
ghost use Rattle.packet_decoder.specs.Packets.{packets_in};
ghost use Rattle.packet_decoder.specs.Pieces.{AllLieIn, LiesIn, packet_at, pieces, right_sizes, sizes};
ghost use Rattle.packet_decoder.specs.ToldHeads.{span_told};
ghost use Rattle.read_plan.specs.Contexts.{AreContextPlans};

use crate::failure::Failure;
use crate::packet_head::{ToldPacketHead, tell_packet_head};
use crate::piece::{PacketSpan, Piece};
use crate::values::{below_32, counter_in, value_of};
use ctf_fields::below_64;
use read_plan::KnownContexts;
use sqlite_items::Items;
use std::alloc::Global;
use trace_types::{Cause, OutOfMemory};
use type_table::{Table, TraceMeta};

/// The pieces of a stream file, in order: packets without a gap between them, up to the end or to an offset where no
/// packet can be cut; what lies after that is the last piece.
pub fn cut(alloc: Global, meta: &TraceMeta, file: &[u8]) -> Result<Items<Piece>, OutOfMemory>
    requires { length file.now ≤ 2 ^ 60 }
    ensures pieces { IfOk result (λ found. found ≡ pieces meta.now file.now) }
    ensures inside { IfOk result (λ found. AllLieIn file.now found) }
{
    let known = KnownContexts::nothing();
    match cut_within(alloc, meta, known, file, u64::MAX)? {
        Some(found) => Ok(found),
        None => Err(OutOfMemory),
    }
}

/// The pieces of a stream file, and none where more than `most` packets are among them: of those no more than `most` are
/// kept. Contexts are read by their plans where `known` has them.
pub fn cut_within(
    alloc: Global,
    meta: &TraceMeta,
    known: KnownContexts<'_>,
    file: &[u8],
    most: u64,
) -> Result<Option<Items<Piece>>, OutOfMemory>
    requires file { length file.now ≤ 2 ^ 60 }
    requires plans { AreContextPlans meta.now.table known.plans.now }
    ensures pieces { IfOk result (λ r. IfSome r (λ found. found ≡ pieces meta.now file.now)) }
    ensures inside { IfOk result (λ r. IfSome r (λ found. AllLieIn file.now found)) }
    ensures within { IfOk result (λ r. IfSome r (λ found. packets_in (pieces meta.now file.now) ≤ most)) }
    ensures more { IfOk result (λ r. IfNone r (most < packets_in (pieces meta.now file.now))) }
{
    let mut found = Items::new(alloc);
    let mut offset = 0;
    while offset < file.len() as u64 {
        match packet_at(alloc, meta, known, offset, bytes_from(file, offset)) {
            Ok(span) => {
                if found.len() as u64 >= most {
                    return Ok(None);
                }
                found.push(Piece::Packet(span))?;
                offset += span.bytes;
            }
            Err(Failure::Refused(cause)) => {
                found.push(Piece::Bad { offset, cause })?;
                return Ok(Some(found));
            }
            Err(Failure::OutOfMemory) => return Err(OutOfMemory),
        }
    }
    Ok(Some(found))
}

/// The bytes of a file from this one on.
pub fn bytes_from(file: &[u8], offset: u64) -> &[u8]
    ensures { result.now ≡ drop offset file.now }
{
    match file.get(offset as usize..) {
        Some(rest) => rest,
        None => &[],
    }
}

// The packet that these bytes begin with, which lie at this offset in a file.
#[tactic(auto, using(crate::proofs::ToldHeads::cut_told), unfolding(crate::specs::Pieces::packet_at))]
fn packet_at(
    alloc: Global,
    meta: &TraceMeta,
    known: KnownContexts<'_>,
    offset: u64,
    rest: &[u8],
) -> Result<PacketSpan, Failure>
    requires rest { length rest.now ≤ 2 ^ 60 }
    requires plans { AreContextPlans meta.now.table known.plans.now }
    ensures answers { Answers (packet_at meta.now offset rest.now) result }
    ensures within { IfOk result (λ span. (1 ≤ span.bytes) × (span.bytes ≤ length rest.now) × (span.content_bits ≤ 8 * span.bytes) × (span.start_bit ≤ span.content_bits) × (span.offset ≡ offset)) }
{
    let told = tell_packet_head(alloc, meta, known, rest)?;
    span_of(meta.table(), offset, 8 * rest.len() as u64, &told)
}

// A packet with this head, at this offset in a file of which so many bits are left.
fn span_of(
    table: &Table,
    offset: u64,
    left: u64,
    told: &ToldPacketHead,
) -> Result<PacketSpan, Failure>
    ensures answers { Answers (span_told table.now offset left told.now) result }
    ensures within { IfOk result (λ span. (1 ≤ span.bytes) × (8 * span.bytes ≤ left) × (span.content_bits ≤ 8 * span.bytes) × (span.start_bit ≤ span.content_bits) × (span.offset ≡ offset)) }
{
    let numbers = told.numbers;
    let packet = value_of(numbers.packet_size);
    let content = value_of(numbers.content_size);
    let Some((bytes, content_bits)) = sizes(left, told.start, packet, content) else {
        return Err(Failure::Refused(Cause::BadSize));
    };
    Ok(PacketSpan {
        offset,
        bytes,
        start_bit: told.start,
        content_bits,
        stream: told.stream,
        begin: below_64(value_of(numbers.timestamp_begin)).unwrap_or(0),
        cpu: below_32(value_of(numbers.cpu_id)).unwrap_or(0),
        seq: counter_in(table, numbers.packet_seq_num),
        discarded: counter_in(table, numbers.events_discarded),
    })
}

// The size of a packet in bytes, and that of its content in bits.
fn sizes(left: u64, start: u64, packet: Option<i128>, content: Option<i128>) -> Option<(u64, u64)>
    ensures sizes { result ≡ sizes left start packet content }
    ensures within { IfSome result (λ r. (1 ≤ r.0) × (8 * r.0 ≤ left) × (r.1 ≤ 8 * r.0) × (start ≤ r.1)) }
{
    match (packet, content) {
        (Some(packet), Some(content)) => right_sizes(left, start, packet, content),
        (Some(packet), None) => right_sizes(left, start, packet, packet),
        (None, Some(content)) => right_sizes(left, start, content, content),
        (None, None) => right_sizes(left, start, i128::from(left), i128::from(left)),
    }
}

fn right_sizes(left: u64, start: u64, packet: i128, content: i128) -> Option<(u64, u64)>
    ensures sizes { result ≡ right_sizes left start packet content }
    ensures within { IfSome result (λ r. (1 ≤ r.0) × (8 * r.0 ≤ left) × (r.1 ≤ 8 * r.0) × (start ≤ r.1)) }
{
    if packet < 0 || content < 0 || packet > i128::from(left) || content > packet {
        return None;
    }
    let packet = packet as u64;
    let content = content as u64;
    if packet % 8 == 0 && packet >= 8 && start <= content {
        Some((packet / 8, content))
    } else {
        None
    }
}
