//! Packets, decoded batch by batch, so that few of their events are kept before these are counted.
ghost use Rattle.std.specs.Prelude.{◌≡◌, ◌≤◌, ◌<◌, ◌+◌, ◌++◌, All, IfNone, IfOk, IfSome, length, map, take};
ghost use Rattle.decode_pool.specs.Excess.{events_in, kept_parts, least_events, part_events};
ghost use Rattle.decode_pool.specs.Jobs.{Allows, CanDecode, job_part};

use crate::decoded_packet::{DecodedPacket, part_events};
use crate::decoding::{Job, decode_jobs};
use packet_decoder::Piece;
use std::alloc::Global;
use std::thread::Threads;
use trace_types::{MAX_EVENTS, OutOfMemory};

/// How many events the packets of a batch have at most: those of four packets with the most that are kept of one. An
/// event takes a bit at least.
const BATCH_EVENTS: u64 = 4 * MAX_EVENTS;

/// What pieces hold, in their order, whatever the number of processors, and none where these are more than `most`
/// events. After the batch in which the events pass `most`, nothing is decoded.
pub fn parts_within(
    rt: &(impl Threads + Sync),
    alloc: Global,
    jobs: &[Job<'_>],
    most: u64,
) -> Result<Option<Vec<DecodedPacket>>, OutOfMemory>
    requires can { All CanDecode jobs.now }
    requires allowed { All (Allows most) jobs.now }
    ensures parts { IfOk result (λ r. IfSome r (λ parts. parts.items ≡ map job_part jobs.now)) }
    ensures more { IfOk result (λ r. IfNone r (most < events_in (map job_part jobs.now))) }
{
    let mut parts = Vec::new(alloc);
    let mut room = most;
    let mut done = 0;
    while done < jobs.len() {
        let Some(batch) = add_batch(rt, alloc, &jobs[done..], room, &mut parts)? else {
            return Ok(None);
        };
        room = batch.room;
        done += batch.length;
    }
    Ok(Some(parts))
}

// How many pieces were decoded together, and how many events may still come.
#[derive(Clone, Copy)]
struct Batch {
    length: usize,
    room: u64,
}

// Adds what the first of these pieces hold, where `room` events may come; none where there are more.
fn add_batch(
    rt: &(impl Threads + Sync),
    alloc: Global,
    jobs: &[Job<'_>],
    room: u64,
    parts: &mut Vec<DecodedPacket>,
) -> Result<Option<Batch>, OutOfMemory>
    requires can { All CanDecode jobs.now }
    requires allowed { All (Allows room) jobs.now }
    ensures some { IfOk result (λ r. IfSome r (λ batch. 0 < length jobs.now → 0 < batch.length)) }
    ensures within { IfOk result (λ r. IfSome r (λ batch. batch.length ≤ length jobs.now)) }
    ensures parts { IfOk result (λ r. IfSome r (λ batch. parts.new.items ≡ parts.old.items ++ map job_part (take batch.length jobs.now))) }
    ensures room { IfOk result (λ r. IfSome r (λ batch. batch.room + events_in (map job_part (take batch.length jobs.now)) ≡ room)) }
    ensures more { IfOk result (λ r. IfNone r (room < events_in (map job_part jobs.now))) }
{
    let length = batch_length(jobs);
    let found = decode_jobs(rt, alloc, &jobs[..length])?;
    match add_kept(found, room, parts)? {
        Some(room) => Ok(Some(Batch { length, room })),
        None => Ok(None),
    }
}

// How many of the first pieces are decoded together.
fn batch_length(jobs: &[Job<'_>]) -> usize
    ensures some { 0 < length jobs.now → 0 < result }
    ensures within { result ≤ length jobs.now }
{
    let mut events = 0u64;
    for (at, job) in jobs.iter().enumerate() {
        events += most_events(&job.piece);
        if events > BATCH_EVENTS {
            return at.max(1);
        }
    }
    jobs.len()
}

// How many events of a piece are kept at most.
fn most_events(piece: &Piece) -> u64
    ensures { result ≤ 2097152 }
{
    match piece {
        Piece::Packet(span) => span.content_bits.min(MAX_EVENTS),
        Piece::Bad { .. } => 0,
    }
}

// Adds the parts of a batch, and answers how many events may still come, where `room` may; none where there are more.
fn add_kept(
    found: Vec<Option<DecodedPacket>>,
    room: u64,
    parts: &mut Vec<DecodedPacket>,
) -> Result<Option<u64>, OutOfMemory>
    ensures parts { IfOk result (λ r. IfSome r (λ less. parts.new.items ≡ parts.old.items ++ kept_parts found.items)) }
    ensures room { IfOk result (λ r. IfSome r (λ less. less + least_events room found.items ≡ room)) }
    ensures more { IfOk result (λ r. IfNone r (room < least_events room found.items)) }
{
    let mut left = room;
    for part in found {
        let Some(part) = part else {
            return Ok(None);
        };
        let events = part_events(&part);
        if events > left {
            return Ok(None);
        }
        left -= events;
        parts.push(part)?;
    }
    Ok(Some(left))
}
