//! Packets, decoded side by side.
ghost use Rattle.std.specs.Prelude.{◌≡◌, All, IfOk, map};
ghost use Rattle.decode_pool.specs.Jobs.{CanDecode, job_within};

use crate::decoded_packet::{DecodedPacket, part_within};
use kernel_layout::Layout;
use packet_decoder::Piece;
use rayon::prelude::*;
use std::alloc::Global;
use std::thread::Threads;
use trace_types::OutOfMemory;
use type_table::TraceMeta;

/// A piece of a file, with what decoding it needs, and how many events of it are kept at most.
#[derive(Clone, Copy)]
pub struct Job<'a> {
    pub host: u32,
    pub meta: &'a TraceMeta,
    pub layout: &'a Layout,
    pub file: &'a [u8],
    pub piece: Piece,
    pub most: u64,
}

/// What pieces hold, in their order, whatever the number of processors; none in the place of a packet with too many
/// events.
pub fn decode_jobs(
    rt: &(impl Threads + Sync),
    alloc: Global,
    jobs: &[Job<'_>],
) -> Result<Vec<Option<DecodedPacket>>, OutOfMemory>
    requires { All CanDecode jobs.now }
    ensures { IfOk result (λ parts. parts.items ≡ map job_within jobs.now) }
{
    let parts: Result<Vec<Option<DecodedPacket>>, OutOfMemory> = jobs
        .par_iter()
        .with_min_len(1)
        .map(
            |job: &Job<'_>| -> Result<Option<DecodedPacket>, OutOfMemory>
                requires { CanDecode job.now }
                ensures { IfOk result (λ part. part ≡ job_within job.now) }
            { decode_job(alloc, job) },
        )
        .collect(rt, alloc)?;
    parts
}

fn decode_job(alloc: Global, job: &Job<'_>) -> Result<Option<DecodedPacket>, OutOfMemory>
    requires { CanDecode job.now }
    ensures { IfOk result (λ part. part ≡ job_within job.now) }
{
    part_within(
        alloc, job.most, job.host, job.meta, job.layout, job.file, &job.piece,
    )
}
