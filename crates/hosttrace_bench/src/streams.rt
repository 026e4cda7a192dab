//! The stream files of a trace, cut and decoded.
ghost use Rattle.std.specs.Prelude.{◌≤◌, ◌^◌, length};
ghost use Rattle.packet_decoder.specs.Pieces.{AllLieIn};

use crate::nanoseconds_since;
use anyhow::bail;
use packet_decoder::{Piece, cut, decode};
use std::alloc::Global;
use std::fs;
use std::process::ExitCode;
use std::time::Instant;
use trace_metadata::read_metadata;
use trace_types::OutOfMemory;
use type_table::TraceMeta;

const RUNS: u32 = 5;

/// Prints one line: the fewest nanoseconds of five runs of cutting and decoding the stream files of a trace.
pub fn print_decode_time(
    rt: &HostRuntime,
    metadata: &str,
    files: &[String],
) -> anyhow::Result<ExitCode> {
    let bytes = fs::read(rt, metadata)?;
    print_time_by(rt, &bytes, files)
}

// `metadata` is the bytes of a file of metadata.
fn print_time_by(rt: &HostRuntime, metadata: &[u8], files: &[String]) -> anyhow::Result<ExitCode> {
    let meta = read_metadata(rt.alloc(), metadata)?;
    print_fewest(rt, &meta, files)
}

fn print_fewest(rt: &HostRuntime, meta: &TraceMeta, files: &[String]) -> anyhow::Result<ExitCode> {
    let mut fewest = u128::MAX;
    for _ in 0..RUNS {
        fewest = fewest.min(one_run(rt, meta, files)?);
    }
    println!(rt; "decode {fewest}")?;
    Ok(ExitCode::SUCCESS)
}

fn one_run(rt: &HostRuntime, meta: &TraceMeta, files: &[String]) -> anyhow::Result<u128> {
    let mut nanoseconds = 0u128;
    for file in files {
        nanoseconds = nanoseconds.saturating_add(time_file(rt, meta, file.as_str())?);
    }
    Ok(nanoseconds)
}

// Reading the file isn't timed.
fn time_file(rt: &HostRuntime, meta: &TraceMeta, path: &str) -> anyhow::Result<u128> {
    let bytes = fs::read(rt, path)?;
    time_bytes(rt, meta, &bytes)
}

fn time_bytes(rt: &HostRuntime, meta: &TraceMeta, file: &[u8]) -> anyhow::Result<u128> {
    if file.len() > 1 << 60 {
        bail!("a file of more than 2^60 bytes");
    }
    let begun = Instant::now(rt)?;
    cut_and_decode(rt.alloc(), meta, file)?;
    nanoseconds_since(rt, begun)
}

fn cut_and_decode(alloc: Global, meta: &TraceMeta, file: &[u8]) -> Result<(), OutOfMemory>
    requires { length file.now ≤ 2 ^ 60 }
{
    let pieces = cut(alloc, meta, file)?;
    decode_pieces(alloc, meta, file, pieces.as_slice())
}

fn decode_pieces(
    alloc: Global,
    meta: &TraceMeta,
    file: &[u8],
    pieces: &[Piece],
) -> Result<(), OutOfMemory>
    requires file { length file.now ≤ 2 ^ 60 }
    requires pieces { AllLieIn file.now pieces.now }
{
    for piece in pieces {
        if let Piece::Packet(span) = piece {
            let _found = decode(alloc, meta, file, span)?;
        }
    }
    Ok(())
}
