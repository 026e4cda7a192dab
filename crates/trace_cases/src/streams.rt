//! What the crates of streams answer of a text of metadata and of stream files.

use crate::streams_cut::print_pieces;
use crate::streams_host::print_host;
use crate::streams_read::{Shown, print_packets};
use std::alloc::Global;
use std::thread::Threads;
use tsdl_lex::{Token, tokens};
use tsdl_parser::{Decl, parse};
use tsdl_types::resolve;
use type_table::TraceMeta;

/// Appends the text of a mode over these files, of which the first is the metadata and the others are streams. False
/// comes where there is no such mode, or where it takes other files.
pub fn print(
    alloc: Global,
    threads: &(impl Threads + Sync),
    mode: &str,
    names: &[String],
    files: &[Vec<u8>],
    out: &mut Vec<u8>,
) -> anyhow::Result<bool> {
    match (mode, names, files) {
        ("host", [_, names @ ..], [metadata, streams @ ..]) => {
            print_host(alloc, threads, metadata, names, streams, out)?;
        }
        (mode, _, [metadata, stream]) => return print_stream(alloc, mode, metadata, stream, out),
        _ => return Ok(false),
    }
    Ok(true)
}

// The modes of one stream file.
fn print_stream(
    alloc: Global,
    mode: &str,
    metadata: &[u8],
    stream: &[u8],
    out: &mut Vec<u8>,
) -> anyhow::Result<bool> {
    let meta = declared(alloc, metadata)?;
    print_declared(alloc, mode, &meta, stream, out)
}

fn print_declared(
    alloc: Global,
    mode: &str,
    meta: &TraceMeta,
    stream: &[u8],
    out: &mut Vec<u8>,
) -> anyhow::Result<bool> {
    match mode {
        "cut" => print_pieces(alloc, meta, stream, out)?,
        "skips" => print_packets(alloc, Shown::Kept, meta, stream, out)?,
        "rests" => print_packets(alloc, Shown::Refusals, meta, stream, out)?,
        "kinds" => print_packets(alloc, Shown::Kinds, meta, stream, out)?,
        "placed" => print_packets(alloc, Shown::Placed, meta, stream, out)?,
        _ => return Ok(false),
    }
    Ok(true)
}

// What a text of metadata declares, from its tokens to its types.
fn declared(alloc: Global, text: &[u8]) -> anyhow::Result<TraceMeta> {
    let found = tokens(alloc, text)?;
    declared_by(alloc, &found)
}

fn declared_by(alloc: Global, found: &[Token]) -> anyhow::Result<TraceMeta> {
    let decls = parse(alloc, found)?;
    resolved(alloc, &decls)
}

fn resolved(alloc: Global, decls: &[Decl]) -> anyhow::Result<TraceMeta> {
    Ok(resolve(alloc, decls)?)
}
