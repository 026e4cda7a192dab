//! The pieces that a stream file is cut into, and the events of its packets.
ghost use Rattle.std.specs.Prelude.{◌≤◌, ◌^◌, length};
ghost use Rattle.packet_decoder.specs.Pieces.{AllLieIn, LiesIn};

use crate::streams_fields::write_events;
use anyhow::bail;
use kernel_layout::Layout;
use packet_decoder::{Counter, PacketResult, PacketSpan, Piece, cut, cut_within, decode};
use std::alloc::Global;
use std::io::{self, Write};
use type_table::TraceMeta;

/// Appends a line for each piece of a file, and one for each event of an accepted packet. The file is cut twice: the
/// plain way, and with contexts that are read by their plans. Where the texts differ, both stand there.
pub fn print_pieces(
    alloc: Global,
    meta: &TraceMeta,
    file: &[u8],
    out: &mut Vec<u8>,
) -> anyhow::Result<()> {
    if file.len() > 1 << 60 {
        bail!("a file of more than 2^60 bytes");
    }
    let plain = plain_text(alloc, meta, file)?;
    let planned = planned_text(alloc, meta, file)?;
    write_texts(&plain, &planned, out)?;
    Ok(())
}

fn write_texts(plain: &[u8], planned: &[u8], out: &mut Vec<u8>) -> io::Result<()> {
    if plain == planned {
        return out.write_all(plain);
    }
    out.write_all(b"plain\n")?;
    out.write_all(plain)?;
    out.write_all(b"planned\n")?;
    out.write_all(planned)
}

fn plain_text(alloc: Global, meta: &TraceMeta, file: &[u8]) -> anyhow::Result<Vec<u8>>
    requires { length file.now ≤ 2 ^ 60 }
{
    let pieces = cut(alloc, meta, file)?;
    text_of(alloc, meta, file, pieces.as_slice())
}

fn planned_text(alloc: Global, meta: &TraceMeta, file: &[u8]) -> anyhow::Result<Vec<u8>>
    requires { length file.now ≤ 2 ^ 60 }
{
    let layout = Layout::new(alloc, meta)?;
    let Some(pieces) = cut_within(alloc, meta, layout.contexts(meta), file, u64::MAX)? else {
        bail!("too many packets");
    };
    text_of(alloc, meta, file, pieces.as_slice())
}

fn text_of(
    alloc: Global,
    meta: &TraceMeta,
    file: &[u8],
    pieces: &[Piece],
) -> anyhow::Result<Vec<u8>>
    requires file { length file.now ≤ 2 ^ 60 }
    requires pieces { AllLieIn file.now pieces.now }
{
    let mut out = Vec::new(alloc);
    write_pieces(alloc, meta, file, pieces, &mut out)?;
    Ok(out)
}

fn write_pieces(
    alloc: Global,
    meta: &TraceMeta,
    file: &[u8],
    pieces: &[Piece],
    out: &mut Vec<u8>,
) -> anyhow::Result<()>
    requires file { length file.now ≤ 2 ^ 60 }
    requires pieces { AllLieIn file.now pieces.now }
{
    for piece in pieces {
        match piece {
            Piece::Packet(span) => write_decoded(alloc, meta, file, span, out)?,
            Piece::Bad { offset, cause } => writeln!(out, "bad {offset} {cause:?}")?,
        }
    }
    Ok(())
}

fn write_decoded(
    alloc: Global,
    meta: &TraceMeta,
    file: &[u8],
    span: &PacketSpan,
    out: &mut Vec<u8>,
) -> anyhow::Result<()>
    requires file { length file.now ≤ 2 ^ 60 }
    requires span { LiesIn file.now span.now }
{
    let found = decode(alloc, meta, file, span)?;
    write_packet(meta, span, &found, out)?;
    Ok(())
}

fn write_packet(
    meta: &TraceMeta,
    span: &PacketSpan,
    found: &PacketResult,
    out: &mut Vec<u8>,
) -> io::Result<()> {
    write!(out, "packet {} {}", span.offset, span.bytes)?;
    write_counter("seq", span.seq, out)?;
    write_counter("discarded", span.discarded, out)?;
    match found {
        PacketResult::Refused { cause } => writeln!(out, " refused {cause:?}"),
        PacketResult::Events(events) => {
            writeln!(out)?;
            write_events(meta, events.as_slice(), out)
        }
    }
}

fn write_counter(word: &str, counter: Option<Counter>, out: &mut Vec<u8>) -> io::Result<()> {
    match counter {
        Some(Counter { value, size }) => write!(out, " {word} {value}/{size}"),
        None => Ok(()),
    }
}
