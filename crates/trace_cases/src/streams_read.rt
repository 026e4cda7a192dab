//! What a file's packets show to a reader that passes fields over which no kind needs, or that has plans.
ghost use Rattle.std.specs.Prelude.{◌≡◌, ◌≤◌, ◌^◌, length};
ghost use Rattle.kernel_layout.specs.Tracepoints.{layout_of};
ghost use Rattle.packet_decoder.specs.Pieces.{AllLieIn, LiesIn};

use crate::streams_fields::write_event;
use crate::streams_kinds::{names_of, write_kind, write_kinds};
use anyhow::bail;
use kernel_layout::{Layout, kind_from};
use packet_decoder::{EventReader, Failure, PacketSpan, Piece, ReadEvent, cut};
use std::alloc::{AllocError, Global};
use std::io::Write;
use trace_types::{KernelEvent, OutOfMemory, Text};
use type_table::TraceMeta;

/// What is shown of a packet: its events without the fields that were passed over, whether it is refused, the kinds of its
/// events by all of their fields, or those of events whose fields were passed over, by the bits.
#[derive(Clone, Copy)]
pub enum Shown {
    Kept,
    Refusals,
    Kinds,
    Placed,
}

// An event as the reader gave it, its kind, and whether it lacks a field.
#[derive(Drop)]
struct Seen {
    read: ReadEvent,
    kind: (KernelEvent, bool),
}

/// Appends what is shown of the pieces of a file.
pub fn print_packets(
    alloc: Global,
    shown: Shown,
    meta: &TraceMeta,
    file: &[u8],
    out: &mut Vec<u8>,
) -> anyhow::Result<()> {
    if file.len() > 1 << 60 {
        bail!("a file of more than 2^60 bytes");
    }
    let layout = Layout::new(alloc, meta)?;
    print_by(alloc, shown, meta, &layout, file, out)
}

fn print_by(
    alloc: Global,
    shown: Shown,
    meta: &TraceMeta,
    layout: &Layout,
    file: &[u8],
    out: &mut Vec<u8>,
) -> anyhow::Result<()>
    requires layout { layout.now ≡ layout_of meta.now }
    requires file { length file.now ≤ 2 ^ 60 }
{
    let names = names_of(alloc, meta)?;
    let pieces = cut(alloc, meta, file)?;
    write_pieces(
        alloc,
        shown,
        meta,
        layout,
        &names,
        file,
        pieces.as_slice(),
        out,
    )
}

fn write_pieces(
    alloc: Global,
    shown: Shown,
    meta: &TraceMeta,
    layout: &Layout,
    names: &[Text],
    file: &[u8],
    pieces: &[Piece],
    out: &mut Vec<u8>,
) -> anyhow::Result<()>
    requires layout { layout.now ≡ layout_of meta.now }
    requires file { length file.now ≤ 2 ^ 60 }
    requires pieces { AllLieIn file.now pieces.now }
{
    for piece in pieces {
        match piece {
            Piece::Packet(span) => {
                write_packet(alloc, shown, meta, layout, names, file, span, out)?;
            }
            Piece::Bad { offset, cause } => writeln!(out, "bad {offset} {cause:?}")?,
        }
    }
    Ok(())
}

fn write_packet(
    alloc: Global,
    shown: Shown,
    meta: &TraceMeta,
    layout: &Layout,
    names: &[Text],
    file: &[u8],
    span: &PacketSpan,
    out: &mut Vec<u8>,
) -> anyhow::Result<()>
    requires layout { layout.now ≡ layout_of meta.now }
    requires file { length file.now ≤ 2 ^ 60 }
    requires span { LiesIn file.now span.now }
{
    match shown {
        Shown::Kinds => write_kinds(alloc, meta, layout, names, file, span, out),
        Shown::Refusals => write_refusal(passed(alloc, meta, layout, file, span), out),
        Shown::Kept => match events_in(alloc, meta, layout, file, span) {
            Ok(events) => write_kept(meta, &events, out),
            Err(failure) => write_refusal(Err(failure), out),
        },
        Shown::Placed => match events_in(alloc, meta, layout, file, span) {
            Ok(events) => write_placed(names, &events, out),
            Err(failure) => write_refusal(Err(failure), out),
        },
    }
}

// Whether a packet is refused whose events aren't made.
fn passed(
    alloc: Global,
    meta: &TraceMeta,
    layout: &Layout,
    file: &[u8],
    span: &PacketSpan,
) -> Result<(), Failure>
    requires layout { layout.now ≡ layout_of meta.now }
    requires file { length file.now ≤ 2 ^ 60 }
    requires span { LiesIn file.now span.now }
{
    let mut reader = EventReader::open_known(alloc, meta, layout.contexts(meta), file, span)?;
    reader.plan_headers(alloc, layout.lone(meta))?;
    reader.skip_rest(alloc, layout.skips(meta))
}

fn write_refusal(passed: Result<(), Failure>, out: &mut Vec<u8>) -> anyhow::Result<()> {
    match passed {
        Ok(()) => writeln!(out, "accepted")?,
        Err(Failure::Refused(cause)) => writeln!(out, "refused {cause:?}")?,
        Err(Failure::OutOfMemory) => return Err(OutOfMemory.into()),
    }
    Ok(())
}

fn events_in(
    alloc: Global,
    meta: &TraceMeta,
    layout: &Layout,
    file: &[u8],
    span: &PacketSpan,
) -> Result<Vec<Seen>, Failure>
    requires layout { layout.now ≡ layout_of meta.now }
    requires file { length file.now ≤ 2 ^ 60 }
    requires span { LiesIn file.now span.now }
{
    let mut reader = EventReader::open_known(alloc, meta, layout.contexts(meta), file, span)?;
    let mut events = Vec::new(alloc);
    reader.plan_headers(alloc, layout.lone(meta))?;
    while let Some(read) = reader.next_event_of(alloc, layout.skips(meta))? {
        let kind = kind_from(meta, layout, &read.raw, reader.bits(), read.fields_at);
        if let Err(full) = events.push(Seen { read, kind }) {
            return Err(AllocError::from(full).into());
        }
    }
    Ok(events)
}

fn write_kept(meta: &TraceMeta, events: &[Seen], out: &mut Vec<u8>) -> anyhow::Result<()> {
    for event in events {
        write_event(meta, &event.read.raw, out)?;
    }
    Ok(())
}

// The first bit of an event's fields stands before its kind where they were passed over.
fn write_placed(names: &[Text], events: &[Seen], out: &mut Vec<u8>) -> anyhow::Result<()> {
    for event in events {
        if let Some(bit) = event.read.fields_at {
            write!(out, "at {bit}: ")?;
        }
        write_kind(names, &event.read.raw, event.kind, out)?;
    }
    Ok(())
}
