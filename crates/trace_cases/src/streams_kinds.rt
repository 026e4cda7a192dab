//! The kinds of kernel events, as lines of an event list.
ghost use Rattle.std.specs.Prelude.{◌≡◌, ◌≤◌, ◌^◌, length};
ghost use Rattle.kernel_layout.specs.Tracepoints.{layout_of};
ghost use Rattle.packet_decoder.specs.Pieces.{LiesIn};

use ctf_fields::RawEvent;
use event_list::append_line;
use kernel_layout::{Layout, kind_of};
use packet_decoder::{PacketResult, PacketSpan, decode};
use std::alloc::Global;
use std::io::Write;
use trace_types::{Event, KernelEvent, Merged, OutOfMemory, Text};
use type_table::TraceMeta;

/// The event names of a trace.
pub fn names_of(alloc: Global, meta: &TraceMeta) -> Result<Vec<Text>, OutOfMemory> {
    let mut names = Vec::new(alloc);
    for number in 0..u32::MAX {
        let Some(name) = meta.event_name(number) else {
            break;
        };
        names.push(Text::from_bytes(alloc, name)?)?;
    }
    Ok(names)
}

/// Appends the kinds of the events of a packet, of which all fields are read.
pub fn write_kinds(
    alloc: Global,
    meta: &TraceMeta,
    layout: &Layout,
    names: &[Text],
    file: &[u8],
    span: &PacketSpan,
    out: &mut Vec<u8>,
) -> anyhow::Result<()>
    requires layout { layout.now ≡ layout_of meta.now }
    requires file { length file.now ≤ 2 ^ 60 }
    requires span { LiesIn file.now span.now }
{
    match decode(alloc, meta, file, span)? {
        PacketResult::Events(events) => {
            write_kinds_of(meta, layout, names, events.as_slice(), out)?;
        }
        PacketResult::Refused { cause } => writeln!(out, "refused {cause:?}")?,
    }
    Ok(())
}

fn write_kinds_of(
    meta: &TraceMeta,
    layout: &Layout,
    names: &[Text],
    events: &[RawEvent],
    out: &mut Vec<u8>,
) -> anyhow::Result<()>
    requires { layout.now ≡ layout_of meta.now }
{
    for event in events {
        write_kind(names, event, kind_of(meta, layout, event), out)?;
    }
    Ok(())
}

/// Appends the line of an event of host 0, whose key is its time. Before it stands whether it lacks a field.
pub fn write_kind(
    names: &[Text],
    raw: &RawEvent,
    kind: (KernelEvent, bool),
    out: &mut Vec<u8>,
) -> anyhow::Result<()> {
    let (kind, lacks) = kind;
    if lacks {
        out.write_all(b"lacks a field: ")?;
    }
    let event = Event {
        time: raw.time,
        host: 0,
        cpu: raw.cpu,
        kind,
    };
    write_own_line(event, names, out)
}

/// Appends the line of an event, whose key is its time.
pub fn write_own_line(event: Event, names: &[Text], out: &mut Vec<u8>) -> anyhow::Result<()> {
    let key = event.time;
    append_line(&Merged { key, event }, names, out)?;
    Ok(())
}
