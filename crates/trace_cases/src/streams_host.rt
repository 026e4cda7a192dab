//! The list of events of a host with these files.
ghost use Rattle.std.specs.Prelude.{◌≤◌, ◌^◌, IfOk, OnOk, length};
ghost use Rattle.std.specs.List.{AllByRecursion};
ghost use Rattle.decode_pool.specs.Hosts.{IsSmall};

use crate::streams_kinds::write_own_line;
use anyhow::bail;
use decode_pool::{FileBytes, HostFiles, host_events};
use std::alloc::Global;
use std::io::Write;
use std::thread::Threads;
use trace_metadata::read_metadata;
use trace_types::{Event, HostEvents, RefusedPacket, Text, write_byte_text};

// The host's number: not 0, so that it shows where it is lost.
const HOST: u32 = 3;

/// Appends what is read of host 3: a line of the host, the names of its events, a line for each refused packet, and one
/// for each event, as in an event list.
pub fn print_host(
    alloc: Global,
    threads: &(impl Threads + Sync),
    metadata: &[u8],
    names: &[String],
    streams: &[Vec<u8>],
    out: &mut Vec<u8>,
) -> anyhow::Result<()> {
    let host = host_of(alloc, metadata, names, streams)?;
    print_events(alloc, threads, &host, out)
}

fn host_of(
    alloc: Global,
    metadata: &[u8],
    names: &[String],
    streams: &[Vec<u8>],
) -> anyhow::Result<HostFiles>
    ensures { IfOk result (λ host. AllByRecursion IsSmall host.files.items) }
{
    let files = files_of(alloc, names, streams)?;
    Ok(HostFiles {
        host: HOST,
        meta: read_metadata(alloc, metadata)?,
        files,
    })
}

fn files_of(alloc: Global, names: &[String], streams: &[Vec<u8>]) -> anyhow::Result<Vec<FileBytes>>
    ensures { IfOk result (λ files. AllByRecursion IsSmall files.items) }
{
    let mut files = Vec::new(alloc);
    for (name, bytes) in names.iter().zip(streams) {
        add_file(alloc, own_name(name.as_str()), bytes, &mut files)?;
    }
    Ok(files)
}

// A file's name in its folder.
fn own_name(path: &str) -> &str {
    match path.rsplit_once('/') {
        Some((_, name)) => name,
        None => path,
    }
}

fn add_file(
    alloc: Global,
    name: &str,
    bytes: &[u8],
    files: &mut Vec<FileBytes>,
) -> anyhow::Result<()>
    requires { AllByRecursion IsSmall files.old.items }
    ensures { OnOk result (AllByRecursion IsSmall files.new.items) }
{
    if bytes.len() > 1 << 60 {
        bail!("a file of more than 2^60 bytes");
    }
    let name = Text::from_bytes(alloc, name.as_bytes())?;
    let bytes = Vec::from_slice(alloc, bytes)?;
    files.push(FileBytes { name, bytes })?;
    Ok(())
}

fn print_events(
    alloc: Global,
    threads: &(impl Threads + Sync),
    host: &HostFiles,
    out: &mut Vec<u8>,
) -> anyhow::Result<()>
    requires { AllByRecursion IsSmall host.now.files.items }
{
    let found = host_events(threads, alloc, host)?;
    write_host(&found, out)
}

fn write_host(found: &HostEvents, out: &mut Vec<u8>) -> anyhow::Result<()> {
    write!(out, "host {} ", found.host)?;
    write_byte_text(found.hostname.as_bytes(), out)?;
    writeln!(
        out,
        " events {} packets {} refused {} incomplete {}",
        found.events.len(),
        found.packets,
        found.refused.len(),
        found.incomplete
    )?;
    write_names(&found.names, out)?;
    write_all_refused(&found.refused, out)?;
    write_list(&found.events, &found.names, out)
}

fn write_names(names: &[Text], out: &mut Vec<u8>) -> anyhow::Result<()> {
    out.write_all(b"names")?;
    for name in names {
        out.write_all(b" ")?;
        write_byte_text(name.as_bytes(), out)?;
    }
    writeln!(out)?;
    Ok(())
}

fn write_all_refused(refused: &[RefusedPacket], out: &mut Vec<u8>) -> anyhow::Result<()> {
    for packet in refused {
        write_refused(packet, out)?;
    }
    Ok(())
}

fn write_refused(packet: &RefusedPacket, out: &mut Vec<u8>) -> anyhow::Result<()> {
    out.write_all(b"refused ")?;
    write_byte_text(packet.file.as_bytes(), out)?;
    writeln!(out, " {} {:?}", packet.offset, packet.cause)?;
    Ok(())
}

fn write_list(events: &[Event], names: &[Text], out: &mut Vec<u8>) -> anyhow::Result<()> {
    for event in events {
        write_own_line(*event, names, out)?;
    }
    Ok(())
}
