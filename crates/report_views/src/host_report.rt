//! The report on hosts that were brought to one clock.
ghost use Rattle.std.specs.Prelude.{◌≡◌, ◌++◌, ◌*◌, ◌^◌, ◌<◌, ◌≤◌, ◌∷◌, [], All, IfOk, OnOk, OnErr, codes, flat_map, length, slice_get};
ghost use Rattle.std.specs.Fmt.{decimal};
ghost use Rattle.trace_types.specs.Order.{RiseFrom};
ghost use Rattle.host_tree.specs.Points.{IsBetween};
ghost use Rattle.report_views.specs.Report.{clocks_part, host_line, hosts_part, inverted_line, inverted_lines, lost_line, merge_part, messages_line, refused_line, refused_lines, report_text, window_line};

use crate::call_lines::write_calls;
use crate::cause_word::cause_word;
use crate::clock_lines::{write_pairs, write_trees};
use crate::marks::marks_of;
use crate::time_lines::write_times;
use host_merge::{Placed, inverted};
use host_tree::{Parent, Parents};
use hull_lines::Fit;
use message_match::{Message, Messages};
use state_times::{first_key, last_key};
use std::alloc::Global;
use std::io::Write;
use trace_types::{HostEvents, Merged, OutOfMemory, RefusedPacket, write_byte_text};

/// Appends the report: what was read of each host, how their clocks fit, which messages stand the wrong way round in the
/// merge, how busy each processor was, how long each thread ran, and which system calls were made.
/// `drift` is in parts per million. The only error is lack of memory, after which nothing has changed.
pub fn report(
    alloc: Global,
    hosts: &[HostEvents],
    messages: &Messages,
    fits: &[Fit],
    forest: &Parents,
    merged: &[Merged],
    placed: &[Placed],
    drift: u32,
    out: &mut Vec<u8>,
) -> Result<(), OutOfMemory>
    requires few { length hosts.now ≤ 64 }
    requires square { length fits.now ≡ length hosts.now * length hosts.now }
    requires between { All (IsBetween (length hosts.now)) messages.now.matched.items }
    requires placed { length placed.now < 2 ^ 32 }
    requires rises { RiseFrom 0 merged.now }
    ensures text { OnOk result (out.new.items ≡ out.old.items ++ report_text hosts.now messages.now.matched.items messages.now.ambiguous fits.now forest.now.items merged.now placed.now drift) }
    ensures err { OnErr result (out.new.items ≡ out.old.items) }
{
    let mut text = report_lines(alloc, hosts, messages, fits, forest, merged, placed, drift)?;
    out.append(&mut text)?;
    Ok(())
}

fn report_lines(
    alloc: Global,
    hosts: &[HostEvents],
    messages: &Messages,
    fits: &[Fit],
    forest: &Parents,
    merged: &[Merged],
    placed: &[Placed],
    drift: u32,
) -> Result<Vec<u8>, OutOfMemory>
    requires few { length hosts.now ≤ 64 }
    requires square { length fits.now ≡ length hosts.now * length hosts.now }
    requires between { All (IsBetween (length hosts.now)) messages.now.matched.items }
    requires placed { length placed.now < 2 ^ 32 }
    requires rises { RiseFrom 0 merged.now }
    ensures { IfOk result (λ text. text.items ≡ report_text hosts.now messages.now.matched.items messages.now.ambiguous fits.now forest.now.items merged.now placed.now drift) }
{
    let mut text = Vec::new(alloc);
    write_hosts(hosts, drift, &mut text)?;
    write_clocks(alloc, hosts.len(), messages, fits, forest, &mut text)?;
    write_merge(alloc, &messages.matched, merged, placed, &mut text)?;
    write_times(alloc, merged, &mut text)?;
    write_calls(alloc, hosts, &mut text)?;
    text.extend_from_slice(b"end\n")?;
    Ok(text)
}

// What was read of each host.
fn write_hosts(hosts: &[HostEvents], drift: u32, out: &mut Vec<u8>) -> Result<(), OutOfMemory>
    ensures { OnOk result (out.new.items ≡ out.old.items ++ hosts_part hosts.now drift) }
{
    write_head(drift, out)?;
    write_host_lines(hosts, out)?;
    write_refused(hosts, out)?;
    write_lost(hosts, out)
}

fn write_head(drift: u32, out: &mut Vec<u8>) -> Result<(), OutOfMemory>
    ensures { OnOk result (out.new.items ≡ out.old.items ++ (codes "hosttrace report 1\ndrift " ++ decimal drift ++ 10 ∷ [])) }
{
    write!(out, "hosttrace report 1\ndrift {drift}\n").map_err(|_| OutOfMemory)
}

fn write_host_lines(hosts: &[HostEvents], out: &mut Vec<u8>) -> Result<(), OutOfMemory>
    ensures { OnOk result (out.new.items ≡ out.old.items ++ flat_map host_line hosts.now) }
{
    for host in hosts {
        write_host_line(host, out)?;
    }
    Ok(())
}

fn write_host_line(host: &HostEvents, out: &mut Vec<u8>) -> Result<(), OutOfMemory>
    ensures { OnOk result (out.new.items ≡ out.old.items ++ host_line host.now) }
{
    let number = host.host;
    write!(out, "host {number} ").map_err(|_| OutOfMemory)?;
    write_byte_text(host.hostname.as_bytes(), out)?;
    let events = host.events.len();
    let packets = host.packets;
    let refused = host.refused.len();
    let incomplete = host.incomplete;
    writeln!(
        out,
        " events {events} packets {packets} refused {refused} incomplete {incomplete}"
    )
    .map_err(|_| OutOfMemory)
}

fn write_refused(hosts: &[HostEvents], out: &mut Vec<u8>) -> Result<(), OutOfMemory>
    ensures { OnOk result (out.new.items ≡ out.old.items ++ flat_map refused_lines hosts.now) }
{
    for host in hosts {
        write_refused_of(host.host, &host.refused, out)?;
    }
    Ok(())
}

fn write_refused_of(
    host: u32,
    refused: &[RefusedPacket],
    out: &mut Vec<u8>,
) -> Result<(), OutOfMemory>
    ensures { OnOk result (out.new.items ≡ out.old.items ++ flat_map (refused_line host) refused.now) }
{
    for packet in refused {
        write_refused_line(host, packet, out)?;
    }
    Ok(())
}

fn write_refused_line(
    host: u32,
    packet: &RefusedPacket,
    out: &mut Vec<u8>,
) -> Result<(), OutOfMemory>
    ensures { OnOk result (out.new.items ≡ out.old.items ++ refused_line host packet.now) }
{
    write!(out, "refused {host} ").map_err(|_| OutOfMemory)?;
    write_byte_text(packet.file.as_bytes(), out)?;
    let offset = packet.offset;
    let cause = cause_word(packet.cause);
    writeln!(out, " {offset} {cause}").map_err(|_| OutOfMemory)
}

fn write_lost(hosts: &[HostEvents], out: &mut Vec<u8>) -> Result<(), OutOfMemory>
    ensures { OnOk result (out.new.items ≡ out.old.items ++ flat_map lost_line hosts.now) }
{
    for host in hosts {
        write_lost_line(host, out)?;
    }
    Ok(())
}

// The marks of a host, where it has any.
fn write_lost_line(host: &HostEvents, out: &mut Vec<u8>) -> Result<(), OutOfMemory>
    ensures { OnOk result (out.new.items ≡ out.old.items ++ lost_line host.now) }
{
    let marks = marks_of(&host.events);
    if marks.count == 0 {
        return Ok(());
    }
    let number = host.host;
    let count = marks.count;
    let events = marks.events;
    writeln!(out, "lost {number} {count} {events}").map_err(|_| OutOfMemory)
}

// How the clocks fit.
fn write_clocks(
    alloc: Global,
    hosts: usize,
    messages: &Messages,
    fits: &[Fit],
    forest: &[Parent],
    out: &mut Vec<u8>,
) -> Result<(), OutOfMemory>
    requires few { hosts ≤ 64 }
    requires square { length fits.now ≡ hosts * hosts }
    requires between { All (IsBetween hosts) messages.now.matched.items }
    ensures { OnOk result (out.new.items ≡ out.old.items ++ clocks_part hosts messages.now.matched.items messages.now.ambiguous fits.now forest.now) }
{
    write_messages_line(messages, out)?;
    write_pairs(alloc, hosts, &messages.matched, fits, out)?;
    write_trees(forest, out)
}

pub(crate) fn write_messages_line(messages: &Messages, out: &mut Vec<u8>) -> Result<(), OutOfMemory>
    ensures { OnOk result (out.new.items ≡ out.old.items ++ messages_line messages.now.matched.items messages.now.ambiguous) }
{
    let matched = messages.matched.len();
    let ambiguous = messages.ambiguous;
    writeln!(out, "messages matched {matched} ambiguous {ambiguous}").map_err(|_| OutOfMemory)
}

// How messages stand in the merge, and how long it lasts.
fn write_merge(
    alloc: Global,
    matched: &[Message],
    merged: &[Merged],
    placed: &[Placed],
    out: &mut Vec<u8>,
) -> Result<(), OutOfMemory>
    requires { length placed.now < 2 ^ 32 }
    ensures { OnOk result (out.new.items ≡ out.old.items ++ merge_part matched.now merged.now placed.now) }
{
    let numbers = inverted(alloc, placed)?;
    write_inverted(matched, &numbers, out)?;
    write_window(merged, out)
}

fn write_inverted(
    matched: &[Message],
    numbers: &[u32],
    out: &mut Vec<u8>,
) -> Result<(), OutOfMemory>
    ensures { OnOk result (out.new.items ≡ out.old.items ++ inverted_lines matched.now numbers.now) }
{
    let count = numbers.len();
    writeln!(out, "inverted {count}").map_err(|_| OutOfMemory)?;
    for number in numbers {
        write_inverted_line(matched, *number, out)?;
    }
    Ok(())
}

fn write_inverted_line(
    matched: &[Message],
    number: u32,
    out: &mut Vec<u8>,
) -> Result<(), OutOfMemory>
    ensures { OnOk result (out.new.items ≡ out.old.items ++ inverted_line (slice_get matched.now number)) }
{
    let Some(message) = matched.get(number as usize) else {
        return Ok(());
    };
    let Message {
        from,
        sent,
        to,
        received,
        ..
    } = *message;
    writeln!(out, "inverted-message {from} {sent} {to} {received}").map_err(|_| OutOfMemory)
}

fn write_window(merged: &[Merged], out: &mut Vec<u8>) -> Result<(), OutOfMemory>
    ensures { OnOk result (out.new.items ≡ out.old.items ++ window_line merged.now) }
{
    let first = first_key(merged);
    let last = last_key(merged);
    writeln!(out, "window {first} {last}").map_err(|_| OutOfMemory)
}
