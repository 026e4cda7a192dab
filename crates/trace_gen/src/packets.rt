//! The packets of stream files.
ghost use Rattle.std.specs.Prelude.{◌≡◌, ◌≤◌, ◌<◌, ◌++◌, ◌+◌, ◌-◌, ◌*◌, ◌^◌, IfOk, OnOk, length, replicate};
ghost use Rattle.std.specs.Option.{option_copied};
ghost use Rattle.trace_gen.specs.Layout.{clock_of, events_bytes, file_bytes, fields_bytes, head_fields, header, kind_fields, message_fields, name_start, packet, size_for, switch_fields};

use crate::events::{MadeEvent, MadeKind};
use crate::field::{Field, put_fields};
use std::alloc::Global;
use trace_types::OutOfMemory;

// The bytes of a packet before its events.
const HEAD: u64 = 60;

// The bytes that a packet's size is a multiple of.
const BLOCK: u64 = 4096;

// The most events of a packet.
const MOST: usize = 100;

/// The bytes of a file that holds events in packets. The only error is lack of memory.
pub fn file_bytes(alloc: Global, events: &[MadeEvent]) -> Result<Vec<u8>, OutOfMemory>
    requires { length events.now ≤ 600000 }
    ensures { IfOk result (λ bytes. bytes.items ≡ file_bytes events.now) }
{
    let mut bytes = Vec::new(alloc);
    for number in 0..(events.len() + MOST - 1) / MOST {
        let from = number * MOST;
        let to = events.len().min(from + MOST);
        put_packet(alloc, number as u64, &events[from..to], &mut bytes)?;
    }
    Ok(bytes)
}

// Appends a packet.
fn put_packet(
    alloc: Global,
    number: u64,
    events: &[MadeEvent],
    out: &mut Vec<u8>,
) -> Result<(), OutOfMemory>
    requires { length events.now ≤ 100 }
    ensures { OnOk result (out.new.items ≡ out.old.items ++ packet number events.now) }
{
    let bytes = events_bytes(alloc, events)?;
    let content = HEAD + bytes.len() as u64;
    let size = size_for(content);
    let begin = clock_of(events.first());
    let end = clock_of(events.last());
    put_head(number, begin, end, content, size, out)?;
    out.extend_from_slice(&bytes)?;
    put_zeros(size - content, out)
}

// The least multiple of 4,096 that holds so many bytes.
fn size_for(content: u64) -> u64
    requires { content ≤ 2 ^ 40 }
    ensures is { result ≡ size_for content }
    ensures holds { content ≤ result }
    ensures near { result ≤ content + 4096 }
{
    BLOCK * ((content + 4095) / BLOCK)
}

// An event's clock, 0 where there is none.
fn clock_of(event: Option<&MadeEvent>) -> u64
    ensures { result ≡ clock_of (option_copied event.entry) }
{
    match event {
        Some(event) => event.clock,
        None => 0,
    }
}

// Appends what stands before a packet's events.
fn put_head(
    number: u64,
    begin: u64,
    end: u64,
    content: u64,
    size: u64,
    out: &mut Vec<u8>,
) -> Result<(), OutOfMemory>
    requires content { content ≤ 2 ^ 41 }
    requires size { size ≤ 2 ^ 41 }
    ensures { OnOk result (out.new.items ≡ out.old.items ++ fields_bytes (head_fields number begin end content size)) }
{
    put_fields(
        &[
            Field::Word(0xC1FC_1FC1),
            Field::Word(0),
            Field::Long(begin),
            Field::Long(end),
            Field::Long(8 * content),
            Field::Long(8 * size),
            Field::Long(number),
            Field::Long(0),
            Field::Word(0),
        ],
        out,
    )
}

fn put_zeros(count: u64, out: &mut Vec<u8>) -> Result<(), OutOfMemory>
    ensures { OnOk result (out.new.items ≡ out.old.items ++ replicate count 0) }
{
    for _done in 0..count {
        out.push(0)?;
    }
    Ok(())
}

// The bytes of events, one after the other.
fn events_bytes(alloc: Global, events: &[MadeEvent]) -> Result<Vec<u8>, OutOfMemory>
    ensures is { IfOk result (λ bytes. bytes.items ≡ events_bytes events.now) }
    ensures length { IfOk result (λ bytes. length bytes.items ≤ 104 * length events.now) }
{
    let mut bytes = Vec::new(alloc);
    for event in events {
        put_kind(event.clock, event.kind, &mut bytes)?;
    }
    Ok(bytes)
}

fn put_kind(clock: u64, kind: MadeKind, out: &mut Vec<u8>) -> Result<(), OutOfMemory>
    ensures bytes { OnOk result (out.new.items ≡ out.old.items ++ fields_bytes (kind_fields clock kind)) }
    ensures length { OnOk result (length out.new.items ≤ length out.old.items + 104) }
{
    match kind {
        MadeKind::Switched {
            prev,
            prev_state,
            next,
        } => put_switch(clock, prev, prev_state, next, out),
        MadeKind::Sent {
            message,
            source,
            target,
        } => put_message(1, clock, message, source, target, out),
        MadeKind::Received {
            message,
            source,
            target,
        } => put_message(2, clock, message, source, target, out),
    }
}

fn put_switch(
    clock: u64,
    prev: u8,
    prev_state: u8,
    next: u8,
    out: &mut Vec<u8>,
) -> Result<(), OutOfMemory>
    ensures bytes { OnOk result (out.new.items ≡ out.old.items ++ fields_bytes (switch_fields clock prev prev_state next)) }
    ensures length { OnOk result (length out.new.items ≤ length out.old.items + 104) }
{
    put_fields(&switch_fields(clock, prev, prev_state, next), out)
}

fn switch_fields(clock: u64, prev: u8, prev_state: u8, next: u8) -> [Field; 12]
    ensures { result ≡ switch_fields clock prev prev_state next }
{
    [
        header(0, clock),
        Field::Word(name_start(prev)),
        Field::Word(0),
        Field::Long(0),
        Field::Word(1000 + u32::from(prev)),
        Field::Word(20),
        Field::Long(u64::from(prev_state)),
        Field::Word(name_start(next)),
        Field::Word(0),
        Field::Long(0),
        Field::Word(1000 + u32::from(next)),
        Field::Word(20),
    ]
}

fn put_message(
    id: u8,
    clock: u64,
    message: u32,
    source: u8,
    target: u8,
    out: &mut Vec<u8>,
) -> Result<(), OutOfMemory>
    requires { id < 32 }
    ensures bytes { OnOk result (out.new.items ≡ out.old.items ++ fields_bytes (message_fields id clock message source target)) }
    ensures length { OnOk result (length out.new.items ≤ length out.old.items + 104) }
{
    put_fields(
        &[
            header(id, clock),
            Field::Byte(4),
            Field::Byte(10),
            Field::Short(0),
            Field::Byte(source),
            Field::Byte(10),
            Field::Short(0),
            Field::Byte(target),
            Field::Short(40_000),
            Field::Short(80),
            Field::Word(message),
            Field::Word(0),
            Field::Short(16),
        ],
        out,
    )
}

// An event's id and the low bits of its clock.
fn header(id: u8, clock: u64) -> Field
    requires { id < 32 }
    ensures { result ≡ header id clock }
{
    Field::Word(u32::from(id) + 32 * (clock % (1 << 27)) as u32)
}

// The first four bytes of a thread's name, as a number.
fn name_start(thread: u8) -> u32
    ensures { result ≡ name_start thread }
{
    116 + 256 * (48 + u32::from(thread))
}
