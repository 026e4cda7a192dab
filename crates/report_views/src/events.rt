//! The text of merged events, batch by batch. A batch's stretches of lines are written side by side.
ghost use Rattle.std.specs.Prelude.{◌≡◌, ◌⊎◌, ◌+◌, ◌≤◌, ◌<◌, IfOk, flat_map, length, take};
ghost use Rattle.event_list.specs.Lines.{first_line};
ghost use Rattle.event_list.specs.Names.{names_at};
ghost use Rattle.report_views.specs.Stretches.{IsStretchText, printed_size};

use crate::long_names::are_all_short;
use event_list::{append_line, name_of, names_of};
use rayon::prelude::*;
use sqlite_items::Items;
use std::alloc::Global;
use std::thread::Threads;
use trace_types::{Merged, OutOfMemory, Text};

const FIRST_LINE: &[u8] = b"hosttrace events 1\n";

// For how many bytes of each line room is made at once. A line of a kernel event takes some 70.
const LINE_SIZE: usize = 80;

// How many events a stretch has. Fewer than two full stretches are written on one thread.
const STRETCH_LENGTH: usize = 4_096;

/// How many events a batch has at most: sixteen stretches.
pub const BATCH_LENGTH: usize = 65_536;

/// How many bytes the names in a batch's lines have together at most, unless the batch is a single event.
pub const NAMES_SIZE: usize = 67_108_864;

// Events whose names are no longer than this make a full batch.
const SHORT_NAME: usize = NAMES_SIZE / BATCH_LENGTH;

/// The first line of a list of events.
pub fn events_head() -> &'static [u8]
    ensures { result.now ≡ first_line }
{
    FIRST_LINE
}

/// How many of the first events make a batch: at least one, where there is one, and as many as may be.
pub fn batch_length(names: &[Items<Text>], events: &[Merged]) -> usize
    ensures some { 0 < length events.now → 0 < result }
    ensures within { result ≤ length events.now }
    ensures few { result ≤ BATCH_LENGTH }
    ensures small { 1 < result → printed_size (names_at names.now) (take result events.now) ≤ NAMES_SIZE }
    ensures most { result < length events.now → (result ≡ BATCH_LENGTH) ⊎ (NAMES_SIZE < printed_size (names_at names.now) (take (result + 1) events.now)) }
{
    let front = &events[..events.len().min(BATCH_LENGTH)];
    if are_all_short(names, SHORT_NAME) {
        front.len()
    } else {
        small_length(names, front)
    }
}

// How many of the first events have names of at most `NAMES_SIZE` bytes together; at least one, where there is one.
fn small_length(names: &[Items<Text>], events: &[Merged]) -> usize
    ensures some { 0 < length events.now → 0 < result }
    ensures within { result ≤ length events.now }
    ensures small { 1 < result → printed_size (names_at names.now) (take result events.now) ≤ NAMES_SIZE }
    ensures most { result < length events.now → NAMES_SIZE < printed_size (names_at names.now) (take (result + 1) events.now) }
{
    let mut size = 0usize;
    for (count, event) in events.iter().enumerate() {
        let name = name_of(names_of(names, event.event.host), &event.event.kind);
        size = size.saturating_add(name.len());
        if count > 0 && size > NAMES_SIZE {
            return count;
        }
    }
    events.len()
}

/// The lines of events, stretch by stretch, whatever the number of processors. The only error is lack of memory.
pub fn batch_texts(
    threads: &(impl Threads + Sync),
    alloc: Global,
    names: &[Items<Text>],
    events: &[Merged],
) -> Result<Vec<Vec<u8>>, OutOfMemory>
    ensures { IfOk result (λ texts. IsStretchText (names_at names.now) events.now (flat_map (λ text. text.items) texts.items)) }
{
    let texts: Result<Vec<Vec<u8>>, OutOfMemory> = events
        .par_chunks(STRETCH_LENGTH)
        .map(
            |stretch: &[Merged]| -> Result<Vec<u8>, OutOfMemory>
                ensures { IfOk result (λ text. IsStretchText (names_at names.entry.now) stretch.now text.items) }
            { write_stretch(alloc, names, stretch) },
        )
        .collect(threads, alloc)?;
    texts
}

// The lines of a stretch.
fn write_stretch(
    alloc: Global,
    names: &[Items<Text>],
    events: &[Merged],
) -> Result<Vec<u8>, OutOfMemory>
    ensures { IfOk result (λ text. IsStretchText (names_at names.now) events.now text.items) }
{
    let size = events.len().saturating_mul(LINE_SIZE);
    let mut text = Vec::with_capacity(alloc, size)?;
    for event in events {
        append_line(event, names_of(names, event.event.host), &mut text)?;
    }
    Ok(text)
}
