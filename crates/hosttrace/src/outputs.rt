//! What a command writes, and writing it to a sink.
ghost use Rattle.std.specs.Prelude.{IfSome, OnOk, OnErr, flat_map};
ghost use Rattle.std.specs.Io.KnownBytes.{Appends};
ghost use Rattle.event_list.specs.Names.{lines_of, names_at};
ghost use Rattle.report_views.specs.LongNames.{AreSpelled};
ghost use Rattle.hosttrace.specs.Outputs.{AppendsLines, AppendsLinesFront, output_text};
ghost use Rattle.hosttrace.specs.Writing.{AppendsFront};
ghost use Rattle.ht_outside.specs.Faults.{IsCaused};
ghost use Rattle.ht_outside.specs.declared.sink.SinkError.TheVariants.{Failed};

use crate::long_lines::write_each;
use crate::writing::write_text;
use event_list::MergedTrace;
use ht_outside::{Sink, SinkError};
use report_views::{batch_length, batch_texts, events_head, spelled_names};
use sqlite_items::Items;
use std::alloc::Global;
use std::thread::Threads;
use trace_types::{Merged, OutOfMemory, Text};

/// What a command writes.
#[derive(Drop)]
pub enum Output {
    /// A text.
    Text(Vec<u8>),
    /// The list of these events, whose lines are made as they are written.
    Events(MergedTrace),
}

/// Writes an output. After an error a front of its text may be written.
pub fn write_output<K: Sink>(
    threads: &(impl Threads + Sync),
    alloc: Global,
    output: &Output,
    sink: &mut K,
) -> Result<(), SinkError>
    ensures written { OnOk result (Appends (K.contents sink.old) (K.contents sink.new) (output_text output.now)) }
    ensures front { OnErr result (AppendsFront (K.contents sink.old) (K.contents sink.new) (output_text output.now)) }
    ensures cause { IsCaused Failed result (K.faults sink.old) (K.faults sink.new) }
{
    match output {
        Output::Text(text) => write_text(sink, text),
        Output::Events(trace) => write_events(threads, alloc, trace, sink),
    }
}

// Writes the list of events. No more than a batch of its lines is in memory.
fn write_events<K: Sink>(
    threads: &(impl Threads + Sync),
    alloc: Global,
    trace: &MergedTrace,
    sink: &mut K,
) -> Result<(), SinkError>
    ensures written { OnOk result (Appends (K.contents sink.old) (K.contents sink.new) (lines_of (names_at trace.now.names.items) trace.now.events.items)) }
    ensures front { OnErr result (AppendsFront (K.contents sink.old) (K.contents sink.new) (lines_of (names_at trace.now.names.items) trace.now.events.items)) }
    ensures cause { IsCaused Failed result (K.faults sink.old) (K.faults sink.new) }
{
    let names = trace.names.as_slice();
    let Ok(words) = spelled_names(alloc, names) else {
        return Err(SinkError::OutOfMemory);
    };
    write_text(sink, events_head())?;
    write_batches(threads, alloc, names, words.as_deref(), &trace.events, sink)
}

// Writes the lines of events, batch by batch. Where there are `words`, they are those of all names.
fn write_batches<K: Sink>(
    threads: &(impl Threads + Sync),
    alloc: Global,
    names: &[Items<Text>],
    words: Option<&[Items<Text>]>,
    events: &[Merged],
    sink: &mut K,
) -> Result<(), SinkError>
    requires { IfSome words (λ words. AreSpelled names.now words.now) }
    ensures written { OnOk result (AppendsLines (K.contents sink.old) (K.contents sink.new) names.now events.now) }
    ensures front { OnErr result (AppendsLinesFront (K.contents sink.old) (K.contents sink.new) names.now events.now) }
    ensures cause { IsCaused Failed result (K.faults sink.old) (K.faults sink.new) }
{
    let mut rest = events;
    while !rest.is_empty() {
        let (batch, after) = rest.split_at(batch_length(names, rest));
        write_batch(threads, alloc, names, words, batch, sink)?;
        rest = after;
    }
    Ok(())
}

// Writes the lines of a batch: one by one where there are words of all names; else all are made before the first is
// written.
fn write_batch<K: Sink>(
    threads: &(impl Threads + Sync),
    alloc: Global,
    names: &[Items<Text>],
    words: Option<&[Items<Text>]>,
    events: &[Merged],
    sink: &mut K,
) -> Result<(), SinkError>
    requires { IfSome words (λ words. AreSpelled names.now words.now) }
    ensures written { OnOk result (AppendsLines (K.contents sink.old) (K.contents sink.new) names.now events.now) }
    ensures front { OnErr result (AppendsLinesFront (K.contents sink.old) (K.contents sink.new) names.now events.now) }
    ensures cause { IsCaused Failed result (K.faults sink.old) (K.faults sink.new) }
{
    match words {
        Some(words) => write_each(alloc, names, words, events, sink),
        None => write_side_by_side(threads, alloc, names, events, sink),
    }
}

// Writes the lines of a batch, which are all made before the first is written.
fn write_side_by_side<K: Sink>(
    threads: &(impl Threads + Sync),
    alloc: Global,
    names: &[Items<Text>],
    events: &[Merged],
    sink: &mut K,
) -> Result<(), SinkError>
    ensures written { OnOk result (AppendsLines (K.contents sink.old) (K.contents sink.new) names.now events.now) }
    ensures front { OnErr result (AppendsLinesFront (K.contents sink.old) (K.contents sink.new) names.now events.now) }
    ensures cause { IsCaused Failed result (K.faults sink.old) (K.faults sink.new) }
{
    match batch_texts(threads, alloc, names, events) {
        Ok(texts) => write_texts(&texts, sink),
        Err(OutOfMemory) => Err(SinkError::OutOfMemory),
    }
}

// Writes texts, one after the other.
fn write_texts<K: Sink>(texts: &[Vec<u8>], sink: &mut K) -> Result<(), SinkError>
    ensures written { OnOk result (Appends (K.contents sink.old) (K.contents sink.new) (flat_map (λ text. text.items) texts.now)) }
    ensures front { OnErr result (AppendsFront (K.contents sink.old) (K.contents sink.new) (flat_map (λ text. text.items) texts.now)) }
    ensures cause { IsCaused Failed result (K.faults sink.old) (K.faults sink.new) }
{
    for text in texts {
        write_text(sink, text)?;
    }
    Ok(())
}
