//! Writing lines one by one, where some names are too long to be copied into each line.
ghost use Rattle.std.specs.Prelude.{◌≡◌, ◌++◌, ◌∷◌, [], IfOk, OnErr, OnOk};
ghost use Rattle.std.specs.Io.KnownBytes.{Appends};
ghost use Rattle.event_list.specs.Lines.{head_text, line_text};
ghost use Rattle.event_list.specs.Names.{names_at};
ghost use Rattle.report_views.specs.LongNames.{AreSpelled};
ghost use Rattle.hosttrace.specs.Outputs.{AppendsLines, AppendsLinesFront};
ghost use Rattle.hosttrace.specs.Writing.{AppendsFront};
ghost use Rattle.ht_outside.specs.Faults.{IsCaused};
ghost use Rattle.ht_outside.specs.declared.sink.SinkError.TheVariants.{Failed};

use crate::writing::write_text;
use event_list::{append_head, append_line, names_of};
use ht_outside::{Sink, SinkError};
use report_views::long_word;
use sqlite_items::Items;
use std::alloc::Global;
use trace_types::{Merged, OutOfMemory, Text};

// Most lines without a long name are shorter, in bytes.
const LINE: usize = 128;

/// Writes the lines of events one by one. `words` are those of all names; a long one goes from there to the sink.
pub fn write_each<K: Sink>(
    alloc: Global,
    names: &[Items<Text>],
    words: &[Items<Text>],
    events: &[Merged],
    sink: &mut K,
) -> Result<(), SinkError>
    requires { AreSpelled names.now words.now }
    ensures written { OnOk result (AppendsLines (K.contents sink.old) (K.contents sink.new) names.now events.now) }
    ensures front { OnErr result (AppendsLinesFront (K.contents sink.old) (K.contents sink.new) names.now events.now) }
    ensures cause { IsCaused Failed result (K.faults sink.old) (K.faults sink.new) }
{
    for event in events {
        write_event(alloc, names, words, event, sink)?;
    }
    Ok(())
}

// Writes the line of an event.
fn write_event<K: Sink>(
    alloc: Global,
    names: &[Items<Text>],
    words: &[Items<Text>],
    event: &Merged,
    sink: &mut K,
) -> Result<(), SinkError>
    requires { AreSpelled names.now words.now }
    ensures written { OnOk result (Appends (K.contents sink.old) (K.contents sink.new) (line_text (names_at names.now event.now.event.host) event.now)) }
    ensures front { OnErr result (AppendsFront (K.contents sink.old) (K.contents sink.new) (line_text (names_at names.now event.now.event.host) event.now)) }
    ensures cause { IsCaused Failed result (K.faults sink.old) (K.faults sink.new) }
{
    match long_word(names, words, event) {
        Some(word) => write_long_line(alloc, event, word, sink),
        None => write_short_line(alloc, event, names_of(names, event.event.host), sink),
    }
}

// Writes the line of an event that carries a name, of which this is the word. The word isn't copied.
fn write_long_line<K: Sink>(
    alloc: Global,
    event: &Merged,
    word: &[u8],
    sink: &mut K,
) -> Result<(), SinkError>
    ensures written { OnOk result (Appends (K.contents sink.old) (K.contents sink.new) (head_text event.now ++ 32 ∷ word.now ++ 10 ∷ [])) }
    ensures front { OnErr result (AppendsFront (K.contents sink.old) (K.contents sink.new) (head_text event.now ++ 32 ∷ word.now ++ 10 ∷ [])) }
    ensures cause { IsCaused Failed result (K.faults sink.old) (K.faults sink.new) }
{
    let Ok(head) = head_and_space(alloc, event) else {
        return Err(SinkError::OutOfMemory);
    };
    write_text(sink, &head)?;
    write_text(sink, word)?;
    write_text(sink, b"\n")
}

// What stands in an event's line before its fields, and the space before the first of them.
fn head_and_space(alloc: Global, event: &Merged) -> Result<Vec<u8>, OutOfMemory>
    ensures { IfOk result (λ head. head.items ≡ head_text event.now ++ 32 ∷ []) }
{
    let mut head = Vec::with_capacity(alloc, LINE)?;
    append_head(event, &mut head)?;
    head.push(b' ')?;
    Ok(head)
}

// Writes the line of an event as one text. `names` are those of its host.
fn write_short_line<K: Sink>(
    alloc: Global,
    event: &Merged,
    names: &[Text],
    sink: &mut K,
) -> Result<(), SinkError>
    ensures written { OnOk result (Appends (K.contents sink.old) (K.contents sink.new) (line_text names.now event.now)) }
    ensures front { OnErr result (AppendsFront (K.contents sink.old) (K.contents sink.new) (line_text names.now event.now)) }
    ensures cause { IsCaused Failed result (K.faults sink.old) (K.faults sink.new) }
{
    match line_of(alloc, event, names) {
        Ok(line) => write_text(sink, &line),
        Err(OutOfMemory) => Err(SinkError::OutOfMemory),
    }
}

fn line_of(alloc: Global, event: &Merged, names: &[Text]) -> Result<Vec<u8>, OutOfMemory>
    ensures { IfOk result (λ line. line.items ≡ line_text names.now event.now) }
{
    let mut line = Vec::with_capacity(alloc, LINE)?;
    append_line(event, names, &mut line)?;
    Ok(line)
}
