//! One line of an event list, as words.
ghost use Rattle.std.specs.Prelude.{IfOk, IfSome, IfNone, map};
ghost use Rattle.event_list.specs.Lines.{IsLine};
ghost use Rattle.event_list.specs.declared.parsed_line.ParsedLine.{ParsedLine};

use crate::kind::read_kind_line;
use crate::line_head::read_line_head;
use crate::parsed_line::ParsedLine;
use std::alloc::Global;
use trace_types::{Event, Merged, OutOfMemory};

/// Reads the words of a line. `None` comes exactly where they are no event's words, and the only error is lack of
/// memory.
pub fn read_event(alloc: Global, words: &[&[u8]]) -> Result<Option<ParsedLine>, OutOfMemory>
    ensures found { IfOk result (λ read. IfSome read (λ t. IsLine (map (λ w. w.now) words.now) t)) }
    ensures none { IfOk result (λ read. IfNone read ((t : ParsedLine) → ¬ (IsLine (map (λ w. w.now) words.now) t))) }
{
    let [key, host, cpu, time, kind @ ..] = words else {
        return Ok(None);
    };
    let Some(head) = read_line_head(key, host, cpu, time) else {
        return Ok(None);
    };
    let Some(parsed) = read_kind_line(alloc, kind)? else {
        return Ok(None);
    };
    let event = Event {
        time: head.time,
        host: head.host,
        cpu: head.cpu,
        kind: parsed.kind,
    };
    Ok(Some(ParsedLine {
        event: Merged {
            key: head.key,
            event,
        },
        name: parsed.name,
    }))
}
