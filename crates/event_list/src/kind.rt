//! The kind of an event, as words.
ghost use Rattle.std.specs.Prelude.{IfOk, IfSome, IfNone, map};
ghost use Rattle.event_list.specs.Lines.{IsKindLine};
ghost use Rattle.event_list.specs.Kinds.{IsOf};
ghost use Rattle.event_list.specs.declared.parsed_line.ParsedKind.{ParsedKind};
ghost use Rattle.trace_types.specs.declared.event.KernelEvent.{KernelEvent};

use crate::fields::{read_fork, read_migrate, read_process, read_switch, read_woken};
use crate::io_fields::{read_lost, read_request, read_segment};
use crate::named::{named_event, read_name};
use crate::one::read_one;
use crate::parsed_line::ParsedKind;
use std::alloc::Global;
use trace_types::{EventKind, KernelEvent, OutOfMemory, Text, read_kind};

/// Reads the words of a kind, with the name of its event where it carries one.
pub fn read_kind_line(alloc: Global, words: &[&[u8]]) -> Result<Option<ParsedKind>, OutOfMemory>
    ensures found { IfOk result (λ read. IfSome read (λ t. IsKindLine (map (λ w. w.now) words.now) t)) }
    ensures none { IfOk result (λ read. IfNone read ((t : ParsedKind) → ¬ (IsKindLine (map (λ w. w.now) words.now) t))) }
{
    let [word, fields @ ..] = words else {
        return Ok(None);
    };
    let Some(kind) = read_kind(word) else {
        return Ok(None);
    };
    if let Some(event) = named_event(kind) {
        let Some(name) = read_name(alloc, kind, fields)? else {
            return Ok(None);
        };
        return Ok(Some(ParsedKind { kind: event, name }));
    }
    let Some(event) = read_fields(kind, fields) else {
        return Ok(None);
    };
    let name = Text::from_bytes(alloc, &[])?;
    Ok(Some(ParsedKind { kind: event, name }))
}

// Reads the fields of a kind that carries no name of an event.
fn read_fields(kind: EventKind, fields: &[&[u8]]) -> Option<KernelEvent>
    ensures found { IfSome result (λ k. IsOf kind (map (λ w. w.now) fields.now) k) }
    ensures none { IfNone result ((k : KernelEvent) → ¬ (IsOf kind (map (λ w. w.now) fields.now) k)) }
{
    Some(match kind {
        EventKind::Switch => read_switch(fields)?,
        EventKind::Wakeup => read_woken(fields)?.wakeup(),
        EventKind::WakeupNew => read_woken(fields)?.wakeup_new(),
        EventKind::Waking => read_woken(fields)?.waking(),
        EventKind::Fork => read_fork(fields)?,
        EventKind::Exit => read_one(fields)?.exit(),
        EventKind::Free => read_one(fields)?.free(),
        EventKind::Migrate => read_migrate(fields)?,
        EventKind::IrqIn => read_one(fields)?.irq_in(),
        EventKind::IrqOut => read_one(fields)?.irq_out(),
        EventKind::SoftIn => read_one(fields)?.soft_in(),
        EventKind::SoftOut => read_one(fields)?.soft_out(),
        EventKind::Process => read_process(fields)?,
        EventKind::Send => KernelEvent::Send {
            key: read_segment(fields)?,
        },
        EventKind::Receive => KernelEvent::Receive {
            key: read_segment(fields)?,
        },
        EventKind::DiskIssue => read_request(fields)?.issue(),
        EventKind::DiskDone => read_request(fields)?.done(),
        EventKind::Lost => read_lost(fields)?,
        EventKind::CallIn | EventKind::CallOut | EventKind::Other => return None,
    })
}
