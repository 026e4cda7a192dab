//! Events that are read one by one, with the numbers of their names.
ghost use Rattle.std.specs.Prelude.{◌≡◌, ◌<◌, ◌^◌, [], IfOk, OnOk, length, replicate, set, if◌then◌else◌};
ghost use Rattle.std.specs.List.{position_or_len};
ghost use Rattle.indexmap.specs.IndexSet.{insert_key};
ghost use Rattle.event_list.specs.Names.{carries_name, names_at, numbered_in, same_name, with_number};
ghost use Rattle.event_list.specs.Numbering.{Adds, HasTables};

use crate::names::NameTable;
use crate::parsed_line::ParsedLine;
use std::alloc::Global;
use trace_types::{Event, KernelEvent, MAX_HOSTS, Merged, OutOfMemory, Text};

/// The events of the lines so far, and the names that each host's carry.
#[derive(Debug, Drop)]
pub struct Numbering {
    pub events: Vec<Merged>,
    pub tables: Vec<NameTable>,
}

impl Numbering {
    /// No events.
    pub fn new(alloc: Global) -> Result<Numbering, OutOfMemory>
        ensures events { IfOk result (λ n. n.events.items ≡ []) }
        ensures tables { IfOk result (λ n. n.tables.items ≡ replicate 64 []) }
    {
        let mut tables = Vec::new(alloc);
        for _ in 0..MAX_HOSTS {
            tables.push(NameTable::new(alloc))?;
        }
        let events = Vec::new(alloc);
        Ok(Numbering { events, tables })
    }

    /// Adds the event of a line, with the number of its name. The only error is lack of memory.
    pub fn add(&mut self, parsed: ParsedLine) -> Result<(), OutOfMemory>
        requires tables { HasTables self.old }
        requires host { parsed.event.event.host < 64 }
        requires names { length (names_at self.old.tables.items parsed.event.event.host) < 2 ^ 32 }
        ensures { OnOk result (Adds self.old parsed self.new) }
    {
        let event = number(&mut self.tables, parsed.event, parsed.name)?;
        self.events.push(event)?;
        Ok(())
    }
}

// An event with the number of its name, which its host has then.
fn number(tables: &mut Vec<NameTable>, event: Merged, name: Text) -> Result<Merged, OutOfMemory>
    requires tables { length tables.old.items ≡ 64 }
    requires host { event.event.host < 64 }
    requires names { length (names_at tables.old.items event.event.host) < 2 ^ 32 }
    ensures event { IfOk result (λ m. m ≡ numbered_in (names_at tables.old.items event.event.host) (record { event = event; name = name })) }
    ensures tables { OnOk result (tables.new.items ≡ set tables.old.items event.event.host (if carries_name event.event.kind then insert_key same_name (names_at tables.old.items event.event.host) name else names_at tables.old.items event.event.host)) }
{
    let Merged { key, event } = event;
    let Event {
        time,
        host,
        cpu,
        kind,
    } = event;
    let kind = number_kind(kind, name, &mut tables[host as usize])?;
    let event = Event {
        time,
        host,
        cpu,
        kind,
    };
    Ok(Merged { key, event })
}

// A kind with the number of its name in this table, where it carries one.
fn number_kind(
    kind: KernelEvent,
    name: Text,
    table: &mut NameTable,
) -> Result<KernelEvent, OutOfMemory>
    requires { length table.old < 2 ^ 32 }
    ensures kind { IfOk result (λ k. k ≡ with_number (position_or_len (same_name name) table.old) kind) }
    ensures table { OnOk result (table.new ≡ (if carries_name kind then insert_key same_name table.old name else table.old)) }
{
    Ok(match kind {
        KernelEvent::CallIn { .. } => KernelEvent::CallIn {
            name: table.number(name)?,
        },
        KernelEvent::CallOut { .. } => KernelEvent::CallOut {
            name: table.number(name)?,
        },
        KernelEvent::Other { .. } => KernelEvent::Other {
            name: table.number(name)?,
        },
        kind => kind,
    })
}
