//! Reading a whole event list.
ghost use Rattle.std.specs.Prelude.{◌≡◌, ◌≤◌, ◌<◌, ◌+◌, ℕ, List, IfOk, Err, length, take};
ghost use Rattle.trace_types.specs.declared.limits.TheConstants.{MAX_EVENTS};
ghost use Rattle.event_list.specs.Lines.{AreLines, EndsBehind, HasMany, IsCrowded, IsEventList, IsFirstBad};
ghost use Rattle.std.specs.List.{AllByRecursion};
ghost use Rattle.event_list.specs.Names.{IsTrace, lines_of, names_at};
ghost use Rattle.event_list.specs.Numbering.{IsNumbered};
ghost use Rattle.event_list.specs.Order.{host_count};
ghost use Rattle.event_list.specs.declared.list.ListError.TheVariants.{BadLine, TooManyEvents};
ghost use Rattle.event_list.specs.declared.parsed_line.ParsedLine.{ParsedLine};

use crate::line::read_event;
use crate::names::NameTable;
use crate::numbering::Numbering;
use crate::trace::{MergedTrace, copy_names};
use crate::words::split_words;
use sqlite_items::Items;
use std::alloc::{AllocFailed, Global};
use trace_types::{MAX_EVENTS, Merged, OutOfMemory, Text, cut_at};

const FIRST_LINE: &[u8] = b"hosttrace events 1";

/// Why a text is no event list. Lines count from 1.
#[derive(Clone, Copy, Debug, PartialEq, Eq)]
pub enum ListError {
    BadLine { line: u64 },
    TooManyEvents,
    OutOfMemory,
}

impl<T: Drop> From<AllocFailed<T>> for ListError {
    ghost use Rattle.std.specs.Prelude.{◌≡◌};
    ghost use Rattle.event_list.specs.declared.list.ListError.TheVariants as variant;

    ghost from_gives = { λ _ e. e ≡ variant.OutOfMemory };

    fn from(_error: AllocFailed<T>) -> ListError {
        ListError::OutOfMemory
    }
}

impl From<OutOfMemory> for ListError {
    ghost use Rattle.std.specs.Prelude.{◌≡◌};
    ghost use Rattle.event_list.specs.declared.list.ListError.TheVariants as variant;

    ghost from_gives = { λ _ e. e ≡ variant.OutOfMemory };

    fn from(_error: OutOfMemory) -> ListError {
        ListError::OutOfMemory
    }
}

/// Reads an event list: its events in order, with numbers of their names, and the names of each host from 0 to the
/// greatest, in the order in which they first appear. A bad line is the first one that isn't in the format. A list
/// has too many events where more than 2,097,152 stand before a bad line or in all.
pub fn read_list(alloc: Global, bytes: &[u8]) -> Result<MergedTrace, ListError>
    ensures list { IfOk result (λ trace. (parsed_lines : List ParsedLine) × IsEventList bytes.now parsed_lines × IsTrace parsed_lines trace) }
    ensures few { IfOk result (λ trace. length trace.events.items ≤ MAX_EVENTS) }
    ensures hosts { IfOk result (λ trace. AllByRecursion (λ m. m.event.host < length trace.names.items) trace.events.items) }
    ensures few_hosts { IfOk result (λ trace. length trace.names.items ≤ 64) }
    ensures again { IfOk result (λ trace. bytes.now ≡ lines_of (names_at trace.names.items) trace.events.items) }
    ensures bad { (line : ℕ) → result ≡ Err (BadLine line) → (parsed_lines : List ParsedLine) → ¬ (IsEventList bytes.now parsed_lines) }
    ensures line { (line : ℕ) → result ≡ Err (BadLine line) → IsFirstBad bytes.now line }
    ensures many { result ≡ Err TooManyEvents → IsCrowded bytes.now }
    ensures all { result ≡ Err TooManyEvents → (parsed_lines : List ParsedLine) → IsEventList bytes.now parsed_lines → MAX_EVENTS < length parsed_lines }
{
    let Some((first, text)) = cut_at(bytes, b'\n') else {
        return Err(ListError::BadLine { line: 1 });
    };
    if first != FIRST_LINE {
        return Err(ListError::BadLine { line: 1 });
    }
    let Numbering { events, tables } = read_lines(alloc, text)?;
    let names = name_lists(alloc, &tables, host_count(&events))?;
    Ok(MergedTrace { events, names })
}

// The events of the lines after the first.
fn read_lines(alloc: Global, text: &[u8]) -> Result<Numbering, ListError>
    ensures lines { IfOk result (λ read. (parsed_lines : List ParsedLine) × AreLines 0 parsed_lines text.now × IsNumbered parsed_lines read) }
    ensures few { IfOk result (λ read. length read.events.items ≤ MAX_EVENTS) }
    ensures bad { (line : ℕ) → result ≡ Err (BadLine line) → (parsed_lines : List ParsedLine) → ¬ (AreLines 0 parsed_lines text.now) }
    ensures line { (line : ℕ) → result ≡ Err (BadLine line) → (parsed_lines : List ParsedLine) × EndsBehind text.now parsed_lines × (line ≡ length parsed_lines + 2) }
    ensures many { result ≡ Err TooManyEvents → HasMany text.now }
    ensures all { result ≡ Err TooManyEvents → (parsed_lines : List ParsedLine) → AreLines 0 parsed_lines text.now → MAX_EVENTS < length parsed_lines }
{
    let mut read = Numbering::new(alloc)?;
    let mut words = Vec::new(alloc);
    let mut least = 0;
    let mut rest = text;
    while !rest.is_empty() {
        let Some((line, after)) = cut_at(rest, b'\n') else {
            return Err(bad_line(&read.events));
        };
        split_words(line, &mut words)?;
        let Some(parsed) = read_event(alloc, &words)? else {
            return Err(bad_line(&read.events));
        };
        if parsed.event.key < least {
            return Err(bad_line(&read.events));
        }
        if read.events.len() as u64 >= MAX_EVENTS {
            return Err(ListError::TooManyEvents);
        }
        least = parsed.event.key;
        read.add(parsed)?;
        rest = after;
    }
    Ok(read)
}

// The line after those of the events, which is bad.
fn bad_line(events: &[Merged]) -> ListError
    ensures { result ≡ BadLine (length events.now + 2) }
{
    ListError::BadLine {
        line: (events.len() as u64).saturating_add(2),
    }
}

// How many hosts there are: one more than the greatest number.
fn host_count(events: &[Merged]) -> u32
    requires { AllByRecursion (λ m. m.event.host < 64) events.now }
    ensures { result ≡ host_count events.now }
{
    let mut count = 0;
    for merged in events {
        count = count.max(merged.event.host + 1);
    }
    count
}

// The names of so many hosts.
fn name_lists(
    alloc: Global,
    tables: &[NameTable],
    hosts: u32,
) -> Result<Vec<Items<Text>>, OutOfMemory>
    requires { hosts ≤ length tables.now }
    ensures { IfOk result (λ names. names.items ≡ take hosts tables.now) }
{
    let mut names = Vec::new(alloc);
    for table in &tables[..hosts as usize] {
        names.push(Items::from_vec(copy_names(alloc, table.as_slice())?))?;
    }
    Ok(names)
}
