//! The text of events as they were read, and of their fields.

use ctf_fields::{Field, Member, RawEvent};
use std::io::{self, Write};
use type_table::TraceMeta;

/// Appends a line for each event.
pub fn write_events(meta: &TraceMeta, events: &[RawEvent], out: &mut Vec<u8>) -> io::Result<()> {
    for event in events {
        write_event(meta, event, out)?;
    }
    Ok(())
}

/// Appends an event's time, its processor, its index among those that are declared, and its fields.
pub fn write_event(meta: &TraceMeta, event: &RawEvent, out: &mut Vec<u8>) -> io::Result<()> {
    write!(out, "{} {} {} ", event.time, event.cpu, event.event)?;
    write_field(meta, &event.fields, out)?;
    writeln!(out)
}

// A number, a string in quotes, a structure in braces, a chosen field after its name, or a list in brackets.
#[cycle(write)]
fn write_field(meta: &TraceMeta, field: &Field, out: &mut Vec<u8>) -> io::Result<()> {
    match field {
        Field::Int { value, .. } => write!(out, "{value}"),
        Field::Text(text) => {
            out.write_all(b"'")?;
            out.write_all(text.as_bytes())?;
            out.write_all(b"'")
        }
        Field::Struct(members) => write_members(meta, members.as_slice(), out),
        Field::Choice { name, field } => {
            out.write_all(meta.table().name(*name))?;
            out.write_all(b":")?;
            write_field(meta, field.get(), out)
        }
        Field::List { items, .. } => write_items(meta, items.as_slice(), out),
    }
}

#[cycle(write)]
fn write_members(meta: &TraceMeta, members: &[Member], out: &mut Vec<u8>) -> io::Result<()> {
    out.write_all(b"{")?;
    for member in members {
        out.write_all(b" ")?;
        out.write_all(meta.table().name(member.name))?;
        out.write_all(b"=")?;
        write_field(meta, &member.field, out)?;
    }
    out.write_all(b" }")
}

#[cycle(write)]
fn write_items(meta: &TraceMeta, items: &[Field], out: &mut Vec<u8>) -> io::Result<()> {
    out.write_all(b"[")?;
    for item in items {
        out.write_all(b" ")?;
        write_field(meta, item, out)?;
    }
    out.write_all(b" ]")
}
