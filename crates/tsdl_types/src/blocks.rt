//! The blocks of a text and what they tell.
ghost use Rattle.std.specs.Prelude.{◌≡◌, ◌≤◌, codes, pos, unwrap_or, IfOk};
ghost use Rattle.type_rules.specs.Attributes.{freq_said, offset_said};
ghost use Rattle.type_scope.specs.Said.{said};
ghost use Rattle.tsdl_types.specs.Blocks as blocks;
ghost use Rattle.tsdl_types.specs.Blocks.{Needs};
ghost use Rattle.tsdl_types.specs.Uuids.{uuid_said};
ghost use Rattle.type_scope.specs.TypeScopes.{Does};
ghost use Rattle.type_scope.specs.View.{state};
ghost use Rattle.type_table.specs.TraceMetas.{IsOffset, IsRate};

use crate::entries::{name_said, stands_last, value_in};
use crate::uuids::uuid_said;
use std::alloc::Global;
use trace_types::{OutOfMemory, Text};
use tsdl_parser::{Attr, AttrValue, BlockKind, Entry};
use type_rules::{freq_said, id_said, is_version, offset_said, trace_order_said};
use type_scope::{TypeScope, is_named};
use type_table::{ClockRate, EventId, Fault, MetaItemCause, StreamScopes};

/// Refuses with a cause where this doesn't hold.
pub fn require(holds: bool, cause: MetaItemCause) -> Result<(), Fault>
    ensures { Needs holds cause result }
{
    if holds {
        Ok(())
    } else {
        Err(Fault::Breaks(cause))
    }
}

// An attribute of a trace.
fn trace_value(types: &mut TypeScope, attr: &Attr) -> Result<(), Fault>
    ensures { Does (blocks.trace_value attr.now (state types.old).known) result (state types.new) }
{
    if is_named(attr, b"byte_order") {
        require(
            trace_order_said(&attr.value).is_some(),
            MetaItemCause::BadAttribute,
        )
    } else if is_named(attr, b"major") {
        require(is_version(&attr.value), MetaItemCause::BadAttribute)
    } else if is_named(attr, b"uuid") {
        uuid_value(types, &attr.value)
    } else {
        Ok(())
    }
}

// The trace's unique id.
fn uuid_value(types: &mut TypeScope, value: &AttrValue) -> Result<(), Fault>
    ensures { Does (blocks.uuid_read (uuid_said value.now) (state types.old).known) result (state types.new) }
{
    match uuid_said(value) {
        Some(uuid) => {
            types.declare_uuid(uuid);
            Ok(())
        }
        None => Err(Fault::Breaks(MetaItemCause::BadAttribute)),
    }
}

// An attribute of a stream.
fn stream_value(types: &mut TypeScope, attr: &Attr) -> Result<(), Fault>
    ensures { Does (blocks.stream_value attr.now (state types.old).known) result (state types.new) }
{
    if !is_named(attr, b"id") {
        return Ok(());
    }
    let Some(id) = id_said(&attr.value) else {
        return Err(Fault::Breaks(MetaItemCause::BadAttribute));
    };
    new_stream(types, id)
}

fn new_stream(types: &mut TypeScope, id: u64) -> Result<(), Fault>
    ensures { Does (blocks.new_stream id (state types.old).known) result (state types.new) }
{
    require(types.stream(id).is_none(), MetaItemCause::DuplicateId)
}

fn stream_there(types: &mut TypeScope, id: u64) -> Result<(), Fault>
    ensures { Does (blocks.stream_there id (state types.old).known) result (state types.new) }
{
    require(types.stream(id).is_some(), MetaItemCause::BadReference)
}

fn new_event(types: &mut TypeScope, event: EventId) -> Result<(), Fault>
    ensures { Does (blocks.new_event event (state types.old).known) result (state types.new) }
{
    require(!types.has_event(event), MetaItemCause::DuplicateId)
}

/// The id that is written in a block, or 0.
pub fn id_in(name: &[u8], entries: &[Entry]) -> u64
    ensures { result ≡ blocks.id_in name.now entries.now }
{
    match value_in(entries, name) {
        Some(value) => id_said(value).unwrap_or(0),
        None => 0,
    }
}

fn event_id_in(all: &[Entry]) -> EventId
    ensures { result ≡ blocks.event_id_in all.now }
{
    EventId {
        stream: id_in(b"stream_id", all),
        id: id_in(b"id", all),
    }
}

// The pair of an event's ids is judged at the one that first stands last.
fn new_pair(types: &mut TypeScope, name: &[u8], other: &[u8], all: &[Entry]) -> Result<(), Fault>
    ensures { Does (blocks.new_pair name.now other.now all.now (state types.old).known) result (state types.new) }
{
    if stands_last(all, name, other) {
        new_event(types, event_id_in(all))
    } else {
        Ok(())
    }
}

// An attribute of an event.
fn event_value(
    types: &mut TypeScope,
    alloc: Global,
    all: &[Entry],
    attr: &Attr,
) -> Result<(), Fault>
    ensures { Does (blocks.event_value all.now attr.now (state types.old).known) result (state types.new) }
{
    if is_named(attr, b"name") {
        let name = name_said(alloc, &attr.value)?;
        require(name.is_some(), MetaItemCause::BadAttribute)
    } else if is_named(attr, b"id") {
        require(id_said(&attr.value).is_some(), MetaItemCause::BadAttribute)?;
        new_pair(types, b"id", b"stream_id", all)
    } else if is_named(attr, b"stream_id") {
        require(id_said(&attr.value).is_some(), MetaItemCause::BadAttribute)?;
        new_pair(types, b"stream_id", b"id", all)?;
        stream_there(types, id_said(&attr.value).unwrap_or(0))
    } else {
        Ok(())
    }
}

// An attribute of a clock.
fn clock_value(types: &mut TypeScope, alloc: Global, attr: &Attr) -> Result<(), Fault>
    ensures { Does (blocks.clock_value attr.now (state types.old).known) result (state types.new) }
{
    if is_named(attr, b"name") {
        let Some(name) = name_said(alloc, &attr.value)? else {
            return Err(Fault::Breaks(MetaItemCause::BadAttribute));
        };
        require(!types.has_clock(&name), MetaItemCause::DuplicateId)
    } else if is_named(attr, b"freq") {
        require(
            freq_said(&attr.value).is_some(),
            MetaItemCause::BadAttribute,
        )
    } else if is_named(attr, b"offset") || is_named(attr, b"offset_s") {
        require(
            offset_said(&attr.value).is_some(),
            MetaItemCause::BadAttribute,
        )
    } else {
        Ok(())
    }
}

// An attribute of an environment. The first host's name counts.
fn env_value(types: &mut TypeScope, alloc: Global, attr: &Attr) -> Result<(), Fault>
    ensures { Does (blocks.env_value attr.now (state types.old).known) result (state types.new) }
{
    if !is_named(attr, b"hostname") || types.has_hostname() {
        return Ok(());
    }
    let AttrValue::Str(text) = &attr.value else {
        return Err(Fault::Breaks(MetaItemCause::BadAttribute));
    };
    let name = Text::from_bytes(alloc, text.as_bytes())?;
    types.declare_hostname(name);
    Ok(())
}

/// An attribute of a block that has a value.
pub fn value_of(
    types: &mut TypeScope,
    alloc: Global,
    kind: BlockKind,
    all: &[Entry],
    attr: &Attr,
) -> Result<(), Fault>
    ensures { Does (blocks.value_by kind all.now attr.now (state types.old).known) result (state types.new) }
{
    match kind {
        BlockKind::Trace => trace_value(types, attr),
        BlockKind::Stream => stream_value(types, attr),
        BlockKind::Event => event_value(types, alloc, all, attr),
        BlockKind::Clock => clock_value(types, alloc, attr),
        BlockKind::Env => env_value(types, alloc, attr),
        BlockKind::Callsite => Ok(()),
    }
}

/// What the end of a block tells.
pub fn block_declared(
    types: &mut TypeScope,
    alloc: Global,
    kind: BlockKind,
    all: &[Entry],
) -> Result<(), Fault>
    ensures { Does (blocks.block_declared kind all.now (state types.old).known) result (state types.new) }
{
    match kind {
        BlockKind::Trace => trace_declared(types, all),
        BlockKind::Stream => stream_declared(types, all),
        BlockKind::Event => event_declared(types, alloc, all),
        BlockKind::Clock => clock_declared(types, alloc, all),
        BlockKind::Env | BlockKind::Callsite => Ok(()),
    }
}

fn paths_lead(types: &mut TypeScope) -> Result<(), Fault>
    ensures step { Does (blocks.paths_lead (state types.old).known) result (state types.new) }
    ensures stays { types.new ≡ types.old }
{
    require(types.paths_lead(), MetaItemCause::BadReference)
}

fn trace_declared(types: &mut TypeScope, all: &[Entry]) -> Result<(), Fault>
    ensures { Does (blocks.trace_declared all.now (state types.old).known) result (state types.new) }
{
    require(
        value_in(all, b"byte_order").is_some(),
        MetaItemCause::BadAttribute,
    )?;
    paths_lead(types)?;
    types.declare_trace();
    Ok(())
}

fn clock_declared(types: &mut TypeScope, alloc: Global, all: &[Entry]) -> Result<(), Fault>
    ensures { Does (blocks.clock_declared all.now (state types.old).known) result (state types.new) }
{
    require(
        value_in(all, b"name").is_some(),
        MetaItemCause::BadAttribute,
    )?;
    let name = name_in(alloc, all)?;
    require(!types.has_clock(&name), MetaItemCause::DuplicateId)?;
    types.declare_clock(name, rate_in(all))?;
    Ok(())
}

// The name that is written in a block, or none.
fn name_in(alloc: Global, all: &[Entry]) -> Result<Text, OutOfMemory>
    ensures { IfOk result (λ name. name ≡ blocks.name_in all.now) }
{
    match value_in(all, b"name") {
        Some(value) => match name_said(alloc, value)? {
            Some(name) => Ok(name),
            None => Text::from_bytes(alloc, &[]),
        },
        None => Text::from_bytes(alloc, &[]),
    }
}

fn rate_in(all: &[Entry]) -> ClockRate
    ensures said { result ≡ blocks.rate_in all.now }
    ensures rate { IsRate result }
{
    ClockRate {
        freq: freq_in(all),
        offset: offset_in(b"offset", all),
        offset_s: offset_in(b"offset_s", all),
    }
}

fn freq_in(all: &[Entry]) -> u64
    ensures said { result ≡ unwrap_or (said freq_said (codes "freq") (blocks.attrs_in all.now)) 1000000000 }
    ensures counts { 1 ≤ result }
{
    match value_in(all, b"freq") {
        Some(value) => freq_said(value).unwrap_or(1_000_000_000),
        None => 1_000_000_000,
    }
}

fn offset_in(name: &[u8], all: &[Entry]) -> i128
    ensures said { result ≡ unwrap_or (said offset_said name.now (blocks.attrs_in all.now)) (pos 0) }
    ensures within { IsOffset result }
{
    match value_in(all, name) {
        Some(value) => offset_said(value).unwrap_or(0),
        None => 0,
    }
}

fn stream_declared(types: &mut TypeScope, all: &[Entry]) -> Result<(), Fault>
    ensures { Does (blocks.stream_declared all.now (state types.old).known) result (state types.new) }
{
    let id = id_in(b"id", all);
    new_stream(types, id)?;
    paths_lead(types)?;
    let scopes = types.scopes();
    let scopes = StreamScopes {
        packet_context: scopes.packet_context,
        event_header: scopes.event_header,
        event_context: scopes.stream_context,
    };
    types.declare_stream(id, scopes)?;
    Ok(())
}

fn event_declared(types: &mut TypeScope, alloc: Global, all: &[Entry]) -> Result<(), Fault>
    ensures { Does (blocks.event_declared all.now (state types.old).known) result (state types.new) }
{
    let event = event_id_in(all);
    new_event(types, event)?;
    if value_in(all, b"stream_id").is_none() {
        stream_there(types, 0)?;
    }
    paths_lead(types)?;
    let name = name_in(alloc, all)?;
    let scopes = types.scopes();
    types.declare_event(name, event, scopes.event_context, scopes.event_fields)?;
    Ok(())
}
