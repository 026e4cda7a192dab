//! What one trace declares.
ghost use Rattle.std.specs.Prelude.{◌≡◌, ◌<◌, [], length, nat_eq, option_map, position, slice_get, unwrap_or, IfNone, IfSome, None, Some};
ghost use Rattle.std.specs.Map.{keys_of, lookup};
ghost use Rattle.type_table.specs.Table.{name_at};
ghost use Rattle.type_table.specs.TraceMetas.{IfHere, IsRate, IsSoundMeta, IndexIn, StreamIn, EventIn, DeclaredIn, same_event};

use crate::declared::{ClockRate, Declared, EventId, EventParts, StreamScopes};
use crate::table::Table;
use std::marker::Model;
use trace_types::{ByteOrderKind, Text};

/// What one trace declares: its byte order, streams, events, clocks and environment, and the types of their
/// scopes, which are indices in a table.
#[derive(Debug, Drop)]
pub struct TraceMeta {
    order: ByteOrderKind,
    packet_header: Option<u32>,
    table: Table,
    declared: Declared,
}

impl Model for TraceMeta {
    ghost use Rattle.type_table.specs.TraceMetas.{TraceMetaModel, AreInside};

    ghost Value = { TraceMetaModel };

    ghost view = { λ m. record { order = m.order; packet_header = m.packet_header; table = m.table; declared = m.declared } };

    ghost invariant = { λ m. AreInside (record { order = m.order; packet_header = m.packet_header; table = m.table; declared = m.declared }) };
}

impl TraceMeta {
    /// What a text declares whose types stand in this table.
    pub fn new(
        order: ByteOrderKind,
        packet_header: Option<u32>,
        table: Table,
        declared: Declared,
    ) -> TraceMeta
        requires header { IfHere (IndexIn table) packet_header }
        requires declared { DeclaredIn table declared }
        ensures { result ≡ record { order = order; packet_header = packet_header; table = table; declared = declared } }
    {
        TraceMeta {
            order,
            packet_header,
            table,
            declared,
        }
    }

    /// What holds of each trace's declarations, for those who speak of them by their parts. It does nothing.
    pub fn is_sound(&self)
        ensures { IsSoundMeta self.now }
    {
        self.table.is_sound();
        self.declared.are_few();
    }

    /// The byte order of integers that don't tell their own.
    pub fn order(&self) -> ByteOrderKind
        ensures { result ≡ self.now.order }
    {
        self.order
    }

    /// The trace's unique id.
    pub fn uuid(&self) -> Option<[u8; 16]>
        ensures { result ≡ self.now.declared.uuid }
    {
        self.declared.uuid()
    }

    /// The name of the host where the trace was taken; empty where none is declared.
    pub fn hostname(&self) -> &[u8]
        ensures { result.now ≡ unwrap_or self.now.declared.hostname [] }
    {
        match self.declared.hostname() {
            Some(name) => name.as_bytes(),
            None => &[],
        }
    }

    /// The types, by their indices.
    pub fn table(&self) -> &Table
        ensures { result.now ≡ self.now.table }
    {
        &self.table
    }

    /// The type of packet headers.
    pub fn packet_header(&self) -> Option<u32>
        ensures index { result ≡ self.now.packet_header }
        ensures there { IfHere (IndexIn self.now.table) result }
    {
        self.packet_header
    }

    /// The types of the scopes of the stream of an id.
    pub fn stream(&self, id: u64) -> Option<StreamScopes>
        ensures found { result ≡ lookup (nat_eq id) self.now.declared.streams }
    {
        self.declared.stream(id)
    }

    /// The index of the event that a stream has by this id, in the order of declaration.
    pub fn find_event(&self, stream: u64, id: u64) -> Option<u32>
        ensures { result ≡ position (same_event (record { stream = stream; id = id })) (keys_of self.now.declared.events) }
    {
        self.declared.find_event(EventId { stream, id })
    }

    /// The event at an index.
    pub fn event(&self, index: u32) -> Option<(EventId, EventParts)>
        ensures { result ≡ slice_get self.now.declared.events index }
    {
        self.declared.event(index)
    }

    /// How the clock at an index counts.
    pub fn clock(&self, index: u32) -> Option<ClockRate>
        ensures found { result ≡ option_map (λ clock. clock.1) (slice_get self.now.declared.clocks index) }
        ensures rate { IfSome result IsRate }
    {
        self.declared.clock(index)
    }

    /// The event's name of this number.
    pub fn event_name(&self, number: u32) -> Option<&[u8]>
        ensures found { IfSome result (λ name. slice_get self.now.declared.event_names number ≡ Some name.now) }
        ensures none { IfNone result (slice_get self.now.declared.event_names number ≡ None) }
    {
        self.declared.event_name_at(number)
    }

    /// How many streams are declared.
    pub fn stream_count(&self) -> usize
        ensures { result ≡ length self.now.declared.streams }
    {
        self.declared.stream_count()
    }

    /// How many events are declared.
    pub fn event_count(&self) -> usize
        ensures { result ≡ length self.now.declared.events }
    {
        self.declared.event_count()
    }

    /// How many clocks are declared.
    pub fn clock_count(&self) -> usize
        ensures { result ≡ length self.now.declared.clocks }
    {
        self.declared.clocks().len()
    }
}
