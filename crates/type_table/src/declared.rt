//! What the blocks of a text declared.
ghost use Rattle.std.specs.Prelude.{◌≡◌, ◌<◌, ◌^◌, None, Some, is_some, length, nat_eq, IfOk, IfSome, IfNone, OnErr, OnOk, option_map, position, slice_get};
ghost use Rattle.std.specs.List.{position_or_len};
ghost use Rattle.std.specs.Map.{keys_of, lookup};
ghost use Rattle.std.specs.Option.{option_copied};
ghost use Rattle.indexmap.specs.IndexMap.{keys};
ghost use Rattle.trace_types.specs.Texts.{is_text};
ghost use Rattle.type_table.specs.TraceMetas.{AreFew, IsRate, kept_clock, kept_event, kept_hostname, kept_name, kept_stream, kept_trace, kept_uuid, nothing_kept, same_event};

use crate::few::are_few;
use indexmap::{IndexMap, IndexSet};
use std::alloc::Global;
use std::marker::Model;
use trace_types::{OutOfMemory, Text};

/// A clock counts `freq` times a second, from `offset_s` seconds and `offset` counts on.
#[derive(Clone, Copy, Debug)]
pub struct ClockRate {
    pub freq: u64,
    pub offset: i128,
    pub offset_s: i128,
}

/// The indices of the types of a stream's scopes.
#[derive(Clone, Copy, Debug)]
pub struct StreamScopes {
    pub packet_context: Option<u32>,
    pub event_header: Option<u32>,
    pub event_context: Option<u32>,
}

/// What an event is found by.
#[derive(Clone, Copy, Debug, PartialEq, Eq, Hash)]
pub struct EventId {
    pub stream: u64,
    pub id: u64,
}

/// The number of an event's name, and the indices of the types of its scopes.
#[derive(Clone, Copy, Debug)]
pub struct EventParts {
    pub name: u32,
    pub context: Option<u32>,
    pub fields: Option<u32>,
}

/// Streams, events, clocks and what is declared of the whole trace. Contracts see them as lists.
#[derive(Debug, Drop)]
pub struct Declared {
    is_trace_read: bool,
    uuid: Option<[u8; 16]>,
    streams: IndexMap<u64, StreamScopes>,
    events: IndexMap<EventId, EventParts>,
    event_names: IndexSet<Text>,
    clocks: IndexMap<Text, ClockRate>,
    hostname: Option<Text>,
}

impl Model for Declared {
    ghost use Rattle.type_table.specs.TraceMetas.{DeclaredIndices, AreFew};

    ghost Value = { DeclaredIndices };

    ghost view = { λ t. record { is_trace_read = t.is_trace_read; uuid = t.uuid; streams = t.streams.entries; events = t.events.entries; event_names = t.event_names.keys; clocks = t.clocks.entries; hostname = t.hostname } };

    ghost invariant = { λ t. AreFew (record { is_trace_read = t.is_trace_read; uuid = t.uuid; streams = t.streams.entries; events = t.events.entries; event_names = t.event_names.keys; clocks = t.clocks.entries; hostname = t.hostname }) };
}

impl Declared {
    /// Nothing. It takes no memory.
    pub fn new(alloc: Global) -> Declared
        ensures { result ≡ nothing_kept }
    {
        Declared {
            is_trace_read: false,
            uuid: None,
            streams: IndexMap::new(alloc),
            events: IndexMap::new(alloc),
            event_names: IndexSet::new(alloc),
            clocks: IndexMap::new(alloc),
            hostname: None,
        }
    }

    /// What holds of all that blocks declared: each list is short, and each clock's rate lies within its bounds. It does nothing.
    pub fn are_few(&self)
        ensures { AreFew self.now }
    {
        let _ = &self.streams;
    }

    /// The clocks that were declared, fewer than 2^32, by their names.
    pub fn clocks(&self) -> &IndexMap<Text, ClockRate>
        ensures names { result.now.entries ≡ self.now.clocks }
        ensures few { length (keys result.now) < 2 ^ 32 }
    {
        &self.clocks
    }

    /// How the clock at an index counts.
    pub fn clock(&self, index: u32) -> Option<ClockRate>
        ensures found { result ≡ option_map (λ clock. clock.1) (slice_get self.now.clocks index) }
        ensures rate { IfSome result IsRate }
    {
        let (_, rate) = self.clocks.get_index(index as usize)?;
        Some(*rate)
    }

    /// The scopes of the stream of an id.
    pub fn stream(&self, id: u64) -> Option<StreamScopes>
        ensures { result ≡ lookup (nat_eq id) self.now.streams }
    {
        self.streams.get(&id).copied()
    }

    /// Notes a stream of a new id.
    pub fn add_stream(&mut self, id: u64, scopes: StreamScopes) -> Result<(), OutOfMemory>
        requires { lookup (nat_eq id) self.old.streams ≡ None }
        ensures ok { OnOk result (self.new ≡ kept_stream id scopes self.old) }
        ensures err { OnErr result (self.new ≡ self.old) }
    {
        self.streams.insert(id, scopes)?;
        Ok(())
    }

    /// Whether a stream has an event of an id.
    pub fn has_event(&self, event: EventId) -> bool
        ensures { result ≡ is_some (lookup (same_event event) self.now.events) }
    {
        self.events.contains_key(&event)
    }

    /// Notes an event that its stream doesn't have. Their number has 32 bits.
    pub fn add_event(&mut self, event: EventId, parts: EventParts) -> Result<(), OutOfMemory>
        requires { lookup (same_event event) self.old.events ≡ None }
        ensures ok { OnOk result (self.new ≡ kept_event event parts self.old) }
        ensures err { OnErr result (self.new ≡ self.old) }
    {
        if !are_few(self.events.len() + 1) {
            return Err(OutOfMemory);
        }
        self.events.insert(event, parts)?;
        Ok(())
    }

    /// Notes a clock of a new name. Their number has 32 bits.
    pub fn add_clock(&mut self, name: Text, rate: ClockRate) -> Result<(), OutOfMemory>
        requires fresh { lookup (is_text name) self.old.clocks ≡ None }
        requires rate { IsRate rate }
        ensures ok { OnOk result (self.new ≡ kept_clock name rate self.old) }
        ensures err { OnErr result (self.new ≡ self.old) }
    {
        if !are_few(self.clocks.len() + 1) {
            return Err(OutOfMemory);
        }
        self.clocks.insert(name, rate)?;
        Ok(())
    }

    /// Whether there is a clock of a name.
    pub fn has_clock(&self, name: &Text) -> bool
        ensures { result ≡ is_some (lookup (is_text name.now) self.now.clocks) }
    {
        self.clocks.contains_key(name)
    }

    /// The first host's name.
    pub fn hostname(&self) -> Option<&Text>
        ensures { option_copied result ≡ self.now.hostname }
    {
        self.hostname.as_ref()
    }

    /// Whether a block of the trace was read.
    pub fn is_trace_read(&self) -> bool
        ensures { result ≡ self.now.is_trace_read }
    {
        self.is_trace_read
    }

    /// A block of the trace was read.
    pub fn set_trace_read(&mut self)
        ensures { self.new ≡ kept_trace self.old }
    {
        self.is_trace_read = true;
    }

    /// The trace's unique id.
    pub fn set_uuid(&mut self, uuid: [u8; 16])
        ensures { self.new ≡ kept_uuid uuid self.old }
    {
        self.uuid = Some(uuid);
    }

    /// The first host's name.
    pub fn set_hostname(&mut self, name: Text)
        ensures { self.new ≡ kept_hostname name self.old }
    {
        self.hostname = Some(name);
    }

    /// The trace's unique id.
    pub fn uuid(&self) -> Option<[u8; 16]>
        ensures { result ≡ self.now.uuid }
    {
        self.uuid
    }

    /// The index of an event.
    pub fn find_event(&self, event: EventId) -> Option<u32>
        ensures { result ≡ position (same_event event) (keys_of self.now.events) }
    {
        self.events.get_index_of(&event).map(|index| index as u32)
    }

    /// The event at an index.
    pub fn event(&self, index: u32) -> Option<(EventId, EventParts)>
        ensures { result ≡ slice_get self.now.events index }
    {
        let (id, parts) = self.events.get_index(index as usize)?;
        Some((*id, *parts))
    }

    /// How many streams there are.
    pub fn stream_count(&self) -> usize
        ensures { result ≡ length self.now.streams }
    {
        self.streams.len()
    }

    /// How many events there are.
    pub fn event_count(&self) -> usize
        ensures { result ≡ length self.now.events }
    {
        self.events.len()
    }

    /// The event's name of this number.
    pub fn event_name_at(&self, number: u32) -> Option<&[u8]>
        ensures found { IfSome result (λ name. slice_get self.now.event_names number ≡ Some name.now) }
        ensures none { IfNone result (slice_get self.now.event_names number ≡ None) }
    {
        Some(self.event_names.get_index(number as usize)?.as_bytes())
    }

    /// The index of an event's name among the names, which are more by it where it is new.
    pub fn event_name(&mut self, name: Text) -> Result<u32, OutOfMemory>
        ensures named { IfOk result (λ index. index ≡ position_or_len (is_text name) self.old.event_names) }
        ensures ok { OnOk result (self.new ≡ kept_name name self.old) }
        ensures err { OnErr result (self.new ≡ self.old) }
    {
        if !are_few(self.event_names.len() + 1) {
            return Err(OutOfMemory);
        }
        let (index, _) = self.event_names.insert_full(name)?;
        Ok(index as u32)
    }
}
