//! What there is once for each scope of a packet and an event.
ghost use Rattle.std.specs.Prelude.{◌≡◌};
ghost use Rattle.type_table.specs.PerScope.{no_scopes, of_scope, with_scope};

use crate::meta::ScopeName;

/// What there is once for each scope, in the order in which they are read.
#[derive(Clone, Copy, Debug, Drop)]
pub struct PerScope<T> {
    pub packet_header: T,
    pub packet_context: T,
    pub event_header: T,
    pub stream_context: T,
    pub event_context: T,
    pub event_fields: T,
}

impl<T> PerScope<T> {
    /// What there is for a scope.
    pub fn of(&self, scope: ScopeName) -> &T
        ensures { result.now ≡ of_scope scope self.now }
    {
        match scope {
            ScopeName::PacketHeader => &self.packet_header,
            ScopeName::PacketContext => &self.packet_context,
            ScopeName::EventHeader => &self.event_header,
            ScopeName::StreamContext => &self.stream_context,
            ScopeName::EventContext => &self.event_context,
            ScopeName::EventFields => &self.event_fields,
        }
    }
}

impl<T> PerScope<Option<T>> {
    /// Nothing for any scope.
    pub fn none() -> PerScope<Option<T>>
        ensures { result ≡ no_scopes }
    {
        PerScope {
            packet_header: None,
            packet_context: None,
            event_header: None,
            stream_context: None,
            event_context: None,
            event_fields: None,
        }
    }
}

impl<T: Drop> PerScope<T> {
    /// Another value for a scope.
    pub fn set(&mut self, scope: ScopeName, value: T)
        ensures { self.new ≡ with_scope scope value self.old }
    {
        match scope {
            ScopeName::PacketHeader => self.packet_header = value,
            ScopeName::PacketContext => self.packet_context = value,
            ScopeName::EventHeader => self.event_header = value,
            ScopeName::StreamContext => self.stream_context = value,
            ScopeName::EventContext => self.event_context = value,
            ScopeName::EventFields => self.event_fields = value,
        }
    }
}
