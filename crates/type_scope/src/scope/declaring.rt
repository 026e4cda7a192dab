//! What blocks add to what they declared, with types that are there.
ghost use Rattle.std.specs.Prelude.{◌≡◌, ◌<◌, [], None, OnOk, IfSome, Some, false, is_some, length, option_map};
ghost use Rattle.std.specs.Map.{lookup};
ghost use Rattle.trace_types.specs.Texts.{is_text};
ghost use Rattle.type_scope.specs.TypeScopes.{with_deferred, with_scopes, with_declared};
ghost use Rattle.type_table.specs.PerScope.{with_scope};
ghost use Rattle.type_scope.specs.References.{all_lead};
ghost use Rattle.type_table.specs.Table.{tree, tree_at};
ghost use Rattle.type_scope.specs.Declaring.{has_clock, has_event, scopes_begun, stream_if_any, stream_of, with_clock, with_event_named, with_hostname, with_stream, with_trace_read, with_uuid};
ghost use Rattle.type_scope.specs.View.{ScopesIn, indices_begun, scopes_at, state, stream_at};
ghost use Rattle.type_table.specs.TraceMetas.{IfHere, IsRate, IndexIn, StreamIn};

use crate::scope::TypeScope;
use crate::scope::references::all_lead;
use sqlite_items::Items;
use std::alloc::Global;
use trace_types::{OutOfMemory, Text};
use type_table::{ClockRate, EventId, EventParts, PerScope, ScopeName, StreamScopes};

impl TypeScope {
    /// Adds a stream of a new id.
    #[tactic(auto, unfolding(crate::specs::View::state), using(crate::proofs::Declaring::stream_more, crate::proofs::Declaring::streams_kept, crate::proofs::Declaring::new_stream))]
    pub fn declare_stream(&mut self, id: u64, scopes: StreamScopes) -> Result<(), OutOfMemory>
        requires there { StreamIn self.old.table (id, scopes) }
        requires new { stream_of id (state self.old).known.declared ≡ None }
        ensures known { OnOk result ((state self.new).known ≡ with_declared (with_stream id (stream_at self.old.table (id, scopes)).1 (state self.old).known.declared) (state self.old).known) }
        ensures table { self.new.table ≡ self.old.table }
    {
        self.declared.add_stream(id, scopes)
    }

    /// Adds an event of this name that its stream doesn't have.
    #[tactic(auto, unfolding(crate::specs::View::state), using(crate::proofs::Declaring::event_more, crate::proofs::Declaring::events_kept, crate::proofs::Declaring::new_event))]
    pub fn declare_event(
        &mut self,
        name: Text,
        event: EventId,
        context: Option<u32>,
        fields: Option<u32>,
    ) -> Result<(), OutOfMemory>
        requires context { IfHere (IndexIn self.old.table) context }
        requires fields { IfHere (IndexIn self.old.table) fields }
        requires new { has_event event (state self.old).known.declared ≡ false }
        ensures known { OnOk result ((state self.new).known ≡ with_declared (with_event_named name event (option_map (tree self.old.table) context) (option_map (tree self.old.table) fields) (state self.old).known.declared) (state self.old).known) }
        ensures table { OnOk result (self.new.table ≡ self.old.table) }
    {
        let name = self.declared.event_name(name)?;
        let parts = EventParts {
            name,
            context,
            fields,
        };
        self.declared.add_event(event, parts)
    }

    /// A block of the trace was read.
    #[tactic(auto, unfolding(crate::specs::View::state))]
    pub fn declare_trace(&mut self)
        ensures { (state self.new).known ≡ with_declared (with_trace_read (state self.old).known.declared) (state self.old).known }
    {
        self.declared.set_trace_read();
    }

    /// Whether a block of the trace was read.
    #[tactic(auto, unfolding(crate::specs::View::state))]
    pub fn is_trace_read(&self) -> bool
        ensures { result ≡ (state self.now).known.declared.is_trace_read }
    {
        self.declared.is_trace_read()
    }

    /// The trace's unique id.
    #[tactic(auto, unfolding(crate::specs::View::state))]
    pub fn declare_uuid(&mut self, uuid: [u8; 16])
        ensures { (state self.new).known ≡ with_declared (with_uuid uuid (state self.old).known.declared) (state self.old).known }
    {
        self.declared.set_uuid(uuid);
    }

    /// The first host's name.
    #[tactic(auto, unfolding(crate::specs::View::state))]
    pub fn declare_hostname(&mut self, name: Text)
        ensures { (state self.new).known ≡ with_declared (with_hostname name (state self.old).known.declared) (state self.old).known }
    {
        self.declared.set_hostname(name);
    }

    /// Whether a host's name was declared.
    #[tactic(auto, unfolding(crate::specs::View::state))]
    pub fn has_hostname(&self) -> bool
        ensures { result ≡ is_some (state self.now).known.declared.hostname }
    {
        self.declared.hostname().is_some()
    }

    /// Whether there is a clock of a name.
    #[tactic(auto, unfolding(crate::specs::View::state))]
    pub fn has_clock(&self, name: &Text) -> bool
        ensures { result ≡ has_clock name.now (state self.now).known.declared }
    {
        self.declared.has_clock(name)
    }

    /// Adds a clock of a new name.
    #[tactic(auto, unfolding(crate::specs::View::state))]
    pub fn declare_clock(&mut self, name: Text, rate: ClockRate) -> Result<(), OutOfMemory>
        requires fresh { lookup (is_text name) (state self.old).known.declared.clocks ≡ None }
        requires rate { IsRate rate }
        ensures known { OnOk result ((state self.new).known ≡ with_declared (with_clock name rate (state self.old).known.declared) (state self.old).known) }
        ensures table { self.new.table ≡ self.old.table }
    {
        self.declared.add_clock(name, rate)
    }

    /// Begins a block, before which the scopes of this stream are read, if it is one's.
    #[tactic(auto, unfolding(crate::specs::View::state), using(crate::proofs::Declaring::begun_in, crate::proofs::Declaring::begun_at))]
    pub fn begin(&mut self, alloc: Global, stream: Option<u64>)
        ensures known { (state self.new).known ≡ with_deferred [] (with_scopes (scopes_begun stream (state self.old).known) (state self.old).known) }
        ensures table { self.new.table ≡ self.old.table }
    {
        let stream = self.stream_if_any(stream);
        self.scopes = begun(self.scopes, stream);
        self.deferred = Items::new(alloc);
    }

    fn stream_if_any(&self, id: Option<u64>) -> Option<StreamScopes>
        ensures declared { option_map (λ s. (stream_at self.now.table (0, s)).1) result ≡ stream_if_any id (state self.now).known.declared }
        ensures there { IfSome result (λ s. StreamIn self.now.table (0, s)) }
    {
        match id {
            Some(id) => self.stream(id),
            None => None,
        }
    }

    /// The indices of the scopes' types.
    #[tactic(auto, unfolding(crate::specs::View::state))]
    pub fn scopes(&self) -> PerScope<Option<u32>>
        ensures types { scopes_at self.now.table result ≡ (state self.now).known.scopes }
        ensures there { ScopesIn self.now.table result }
    {
        self.scopes
    }

    /// Gives a scope its type.
    #[tactic(auto, unfolding(crate::specs::View::state), using(crate::proofs::Declaring::scopes_set_in, crate::proofs::Declaring::scopes_set_at))]
    pub fn set_scope(&mut self, scope: ScopeName, index: u32)
        requires { index < length (state self.old).types }
        ensures { (state self.new).known ≡ with_scopes (with_scope scope (Some (tree_at (state self.old).types index)) (state self.old).known.scopes) (state self.old).known }
    {
        self.scopes.set(scope, Some(index));
    }

    /// The scopes of the stream of an id.
    #[tactic(auto, unfolding(crate::specs::View::state), using(crate::proofs::Declaring::stream_found, crate::proofs::Declaring::stream_in))]
    pub fn stream(&self, id: u64) -> Option<StreamScopes>
        ensures declared { option_map (λ s. (stream_at self.now.table (0, s)).1) result ≡ stream_of id (state self.now).known.declared }
        ensures there { IfSome result (λ s. StreamIn self.now.table (0, s)) }
    {
        self.declared.stream(id)
    }

    /// Whether a stream has an event of an id.
    #[tactic(auto, unfolding(crate::specs::View::state), using(crate::proofs::Declaring::event_found))]
    pub fn has_event(&self, event: EventId) -> bool
        ensures { result ≡ has_event event (state self.now).known.declared }
    {
        self.declared.has_event(event)
    }

    /// Whether every field path that waited for the end of the block leads to what it may lead to.
    #[tactic(auto, unfolding(crate::specs::View::state))]
    pub fn paths_lead(&self) -> bool
        ensures { result ≡ all_lead (state self.now).known.scopes (state self.now).known.deferred }
    {
        all_lead(&self.table, self.scopes, self.deferred.as_slice())
    }
}

// The scopes of packets' headers and of a stream.
fn begun(indices: PerScope<Option<u32>>, stream: Option<StreamScopes>) -> PerScope<Option<u32>>
    ensures { result ≡ indices_begun indices stream }
{
    let mut begun = PerScope::none();
    begun.packet_header = indices.packet_header;
    if let Some(stream) = stream {
        begun.packet_context = stream.packet_context;
        begun.event_header = stream.event_header;
        begun.stream_context = stream.event_context;
    }
    begun
}
