//! What holds of all traces and their stream files.
ghost use Rattle.std.specs.Prelude.{◌≡◌, ℕ, List, [], ◌∷◌};
ghost use Rattle.std.specs.List.{AllByRecursion};
ghost use Rattle.type_table.specs.SameTrace.{AreBoth, IsSameTrace};
ghost use Rattle.type_table.specs.TraceMetas.{IsSoundMeta, TraceMetaModel};
ghost use Rattle.trace_types.specs.declared.event.Event.{Event};
ghost use Rattle.decode_pool.specs.declared.decoded_packet.AcceptedPacket.{AcceptedPacket};
ghost use Rattle.decode_pool.specs.declared.files.FileBytes.{FileBytes};
ghost use Rattle.decode_pool.specs.declared.lost_events.Counts.{Counts};
ghost use Rattle.decode_pool.specs.Marks.{listed, nothing_lost};
ghost use Rattle.decode_pool.specs.Missing.{IsEmpty, MarksAreWhereEventsAreMissing};
ghost use Rattle.decode_pool.specs.OneTrace.{IsSameFile, TellSame};

/// Whatever places a trace's types are kept at, its files tell the same: one list of events, one list of refused packets.
pub fn one_list()
    ensures { (host : ℕ) (m n : TraceMetaModel) (files others : List FileBytes) → IsSoundMeta m → IsSoundMeta n → IsSameTrace m n → AreBoth IsSameFile files others → TellSame host m n files others }
{}

/// A mark stands before a packet's first event exactly where something is missing since the packet that had events
/// before it, and says how much; packets without events add nothing.
pub fn marks_where_missing()
    ensures marks { (before : Counts) (empty : List AcceptedPacket) (k : AcceptedPacket) (first : Event) (others : List Event) (after : List AcceptedPacket) → AllByRecursion IsEmpty empty → k.events ≡ first ∷ others → MarksAreWhereEventsAreMissing before empty k first after }
    ensures alone { (before : Counts) (empty : List AcceptedPacket) → AllByRecursion IsEmpty empty → listed before nothing_lost empty ≡ [] }
{}
