//! What holds of all event lists: bytes are one list at most, and a name stands in its line as one word. These functions do
//! nothing: each is called for what it ensures.
ghost use Rattle.std.specs.Prelude.{◌≡◌, ◌++◌, ◌∷◌, [], ℕ, List, true};
ghost use Rattle.trace_types.specs.ByteTexts.{byte_text};
ghost use Rattle.trace_types.specs.declared.event.Merged.{Merged};
ghost use Rattle.event_list.specs.declared.parsed_line.ParsedLine.{ParsedLine};
ghost use Rattle.event_list.specs.declared.trace.MergedTrace.{MergedTrace};
ghost use Rattle.event_list.specs.Lines.{IsEventList, head_text, line_text};
ghost use Rattle.event_list.specs.Names.{IsTrace, carries_name};
ghost use Rattle.event_list.specs.Written.{name_parsed};

/// Bytes are one list of lines at most, and tell one list of events and one list of names of each host.
pub fn one_list()
    ensures lines { (bytes : List ℕ) (ts us : List ParsedLine) → IsEventList bytes ts → IsEventList bytes us → ts ≡ us }
    ensures trace { (bytes : List ℕ) (ts us : List ParsedLine) (t u : MergedTrace) → IsEventList bytes ts → IsTrace ts t → IsEventList bytes us → IsTrace us u → (t.events.items ≡ u.events.items) × (t.names.items ≡ u.names.items) }
{}

/// The line of an event that carries a name ends with the word that stands for it.
pub fn named_line()
    ensures { (names : List (List ℕ)) (m : Merged) → carries_name m.event.kind ≡ true → line_text names m ≡ head_text m ++ 32 ∷ byte_text (name_parsed names m.event.kind) ++ 10 ∷ [] }
{}
