//! The kinds that carry the name of an event, as words.
ghost use Rattle.std.specs.Prelude.{◌≡◌, IfOk, IfSome, IfNone, ℕ, List, map};
ghost use Rattle.event_list.specs.NamedKinds.{IsNamed, may_name, named_event};

use std::alloc::Global;
use trace_types::{
    EventKind, KernelEvent, OutOfMemory, Text, is_call_in, is_call_out, read_byte_text,
};

/// The event of a kind that carries a name, with 0 in the place of its number.
pub fn named_event(kind: EventKind) -> Option<KernelEvent>
    ensures { result ≡ named_event kind }
{
    match kind {
        EventKind::CallIn => Some(KernelEvent::CallIn { name: 0 }),
        EventKind::CallOut => Some(KernelEvent::CallOut { name: 0 }),
        EventKind::Other => Some(KernelEvent::Other { name: 0 }),
        _ => None,
    }
}

// Whether an event of this name may be of the kind.
fn may_name(kind: EventKind, name: &[u8]) -> bool
    ensures { result ≡ may_name kind name.now }
{
    match kind {
        EventKind::CallIn => is_call_in(name),
        EventKind::CallOut => is_call_out(name),
        EventKind::Other => true,
        _ => false,
    }
}

/// Reads the one field of such a kind, a name that it may have.
pub fn read_name(
    alloc: Global,
    kind: EventKind,
    fields: &[&[u8]],
) -> Result<Option<Text>, OutOfMemory>
    ensures found { IfOk result (λ read. IfSome read (λ name. IsNamed kind (map (λ w. w.now) fields.now) name)) }
    ensures none { IfOk result (λ read. IfNone read ((name : List ℕ) → ¬ (IsNamed kind (map (λ w. w.now) fields.now) name))) }
{
    let [field] = fields else {
        return Ok(None);
    };
    let Some(name) = read_byte_text(alloc, field)? else {
        return Ok(None);
    };
    if !may_name(kind, name.as_bytes()) {
        return Ok(None);
    }
    Ok(Some(name))
}
