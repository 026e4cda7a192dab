//! Whether what is read of types hangs on the headers of events, or on the contexts of packets.
ghost use Rattle.std.specs.Prelude.{◌≡◌, ◌^◌, ◌≤◌, length, true, IfErr, IfOk};
ghost use Rattle.read_plan.specs.Lone.{HasLoneContexts, IsLone, begins_at, contexts_are_lone, headers_are_lone, looks_into, none_looks_into};

use trace_types::OutOfMemory;
use type_table::{ScopeName, Table, TypeMeta};

/// Whether no type looks into the headers of events for its tag or its length, so that what is read of a type is the same
/// whatever the header was. The only error is that there are more types than numbers of 32 bits.
#[tactic(auto, using(crate::proofs::LoneReads::is_lone))]
pub fn headers_are_lone(table: &Table) -> Result<bool, OutOfMemory>
    ensures is { IfOk result (λ lone. lone ≡ headers_are_lone table.now) }
    ensures lone { IfOk result (λ lone. lone ≡ true → IsLone table.now) }
    ensures err { IfErr result (λ e. 2 ^ 32 ≤ length table.now.types) }
{
    none_looks_into(table, ScopeName::EventHeader)
}

/// Whether no type looks into the contexts of packets for its tag or its length, so that what is read of a type is the same
/// whatever the context was. The only error is that there are more types than numbers of 32 bits.
#[tactic(auto, using(crate::proofs::LoneReads::lone_contexts))]
pub fn contexts_are_lone(table: &Table) -> Result<bool, OutOfMemory>
    ensures is { IfOk result (λ lone. lone ≡ contexts_are_lone table.now) }
    ensures lone { IfOk result (λ lone. lone ≡ true → HasLoneContexts table.now) }
    ensures err { IfErr result (λ e. 2 ^ 32 ≤ length table.now.types) }
{
    none_looks_into(table, ScopeName::PacketContext)
}

fn none_looks_into(table: &Table, scope: ScopeName) -> Result<bool, OutOfMemory>
    ensures is { IfOk result (λ none. none ≡ none_looks_into scope table.now) }
    ensures err { IfErr result (λ e. 2 ^ 32 ≤ length table.now.types) }
{
    if table.len() > u32::MAX as usize {
        return Err(OutOfMemory);
    }
    for index in 0..table.len() as u32 {
        if looks_into(table.get(index), scope) {
            return Ok(false);
        }
    }
    Ok(true)
}

// Whether the tag or the length of a type is looked for in this scope.
fn looks_into(ty: &TypeMeta, scope: ScopeName) -> bool
    ensures { result ≡ looks_into scope ty.now }
{
    match ty {
        TypeMeta::Variant { tag, .. } => begins_at(scope, tag.scope),
        TypeMeta::Sequence { length, .. } => begins_at(scope, length.scope),
        _ => false,
    }
}

// Whether a field path begins at this scope.
fn begins_at(scope: ScopeName, first: Option<ScopeName>) -> bool
    ensures { result ≡ begins_at scope first }
{
    first == Some(scope)
}
