//! The scopes of blocks, and the attributes that have values.
ghost use Rattle.std.specs.Prelude.{◌≡◌, [], ◌∷◌, codes};
ghost use Rattle.std.specs.Option.{option_copied};
ghost use Rattle.tsdl_types.specs.Blocks as blocks;

use crate::entries::is_two;
use trace_types::Text;
use tsdl_parser::{BlockKind, Entry, TypeTree};
use type_scope::{Written, is_only};
use type_table::ScopeName;

/// The types that the entries of a block give its scopes.
pub fn written(kind: BlockKind, entries: &[Entry]) -> Written<'_>
    ensures { result ≡ blocks.written kind entries.now }
{
    let nothing = Written::nothing();
    match kind {
        BlockKind::Trace => nothing.with(
            ScopeName::PacketHeader,
            tree_of_two(entries, b"packet", b"header"),
        ),
        BlockKind::Stream => nothing
            .with(
                ScopeName::PacketContext,
                tree_of_two(entries, b"packet", b"context"),
            )
            .with(
                ScopeName::EventHeader,
                tree_of_two(entries, b"event", b"header"),
            )
            .with(
                ScopeName::StreamContext,
                tree_of_two(entries, b"event", b"context"),
            ),
        BlockKind::Event => nothing
            .with(ScopeName::EventContext, tree_of_one(entries, b"context"))
            .with(ScopeName::EventFields, tree_of_one(entries, b"fields")),
        _ => nothing,
    }
}

// The type that an entry gives for these two words.
fn tree_of_two<'a>(entries: &'a [Entry], a: &[u8], b: &[u8]) -> Option<&'a TypeTree>
    ensures { option_copied result ≡ blocks.tree_declared (blocks.two a.now b.now) entries.now }
{
    for entry in entries {
        if let Entry::Declare { path, ty } = entry
            && is_two(path.as_slice(), a, b)
        {
            return Some(ty);
        }
    }
    None
}

// The type that an entry gives for this word.
fn tree_of_one<'a>(entries: &'a [Entry], name: &[u8]) -> Option<&'a TypeTree>
    ensures { option_copied result ≡ blocks.tree_declared (name.now ∷ []) entries.now }
{
    for entry in entries {
        if let Entry::Declare { path, ty } = entry
            && is_only(path.as_slice(), name)
        {
            return Some(ty);
        }
    }
    None
}

/// Whether an attribute of a block has a value.
pub fn is_value(kind: BlockKind, path: &[Text]) -> bool
    ensures { result ≡ blocks.is_one_of (blocks.values_of kind) path.now }
{
    match kind {
        BlockKind::Trace => {
            is_only(path, b"byte_order") || is_only(path, b"major") || is_only(path, b"uuid")
        }
        BlockKind::Stream => is_only(path, b"id"),
        BlockKind::Event => {
            is_only(path, b"name") || is_only(path, b"id") || is_only(path, b"stream_id")
        }
        BlockKind::Clock => is_only(path, b"name") || is_rate(path),
        BlockKind::Env => is_only(path, b"hostname"),
        BlockKind::Callsite => false,
    }
}

// Whether an attribute of a clock is one of its three numbers.
fn is_rate(path: &[Text]) -> bool
    ensures { result ≡ blocks.is_one_of (codes "freq" ∷ codes "offset" ∷ codes "offset_s" ∷ []) path.now }
{
    is_only(path, b"freq") || is_only(path, b"offset") || is_only(path, b"offset_s")
}
