//! The entries of blocks.
ghost use Rattle.std.specs.Prelude.{◌≡◌, None, Some, IfNone, IfOk, IfSome};
ghost use Rattle.type_scope.specs.Said.{same_words, value_named};
ghost use Rattle.std.specs.List.{list_any};
ghost use Rattle.tsdl_types.specs.Blocks as blocks;

use std::alloc::Global;
use trace_types::{OutOfMemory, Text};
use tsdl_parser::{AttrValue, BlockKind, Entry};
use type_rules::dotted;
use type_scope::{is_named, is_only};
use type_table::ScopeName;

/// The path of an entry.
pub fn path_of(entry: &Entry) -> &[Text]
    ensures { result.now ≡ blocks.path_of entry.now }
{
    match entry {
        Entry::Assign(attr) => attr.path.as_slice(),
        Entry::Declare { path, .. } => path.as_slice(),
    }
}

/// The value of the first entry of this word that has one.
pub fn value_in<'a>(entries: &'a [Entry], name: &[u8]) -> Option<&'a AttrValue>
    ensures found { IfSome result (λ value. value_named name.now (blocks.attrs_in entries.now) ≡ Some value.now) }
    ensures none { IfNone result (value_named name.now (blocks.attrs_in entries.now) ≡ None) }
{
    for entry in entries {
        if let Entry::Assign(attr) = entry
            && is_named(attr, name)
        {
            return Some(&attr.value);
        }
    }
    None
}

/// Whether, of two words that entries are of, the first entry of `name` stands after an entry of `other`, if there is one.
pub fn stands_last(entries: &[Entry], name: &[u8], other: &[u8]) -> bool
    ensures { result ≡ blocks.stands_last name.now other.now entries.now }
{
    for at in 0..entries.len() {
        if is_entry(&entries[at], name) {
            return !stands_in(&entries[at + 1..], other);
        }
        if is_entry(&entries[at], other) {
            return true;
        }
    }
    true
}

// Whether an entry of this one word is among these.
fn stands_in(entries: &[Entry], name: &[u8]) -> bool
    ensures { result ≡ list_any (blocks.is_entry name.now) entries.now }
{
    entries.iter().any(|entry| is_entry(entry, name))
}

// Whether an entry is of this one word.
fn is_entry(entry: &Entry, name: &[u8]) -> bool
    ensures { result ≡ blocks.is_entry name.now entry.now }
{
    is_only(path_of(entry), name)
}

/// The scope whose type an entry of a block gives.
pub fn scope_given(kind: BlockKind, path: &[Text]) -> Option<ScopeName>
    ensures { result ≡ blocks.scope_given kind path.now }
{
    match kind {
        BlockKind::Trace if is_two(path, b"packet", b"header") => Some(ScopeName::PacketHeader),
        BlockKind::Stream if is_two(path, b"packet", b"context") => Some(ScopeName::PacketContext),
        BlockKind::Stream if is_two(path, b"event", b"header") => Some(ScopeName::EventHeader),
        BlockKind::Stream if is_two(path, b"event", b"context") => Some(ScopeName::StreamContext),
        BlockKind::Event if is_only(path, b"context") => Some(ScopeName::EventContext),
        BlockKind::Event if is_only(path, b"fields") => Some(ScopeName::EventFields),
        _ => None,
    }
}

/// Whether the path is these two words.
pub fn is_two(path: &[Text], a: &[u8], b: &[u8]) -> bool
    ensures { result ≡ same_words path.now (blocks.two a.now b.now) }
{
    match path {
        [x, y] => x.as_bytes() == a && y.as_bytes() == b,
        _ => false,
    }
}

/// The name that a value says, a text or a path with dots between its words.
pub fn name_said(alloc: Global, value: &AttrValue) -> Result<Option<Text>, OutOfMemory>
    ensures { IfOk result (λ name. name ≡ blocks.name_said value.now) }
{
    match value {
        AttrValue::Signed(_) => Ok(None),
        AttrValue::Str(text) => Ok(Some(Text::from_bytes(alloc, text.as_bytes())?)),
        AttrValue::Path(words) => Ok(Some(dotted(alloc, words.as_slice())?)),
    }
}
