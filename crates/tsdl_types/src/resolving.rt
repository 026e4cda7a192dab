//! What one trace declares, from the items of its metadata.
ghost use Rattle.std.specs.Prelude.{◌≡◌, None, Some, IfNone, IfSome};
ghost use Rattle.type_scope.specs.Traces.{trace};
ghost use Rattle.tsdl_types.specs.Items as items;
ghost use Rattle.tsdl_types.specs.Items.{Declares, resolved};

use crate::entries::value_in;
use crate::error::MetaError;
use crate::items::declare_types;
use std::alloc::Global;
use trace_types::ByteOrderKind;
use tsdl_parser::{BlockKind, Decl, Entry, Item};
use type_rules::trace_order_said;
use type_table::{MetaItemCause, TraceMeta};

/// What the items of a text declare, or the first item that breaks a rule, from 1, with the cause. A text without a
/// block of the trace is refused as item 0.
pub fn resolve(alloc: Global, decls: &[Decl]) -> Result<TraceMeta, MetaError>
    ensures { Declares trace (resolved decls.now) result }
{
    let Some(entries) = first_trace(decls) else {
        return Err(MetaError::Item {
            item: 0,
            cause: MetaItemCause::NoTrace,
        });
    };
    let order = order_in(entries);
    let known = declare_types(alloc, order, decls)?;
    Ok(known.into_meta(order))
}

// The entries of the first block of the trace.
fn first_trace(decls: &[Decl]) -> Option<&[Entry]>
    ensures found { IfSome result (λ entries. items.first_trace decls.now ≡ Some entries.now) }
    ensures none { IfNone result (items.first_trace decls.now ≡ None) }
{
    for decl in decls {
        if let Some(entries) = trace_entries(&decl.item) {
            return Some(entries);
        }
    }
    None
}

// The entries of a block of the trace.
fn trace_entries(item: &Item) -> Option<&[Entry]>
    ensures found { IfSome result (λ entries. items.trace_entries item.now ≡ Some entries.now) }
    ensures none { IfNone result (items.trace_entries item.now ≡ None) }
{
    match item {
        Item::Block { kind, entries } => match kind {
            BlockKind::Trace => Some(entries.as_slice()),
            _ => None,
        },
        _ => None,
    }
}

// The byte order that a block of the trace says.
fn order_in(entries: &[Entry]) -> ByteOrderKind
    ensures { result ≡ items.order_in entries.now }
{
    match value_in(entries, b"byte_order") {
        Some(value) => trace_order_said(value).unwrap_or(ByteOrderKind::Little),
        None => ByteOrderKind::Little,
    }
}
