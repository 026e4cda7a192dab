//! Blocks, entry by entry.
ghost use Rattle.std.specs.Prelude.{◌≡◌, [], is_some, OnOk};
ghost use Rattle.tsdl_types.specs.Blocks as blocks;
ghost use Rattle.tsdl_types.specs.Blocks.{path_of};
ghost use Rattle.type_rules.specs.Attributes.{is_seen, noted};
ghost use Rattle.type_scope.specs.TypeScopes.{Does};
ghost use Rattle.type_scope.specs.View.{state};

use crate::blocks::{block_declared, id_in, require, value_of};
use crate::entries::{path_of, scope_given};
use crate::scopes::{is_value, written};
use std::alloc::Global;
use trace_types::{ByteOrderKind, MAX_BRACES, Text};
use tsdl_parser::{Attr, BlockKind, Entry, TypeTree};
use type_rules::{SeenPaths, used_as};
use type_scope::{BlockContext, TypeScope, Use, Written};
use type_table::{Fault, MetaItemCause};

// The entries of a block of a kind, where the trace has this byte order, and the types that they give its scopes.
#[derive(Clone, Copy)]
struct Block<'a> {
    order: ByteOrderKind,
    kind: BlockKind,
    all: &'a [Entry],
    written: &'a Written<'a>,
}

/// What a block tells.
#[tactic(auto, unfolding(crate::specs::Blocks::block_of))]
pub fn block_of(
    types: &mut TypeScope,
    alloc: Global,
    order: ByteOrderKind,
    kind: BlockKind,
    all: &[Entry],
) -> Result<(), Fault>
    ensures { Does (blocks.block_of order kind all.now (state types.old).known) result (state types.new) }
{
    if is_passed_over(kind) {
        return Ok(());
    }
    let again = is_trace(kind) && types.is_trace_read();
    require(!again, MetaItemCause::DuplicateId)?;
    let written = &written(kind, all);
    let block = Block {
        order,
        kind,
        all,
        written,
    };
    entered_by(types, alloc, block)
}

// Whether a block of this kind is passed over whole.
fn is_passed_over(kind: BlockKind) -> bool
    ensures { result ≡ blocks.is_passed_over kind }
{
    matches!(kind, BlockKind::Callsite)
}

fn is_trace(kind: BlockKind) -> bool
    ensures { result ≡ blocks.is_trace kind }
{
    matches!(kind, BlockKind::Trace)
}

fn entered_by(types: &mut TypeScope, alloc: Global, block: Block<'_>) -> Result<(), Fault>
    requires { block.written.now ≡ blocks.written block.kind block.all.now }
    ensures { Does (blocks.entered_by block.entry.order block.entry.kind block.entry.all.now (state types.old).known) result (state types.new) }
{
    types.begin(alloc, stream_before(block.kind, block.all));
    entries_of(types, alloc, block)?;
    block_declared(types, alloc, block.kind, block.all)
}

// The stream whose scopes are read before those of a block.
fn stream_before(kind: BlockKind, all: &[Entry]) -> Option<u64>
    ensures { result ≡ blocks.stream_before kind all.now }
{
    match kind {
        BlockKind::Event => Some(id_in(b"stream_id", all)),
        _ => None,
    }
}

fn entries_of(types: &mut TypeScope, alloc: Global, block: Block<'_>) -> Result<(), Fault>
    requires { block.written.now ≡ blocks.written block.kind block.all.now }
    ensures { Does (blocks.entries_from block.entry.order block.entry.kind block.entry.all.now [] block.entry.all.now (state types.old).known) result (state types.new) }
{
    let seen = SeenPaths::with_capacity(alloc, block.all.len())?;
    entries_behind(types, alloc, block, seen)
}

// Entries after those of these paths.
fn entries_behind<'a>(
    types: &mut TypeScope,
    alloc: Global,
    block: Block<'a>,
    mut seen: SeenPaths<'a>,
) -> Result<(), Fault>
    requires { block.written.now ≡ blocks.written block.kind block.all.now }
    ensures { Does (blocks.entries_from block.entry.order block.entry.kind block.entry.all.now seen.entry block.entry.all.now (state types.old).known) result (state types.new) }
{
    for at in 0..block.all.len() {
        next_entry(types, alloc, block, &mut seen, &block.all[at])?;
    }
    Ok(())
}

// An entry after entries of these paths, to which its own is added.
fn next_entry<'a>(
    types: &mut TypeScope,
    alloc: Global,
    block: Block<'_>,
    seen: &mut SeenPaths<'a>,
    entry: &'a Entry,
) -> Result<(), Fault>
    requires { block.written.now ≡ blocks.written block.kind block.all.now }
    ensures step { Does (blocks.entry_of block.entry.order block.entry.kind block.entry.all.now (is_seen (path_of entry.now) seen.old) entry.now (state types.old).known) result (state types.new) }
    ensures noted { OnOk result (seen.new ≡ noted (path_of entry.now) seen.old) }
{
    let stood = seen.note(path_of(entry))?;
    entry_of(types, alloc, block, stood, entry)
}

#[tactic(auto, unfolding(crate::specs::Blocks::entry_of))]
fn entry_of(
    types: &mut TypeScope,
    alloc: Global,
    block: Block<'_>,
    stood: bool,
    entry: &Entry,
) -> Result<(), Fault>
    requires { block.written.now ≡ blocks.written block.kind block.all.now }
    ensures { Does (blocks.entry_of block.entry.order block.entry.kind block.entry.all.now stood entry.now (state types.old).known) result (state types.new) }
{
    match entry {
        Entry::Assign(attr) => assigned_by(types, alloc, block, stood, attr),
        Entry::Declare { path, ty } => {
            declared_by(types, alloc, block, stood, path.as_slice(), ty)
        }
    }
}

// An entry that has a value.
fn assigned_by(
    types: &mut TypeScope,
    alloc: Global,
    block: Block<'_>,
    stood: bool,
    attr: &Attr,
) -> Result<(), Fault>
    ensures { Does (blocks.assigned_by block.entry.kind block.entry.all.now stood attr.now (state types.old).known) result (state types.new) }
{
    let path = attr.path.as_slice();
    let breaks = is_again(block.kind, stood) || scope_given(block.kind, path).is_some();
    require(!breaks, MetaItemCause::BadAttribute)?;
    value_of(types, alloc, block.kind, block.all, attr)
}

// Whether a path stands again that may stand once.
fn is_again(kind: BlockKind, stood: bool) -> bool
    ensures { result ≡ blocks.is_again kind stood }
{
    match kind {
        BlockKind::Env => false,
        _ => stood,
    }
}

// An entry that has a type. That of a scope is a structure.
fn declared_by(
    types: &mut TypeScope,
    alloc: Global,
    block: Block<'_>,
    stood: bool,
    path: &[Text],
    tree: &TypeTree,
) -> Result<(), Fault>
    requires { block.written.now ≡ blocks.written block.kind block.all.now }
    ensures { Does (blocks.declared_by block.entry.order block.entry.kind block.entry.all.now stood path.now tree.now (blocks.scope_given block.entry.kind path.now) (state types.old).known) result (state types.new) }
{
    let block_context = &entry_context(block, path);
    let index = used_as(types, alloc, block_context, MAX_BRACES, Use::Alone, tree)?;
    let again = is_again(block.kind, stood);
    match scope_given(block.kind, path) {
        None => {
            let breaks = again || has_value(types, block.kind, path);
            require(!breaks, MetaItemCause::BadAttribute)
        }
        Some(scope) => {
            let holds = types.is_struct(index) && !again;
            require(holds, MetaItemCause::BadAttribute)?;
            types.set_scope(scope, index);
            Ok(())
        }
    }
}

// Whether an attribute of a block has a value. After the first host's name later ones aren't looked at.
fn has_value(types: &TypeScope, kind: BlockKind, path: &[Text]) -> bool
    ensures { result ≡ blocks.has_value kind (is_some (state types.now).known.declared.hostname) path.now }
{
    match kind {
        BlockKind::Env if types.has_hostname() => false,
        _ => is_value(kind, path),
    }
}

// What stands around a type of an entry.
fn entry_context<'a>(block: Block<'a>, path: &[Text]) -> BlockContext<'a>
    requires { block.written.now ≡ blocks.written block.kind block.all.now }
    ensures { result ≡ blocks.entry_context block.entry.order block.entry.kind block.entry.all.now path.now }
{
    BlockContext::new(block.order, scope_given(block.kind, path), block.written)
}
