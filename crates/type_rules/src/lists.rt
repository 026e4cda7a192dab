//! Lists of items.
ghost use Rattle.std.specs.Prelude.{◌≡◌, ◌<◌, length};
ghost use Rattle.type_scope.specs.TypeScopes.{Gives};
ghost use Rattle.type_table.specs.Table.{tree_at};
ghost use Rattle.type_rules.specs.Typing as typing;
ghost use Rattle.type_scope.specs.View.{state};

use std::alloc::Global;
use trace_types::MAX_ITEMS;
use tsdl_parser::Dim;
use type_scope::{BlockContext, PathUse, TypeScope};
use type_table::{Fault, MetaItemCause};

/// Lists of lists: the last that is written is in all others, and is judged first.
pub fn lists(
    types: &mut TypeScope,
    alloc: Global,
    block_context: &BlockContext<'_>,
    dims: &[Dim],
    index: u32,
) -> Result<u32, Fault>
    requires { index < length (state types.old).types }
    ensures { Gives (typing.lists block_context.now dims.now (tree_at (state types.old).types index) (state types.old).known) result (state types.new) }
{
    let [outer @ .., last] = dims else {
        return Ok(index);
    };
    let item = list_of(types, alloc, block_context, last, index)?;
    lists(types, alloc, block_context, outer, item)
}

// A list of items each of which takes a bit at least.
#[tactic(auto, unfolding(crate::specs::Typing::list_of))]
fn list_of(
    types: &mut TypeScope,
    alloc: Global,
    block_context: &BlockContext<'_>,
    dim: &Dim,
    item: u32,
) -> Result<u32, Fault>
    requires { item < length (state types.old).types }
    ensures { Gives (typing.list_of block_context.now dim.now (tree_at (state types.old).types item) (state types.old).known) result (state types.new) }
{
    if types.may_be_empty(item) {
        return Err(Fault::Breaks(MetaItemCause::BadAttribute));
    }
    match dim {
        Dim::Fixed(count) if *count > MAX_ITEMS => Err(Fault::Breaks(MetaItemCause::BadAttribute)),
        Dim::Fixed(count) => types.add_array(*count, item),
        Dim::Path(words) => {
            let index = types.add_sequence(alloc, words.as_slice(), item)?;
            types.check_path(alloc, block_context, PathUse::Length, words.as_slice())?;
            Ok(index)
        }
    }
}
