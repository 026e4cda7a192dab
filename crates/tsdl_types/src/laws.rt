//! Laws on what one trace declares.
ghost use Rattle.std.specs.Prelude.{◌<◌, ◌≤◌, length};
ghost use Rattle.type_table.specs.Table.{tree};
ghost use Rattle.type_table.specs.Types.{MAX_TYPE_DEPTH, MAX_NODES, depth, nodes};

use type_table::{TraceMeta, small_types};

/// A value of a type of a trace goes at most 32 types deep, and consists of at most 65,536.
pub fn small_types_of_traces(meta: &TraceMeta, index: u32)
    requires { index < length meta.now.table.types }
    ensures depth { depth (tree meta.now.table index) ≤ MAX_TYPE_DEPTH }
    ensures nodes { nodes (tree meta.now.table index) ≤ MAX_NODES }
{
    small_types(meta.table(), index);
}
