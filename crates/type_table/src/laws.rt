//! Laws on the types of a table.
ghost use Rattle.std.specs.Prelude.{◌≡◌, ◌<◌, ◌≤◌, length};
ghost use Rattle.type_table.specs.Table.{tree};
ghost use Rattle.type_table.specs.Types.{MAX_TYPE_DEPTH, MAX_NODES, depth, nodes};

use crate::table::Table;

/// A value of a type of a table goes at most 32 types deep, and consists of at most 65,536.
pub fn small_types(table: &Table, index: u32)
    requires { index < length table.now.types }
    ensures depth { depth (tree table.now index) ≤ MAX_TYPE_DEPTH }
    ensures nodes { nodes (tree table.now index) ≤ MAX_NODES }
{
    table.limits(index);
}
