//! Names by their numbers.
ghost use Rattle.std.specs.Prelude.{◌≡◌};
ghost use Rattle.ctf_fields.specs.Fields.{same};

use type_table::{Table, is_same_name};

/// Whether the names of two numbers count as one. Most that do have one number.
#[tactic(auto, using(crate::proofs::Nearest::one_name))]
pub fn is_same(table: &Table, a: u32, b: u32) -> bool
    ensures { result ≡ same table.now.names a b }
{
    a == b || is_same_name(table.name(a), table.name(b))
}
