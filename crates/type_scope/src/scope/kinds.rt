//! What the types that are there may be used for.
ghost use Rattle.std.specs.Prelude.{◌≡◌, ◌<◌, length, nat_eq, List};
ghost use Rattle.type_table.specs.Table.{shape, tree_at};
ghost use Rattle.type_table.specs.Types.{Text, Ty, least_bits};
ghost use Rattle.type_scope.specs.Uses.{is_loose, is_struct, is_whole, may_be};
ghost use Rattle.type_scope.specs.View.{state};

use crate::field_path::Use;
use crate::scope::TypeScope;
use type_table::TypeMeta;

impl TypeScope {
    /// Whether a value may take no bit.
    #[tactic(auto, unfolding(crate::specs::View::state))]
    pub fn may_be_empty(&self, index: u32) -> bool
        requires { index < length (state self.now).types }
        ensures { result ≡ nat_eq (least_bits (tree_at (state self.now).types index)) 0 }
    {
        self.table.type_size(index).may_be_empty
    }

    /// Whether it is an integer, and no enumeration.
    #[tactic(auto, unfolding(crate::specs::View::state))]
    pub fn is_whole(&self, index: u32) -> bool
        requires { index < length (state self.now).types }
        ensures { result ≡ is_whole (tree_at (state self.now).types index) }
    {
        matches!(self.table.get(index), TypeMeta::Integer(_))
    }

    /// Whether it is a structure.
    #[tactic(auto, unfolding(crate::specs::View::state))]
    pub fn is_struct(&self, index: u32) -> bool
        requires { index < length (state self.now).types }
        ensures { result ≡ is_struct (tree_at (state self.now).types index) }
    {
        matches!(self.table.get(index), TypeMeta::Struct { .. })
    }

    /// Whether a type may be used so.
    #[tactic(auto, unfolding(crate::specs::View::state))]
    pub fn may_be(&self, role: Use, index: u32) -> bool
        requires { index < length (state self.now).types }
        ensures { result ≡ may_be role (tree_at (state self.now).types index) }
    {
        match role {
            Use::Alone => true,
            Use::Field => !is_loose(self.table.get(index)),
        }
    }
}

// Whether it is a variant without a tag.
fn is_loose(meta: &TypeMeta) -> bool
    ensures { (names : List Text) (trees : List Ty) → result ≡ is_loose (shape names trees meta.now) }
{
    let TypeMeta::Variant { tag, .. } = meta else {
        return false;
    };
    match (tag.scope, tag.words.as_slice()) {
        (None, []) => true,
        _ => false,
    }
}
