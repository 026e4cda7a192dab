//! What stands around the types of a block.
ghost use Rattle.std.specs.Prelude.{◌≡◌};
ghost use Rattle.std.specs.Option.{option_copied};
ghost use Rattle.type_table.specs.PerScope.{no_scopes, of_scope, with_scope};

use std::marker::Model;
use trace_types::ByteOrderKind;
use tsdl_parser::TypeTree;
use type_table::{PerScope, ScopeName};

/// The types that the entries of a block give its scopes, as they are written.
#[derive(Drop)]
pub struct Written<'a> {
    trees: PerScope<Option<&'a TypeTree>>,
}

impl<'a> Model for Written<'a> {
    ghost use Rattle.std.specs.Option.{option_copied};
    ghost use Rattle.std.specs.Coded.{codes};
    ghost use Rattle.tsdl_parser.specs.contracts.tree.TypeTree as tree;
    ghost use Rattle.type_table.specs.PerScope.{map_scopes};
    ghost use Rattle.type_scope.specs.BlockContexts.{Written as SpecWritten};

    ghost Value = { SpecWritten };

    ghost coded = { Prim.hlevel (codes, tree.the_row.coded) };

    ghost view = { λ w. map_scopes option_copied w.trees };
}

impl<'a> Written<'a> {
    /// No scope.
    pub fn nothing() -> Written<'a>
        ensures { result ≡ no_scopes }
    {
        Written {
            trees: PerScope::none(),
        }
    }

    /// With this type for a scope, if it is given one.
    pub fn with(self, scope: ScopeName, tree: Option<&'a TypeTree>) -> Written<'a>
        ensures { result ≡ with_scope scope (option_copied tree.entry) self.entry }
    {
        let mut trees = self.trees;
        trees.set(scope, tree);
        Written { trees }
    }

    /// The type of a scope.
    pub fn tree_of(&self, scope: ScopeName) -> Option<&'a TypeTree>
        ensures { option_copied result ≡ of_scope scope self.now }
    {
        *self.trees.of(scope)
    }
}

/// The trace's byte order, the scope that is being read, if it is one, and the scopes of the block.
#[derive(Drop)]
pub struct BlockContext<'a> {
    order: ByteOrderKind,
    reading: Option<ScopeName>,
    written: &'a Written<'a>,
}

impl<'a> Model for BlockContext<'a> {
    ghost use Rattle.std.specs.Coded.{codes};
    ghost use Rattle.tsdl_parser.specs.contracts.tree.TypeTree as tree;
    ghost use Rattle.type_scope.specs.BlockContexts.{BlockContext as SpecBlockContext};

    ghost Value = { SpecBlockContext };

    ghost coded = { Prim.hlevel (codes, tree.the_row.coded) };

    ghost view = { λ a. record { order = a.order; reading = a.reading; written = a.written.now } };
}

impl<'a> BlockContext<'a> {
    /// Around the types of an entry, or of an item, which reads no scope and has none written.
    pub fn new(
        order: ByteOrderKind,
        reading: Option<ScopeName>,
        written: &'a Written<'a>,
    ) -> BlockContext<'a>
        ensures { result ≡ record { order = order; reading = reading; written = written.now } }
    {
        BlockContext {
            order,
            reading,
            written,
        }
    }

    /// The trace's byte order.
    pub fn order(&self) -> ByteOrderKind
        ensures { result ≡ self.now.order }
    {
        self.order
    }

    /// The scope that is being read.
    pub fn reading(&self) -> Option<ScopeName>
        ensures { result ≡ self.now.reading }
    {
        self.reading
    }

    /// The type that the block gives a scope.
    pub fn tree_of(&self, scope: ScopeName) -> Option<&'a TypeTree>
        ensures { option_copied result ≡ of_scope scope self.now.written }
    {
        self.written.tree_of(scope)
    }
}
