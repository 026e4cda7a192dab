//! What a whole text declares.
ghost use Rattle.std.specs.Prelude.{◌≡◌};
ghost use Rattle.type_scope.specs.Traces.{trace, trace_of};
ghost use Rattle.type_scope.specs.View.{state};

use crate::scope::TypeScope;
use trace_types::ByteOrderKind;
use type_table::TraceMeta;

impl TypeScope {
    /// What is declared where the text ends here and the trace has this byte order.
    #[tactic(auto, unfolding(crate::specs::View::state, crate::specs::Traces::trace))]
    pub fn into_meta(self, order: ByteOrderKind) -> TraceMeta
        ensures { trace result ≡ trace_of order (state self).known }
    {
        let TypeScope {
            table,
            declared,
            scopes,
            ..
        } = self;
        TraceMeta::new(order, scopes.packet_header, table, declared)
    }
}
