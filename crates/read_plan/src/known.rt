//! What is known beforehand of the contexts of a trace's packets.
ghost use Rattle.std.specs.Prelude.{◌≡◌, false, []};

use crate::context::ContextPlan;
use sqlite_items::Boxed;

/// The plans by which contexts are read, by the indices of their types, and whether it is known that no type of the trace looks
/// into contexts.
#[derive(Clone, Copy)]
pub struct KnownContexts<'a> {
    pub plans: &'a [Option<Boxed<ContextPlan>>],
    pub lone: bool,
}

impl KnownContexts<'_> {
    /// Nothing: no plan, and contexts may be looked into.
    pub fn nothing() -> KnownContexts<'static>
        ensures plans { result.plans.now ≡ [] }
        ensures lone { result.lone ≡ false }
    {
        KnownContexts {
            plans: &[],
            lone: false,
        }
    }
}
