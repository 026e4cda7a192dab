//! The steps of a merge, one at a time.
ghost use Rattle.std.specs.Prelude.{◌≡◌, ◌++◌, [], true, List, IfOk, IfNone, OnOk, OnErr, option_to_list};
ghost use Rattle.kernel_provider.specs.Given.{given_of, left};
ghost use Rattle.kernel_provider.specs.Steps.{steps_of};
ghost use Rattle.trace_types.specs.declared.event.Merged.{Merged};

use crate::queue::{Queue, take_turn};
use crate::rules::Assignments;
use crate::step::Step;
use crate::table::Table;
use std::alloc::Global;
use std::marker::Model;
use trace_types::{Merged, OutOfMemory};

/// Gives the steps of a merge, one at each call. Contracts see what it has still to give.
#[derive(Debug, Drop)]
pub struct Provider {
    table: Table,
    queue: Queue,
}

impl Model for Provider {
    ghost use Rattle.kernel_provider.specs.Given.{Given, given_of};

    ghost Value = { Given };

    ghost view = { λ p. given_of p.table.table p.queue };
}

impl Provider {
    /// A provider that has given no step. It takes no memory.
    pub fn new(alloc: Global) -> Provider
        ensures { (events : List Merged) → left result events ≡ steps_of events }
    {
        Provider {
            table: Table::new(alloc),
            queue: Queue {
                assignments: Assignments::new(),
                next: 0,
                key: 0,
                built: 0,
                place: 0,
                is_finished: false,
            },
        }
    }

    /// The next step of these events, which are the same at each call, and `None` when all steps
    /// were given. When memory runs out, nothing has changed, and the same step may be asked for again.
    pub fn next_step(&mut self, events: &[Merged]) -> Result<Option<Step>, OutOfMemory>
        ensures steps { IfOk result (λ step. left self.old events.now ≡ option_to_list step ++ left self.new events.now) }
        ensures none { IfOk result (λ step. IfNone step (left self.old events.now ≡ [])) }
        ensures err { OnErr result (self.new ≡ self.old) }
    {
        self.table.reserve()?;
        Ok(next_of(&mut self.table, &mut self.queue, events))
    }
}

// Takes turns until one gives a step, or none is left.
fn next_of(table: &mut Table, queue: &mut Queue, events: &[Merged]) -> Option<Step>
    requires room { table.old.has_room ≡ true }
    ensures steps { left (given_of table.old.table queue.old) events.now ≡ option_to_list result ++ left (given_of table.new.table queue.new) events.now }
    ensures none { IfNone result (left (given_of table.old.table queue.old) events.now ≡ []) }
{
    while !queue.is_finished {
        let step = take_turn(table, queue, events);
        if step.is_some() {
            return step;
        }
    }
    None
}
