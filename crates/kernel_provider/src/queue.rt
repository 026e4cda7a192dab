//! What waits for its steps, and the next step of it.
ghost use Rattle.std.specs.Prelude.{◌≡◌, ◌<◌, ◌≤◌, ◌+◌, ◌++◌, ◌-◌, true, false, length, IfNone, Some, slice_get, option_to_list};
ghost use Rattle.arrayvec.specs.ArrayVec.{array_vec_len};
ghost use Rattle.kernel_provider.specs.Steps.{is_held, number_of, value_in};
ghost use Rattle.kernel_provider.specs.Given.{given_of, left, work, GivesStep};

use crate::rules::{Assignment, Assignments, assign};
use crate::step::Step;
use crate::table::{Found, Table};
use trace_types::{Merged, Value};

/// The assignments of the event that was begun last, and how far the steps have come.
#[derive(Debug, Drop)]
pub struct Queue {
    /// The event's assignments, and how many of them are done.
    pub assignments: Assignments,
    pub next: usize,
    /// The event's key, and the built end, in ns.
    pub key: u64,
    pub built: u64,
    /// How many events were begun.
    pub place: usize,
    pub is_finished: bool,
}

/// Takes one turn: it gives a step, or gets nearer to one and leaves the table as it is.
pub fn take_turn(table: &mut Table, queue: &mut Queue, events: &[Merged]) -> Option<Step>
    requires running { queue.old.is_finished ≡ false }
    requires room { table.old.has_room ≡ true }
    ensures steps { left (given_of table.old.table queue.old) events.now ≡ option_to_list result ++ left (given_of table.new.table queue.new) events.now }
    ensures idle { IfNone result (table.new ≡ table.old) }
    ensures nearer { IfNone result (work queue.new events.now < work queue.old events.now) }
{
    match queue.assignments.get(queue.next) {
        Some(assignment) => {
            let assignment = *assignment;
            assign_next(table, queue, &assignment)
        }
        None => begin_next(table, queue, events),
    }
}

// The turn of an assignment that waits.
fn assign_next(table: &mut Table, queue: &mut Queue, assignment: &Assignment) -> Option<Step>
    requires waiting { slice_get queue.old.assignments.items queue.old.next ≡ Some assignment.now }
    requires below { queue.old.next < 8 }
    requires room { table.old.has_room ≡ true }
    ensures steps { GivesStep table.old.table queue.old table.new.table queue.new result }
    ensures idle { IfNone result (table.new ≡ table.old) }
    ensures nearer { IfNone result (queue.new ≡ record queue.old { next = queue.old.next + 1 }) }
{
    match table.find(&assignment.path) {
        Some(found) => change_next(table, queue, assignment, &found),
        None if assignment.value == Value::Null => {
            queue.next += 1;
            None
        }
        None => {
            table.add(&assignment.path);
            Some(Step::Add(assignment.path))
        }
    }
}

// The turn of an assignment to a path that was added.
fn change_next(
    table: &mut Table,
    queue: &mut Queue,
    assignment: &Assignment,
    found: &Found,
) -> Option<Step>
    requires waiting { slice_get queue.old.assignments.items queue.old.next ≡ Some assignment.now }
    requires below { queue.old.next < 8 }
    requires held { is_held table.old.table assignment.now.path ≡ true }
    requires number { found.now.number ≡ number_of table.old.table assignment.now.path }
    requires value { found.now.value ≡ value_in table.old.table assignment.now.path }
    ensures steps { GivesStep table.old.table queue.old table.new.table queue.new result }
    ensures idle { IfNone result (table.new ≡ table.old) }
    ensures nearer { IfNone result (queue.new ≡ record queue.old { next = queue.old.next + 1 }) }
{
    queue.next += 1;
    if found.value == assignment.value {
        return None;
    }
    table.set(&assignment.path, found.number, assignment.value);
    Some(Step::Change {
        t: queue.key,
        number: found.number,
        value: assignment.value,
    })
}

// The turn where no assignment waits: the next event is begun, or none is left.
fn begin_next(table: &Table, queue: &mut Queue, events: &[Merged]) -> Option<Step>
    requires waiting { array_vec_len queue.old.assignments ≤ queue.old.next }
    requires running { queue.old.is_finished ≡ false }
    ensures steps { left (given_of table.now.table queue.old) events.now ≡ option_to_list result ++ left (given_of table.now.table queue.new) events.now }
    ensures nearer { IfNone result (work queue.new events.now < work queue.old events.now) }
{
    let Some(merged) = events.get(queue.place) else {
        queue.is_finished = true;
        return Some(Step::Finish);
    };
    assign(table, &merged.event, &mut queue.assignments);
    queue.next = 0;
    queue.place += 1;
    queue.key = merged.key;
    if queue.built < merged.key {
        queue.built = merged.key;
        Some(Step::Advance(merged.key))
    } else {
        None
    }
}
