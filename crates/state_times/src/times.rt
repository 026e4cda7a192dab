//! The times of all attributes, in one pass over the steps of a merge.
ghost use Rattle.std.specs.Prelude.{◌≡◌, ◌-◌, ◌<◌, ◌++◌, [], Some, IfOk, OnOk, length, slice_get};
ghost use Rattle.kernel_provider.specs.Steps.{steps_of};
ghost use Rattle.kernel_provider.specs.Given.{left};
ghost use Rattle.trace_types.specs.Order.{RiseFrom};
ghost use Rattle.state_times.specs.Rows.{CanTakeAll, row_among, rows_after};
ghost use Rattle.state_times.specs.StandsFor.{StandsFor, times_at};
ghost use Rattle.state_times.specs.Times.{added};

use crate::row::{Row, change, changed, fresh};
use crate::window::{first_key, last_key};
use attribute_tree::Attributes;
use kernel_provider::{Provider, Step};
use std::alloc::Global;
use std::marker::Model;
use trace_types::{Merged, OutOfMemory, Path, Value};

/// An attribute's value after all events, and how long it had none, 0 or 1 in the window, in ns.
#[derive(Clone, Copy, Debug)]
pub struct PathTimes {
    pub last: Value,
    pub unset: u64,
    pub zero: u64,
    pub one: u64,
}

/// The times of all attributes of a merge. Contracts see the paths in the order in which they were
/// added, a row of each, and the first and the last key.
#[derive(Debug, Drop)]
pub struct StateTimes {
    attributes: Attributes,
    rows: Vec<Row>,
    first: u64,
    last: u64,
}

impl Model for StateTimes {
    ghost use Rattle.state_times.specs.Rows.{IsSound, Times};

    ghost Value = { Times };

    ghost view = { λ t. record { paths = t.attributes.paths; rows = t.rows.items; first = t.first; last = t.last } };

    ghost invariant = { λ t. IsSound t.attributes.paths t.rows.items t.first t.last };
}

impl StateTimes {
    /// The times of any attribute, also of one that never had a value.
    pub fn of(&self, path: Path) -> PathTimes
        ensures { result ≡ times_at self.now path }
    {
        let row = row_of(&self.attributes, &self.rows, self.first, path);
        let ended = changed(&row, self.last, row.value);
        PathTimes {
            last: ended.value,
            unset: ended.unset,
            zero: ended.zero,
            one: ended.one,
        }
    }

    /// How many attributes had a value at some time.
    pub fn len(&self) -> usize
        ensures { result ≡ length self.now.paths }
    {
        self.attributes.len()
    }

    /// The attribute of a number, which counts those that had a value before.
    pub fn path_of(&self, number: usize) -> Path
        requires { number < length self.now.paths }
        ensures { slice_get self.now.paths number ≡ Some result }
    {
        self.attributes.path_of(number)
    }

    /// How long the window is, in ns.
    pub fn window(&self) -> u64
        ensures { result ≡ self.now.last - self.now.first }
    {
        self.last - self.first
    }
}

// The row of a path.
fn row_of(attributes: &Attributes, rows: &[Row], first: u64, path: Path) -> Row
    requires { length rows.now ≡ length attributes.now.paths }
    ensures { result ≡ row_among attributes.now.paths rows.now first path }
{
    match attributes.find(path) {
        Some(number) => rows[number],
        None => fresh(first),
    }
}

/// The times of all attributes of a merge. The only error is lack of memory.
pub fn times_of(alloc: Global, events: &[Merged]) -> Result<StateTimes, OutOfMemory>
    requires { RiseFrom 0 events.now }
    ensures { IfOk result (λ times. StandsFor events.now times) }
{
    let first = first_key(events);
    let last = last_key(events);
    let mut attributes = Attributes::new(alloc);
    let rows = rows_of(alloc, events, first, &mut attributes)?;
    Ok(StateTimes {
        attributes,
        rows,
        first,
        last,
    })
}

// The rows of all paths that the steps of a merge add, which come into the paths.
fn rows_of(
    alloc: Global,
    events: &[Merged],
    first: u64,
    attributes: &mut Attributes,
) -> Result<Vec<Row>, OutOfMemory>
    requires { CanTakeAll first attributes.old.paths [] (steps_of events.now) }
    ensures paths { OnOk result (attributes.new.paths ≡ attributes.old.paths ++ added (steps_of events.now)) }
    ensures rows { IfOk result (λ rows. rows.items ≡ rows_after first [] (steps_of events.now)) }
{
    let mut rows = Vec::new(alloc);
    let mut provider = Provider::new(alloc);
    take_all(&mut provider, events, first, attributes, &mut rows)?;
    Ok(rows)
}

// Takes the steps that a provider has left into the paths and their rows.
fn take_all(
    provider: &mut Provider,
    events: &[Merged],
    first: u64,
    attributes: &mut Attributes,
    rows: &mut Vec<Row>,
) -> Result<(), OutOfMemory>
    requires { CanTakeAll first attributes.old.paths rows.old.items (left provider.old events.now) }
    ensures paths { OnOk result (attributes.new.paths ≡ attributes.old.paths ++ added (left provider.old events.now)) }
    ensures rows { OnOk result (rows.new.items ≡ rows_after first rows.old.items (left provider.old events.now)) }
{
    while let Some(step) = provider.next_step(events)? {
        match step {
            Step::Add(path) => {
                attributes.add(path)?;
                rows.push(fresh(first))?;
            }
            Step::Change { t, number, value } => change(rows, number, t, value),
            _ => {}
        }
    }
    Ok(())
}
