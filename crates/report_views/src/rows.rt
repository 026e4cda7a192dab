//! The state at an instant, made from the steps of a merge.
ghost use Rattle.std.specs.Prelude.{◌≡◌, [], IfOk, OnOk};
ghost use Rattle.kernel_provider.specs.Steps.{steps_of};
ghost use Rattle.report_views.specs.Rows.{rows_after, row_step, set_value};

use kernel_provider::{Provider, Step};
use std::alloc::Global;
use trace_types::{Merged, OutOfMemory, Path, Value};

/// An attribute and its value.
#[derive(Clone, Copy, Debug, PartialEq, Eq)]
pub struct Row {
    pub path: Path,
    pub value: Value,
}

/// The paths that a merge adds, in order, with their values at an instant.
pub fn rows_at(alloc: Global, events: &[Merged], at: u64) -> Result<Vec<Row>, OutOfMemory>
    ensures { IfOk result (λ rows. rows.items ≡ rows_after at [] (steps_of events.now)) }
{
    let mut provider = Provider::new(alloc);
    let mut rows = Vec::new(alloc);
    while let Some(step) = provider.next_step(events)? {
        apply(&mut rows, at, &step)?;
    }
    Ok(rows)
}

// Takes a step into the rows, unless it is past the instant.
fn apply(rows: &mut Vec<Row>, at: u64, step: &Step) -> Result<(), OutOfMemory>
    ensures { OnOk result (rows.new.items ≡ row_step at rows.old.items step.now) }
{
    match *step {
        Step::Add(path) => rows.push(Row {
            path,
            value: Value::Null,
        })?,
        Step::Change { t, number, value } if t <= at => set_value(rows, number, value),
        _ => {}
    }
    Ok(())
}

// Gives the row of a number another value.
fn set_value(rows: &mut Vec<Row>, number: usize, value: Value)
    ensures { rows.new.items ≡ set_value rows.old.items number value }
{
    if let Some(row) = rows.get_mut(number) {
        row.value = value;
    }
}
