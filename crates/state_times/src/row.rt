//! One attribute's value, since when it has it, and how long it had which.
ghost use Rattle.std.specs.Prelude.{◌≡◌, ◌+◌, ◌^◌, ◌<◌, ◌++◌, ◌∷◌, [], if◌then◌else◌, OnOk};
ghost use Rattle.std.specs.List.{AllByRecursion};
ghost use Rattle.attribute_tree.specs.Numbered.{IsNew};
ghost use Rattle.state_times.specs.Rows.{IsWithin, changed, changed_at, fresh};

use attribute_tree::Attributes;
use trace_types::{OutOfMemory, Path, Value, thread_status};

/// A value, the time since when it is there, and how long there was none, 0 or 1 before that time, all in ns.
#[derive(Clone, Copy, Debug)]
pub struct Row {
    pub value: Value,
    pub since: u64,
    pub unset: u64,
    pub zero: u64,
    pub one: u64,
}

/// The row of an attribute that never had a value.
pub fn fresh(first: u64) -> Row
    ensures { result ≡ fresh first }
{
    Row {
        value: Value::Null,
        since: first,
        unset: 0,
        zero: 0,
        one: 0,
    }
}

/// The row where the value is another from t on.
pub fn changed(row: &Row, t: u64, value: Value) -> Row
    requires { IsWithin t row.now }
    ensures { result ≡ changed row.now t value }
{
    let long = t - row.since;
    Row {
        value,
        since: t,
        unset: longer(row.unset, row.value == Value::Null, long),
        zero: longer(row.zero, row.value == Value::Int(0), long),
        one: longer(
            row.one,
            row.value == Value::Int(thread_status::RUNNING),
            long,
        ),
    }
}

// A sum, and a stretch more where it counts.
fn longer(sum: u64, is: bool, long: u64) -> u64
    requires { sum + long < 2 ^ 64 }
    ensures { result ≡ sum + (if is then long else 0) }
{
    if is { sum + long } else { sum }
}

/// Gives the row of a number another value from t on.
pub fn change(rows: &mut Vec<Row>, number: usize, t: u64, value: Value)
    requires { AllByRecursion (IsWithin t) rows.old.items }
    ensures { rows.new.items ≡ changed_at rows.old.items number t value }
{
    if let Some(row) = rows.get_mut(number) {
        *row = changed(row, t, value);
    }
}
