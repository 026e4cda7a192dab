//! What a change closes and opens, and the values of closed intervals.
ghost use Rattle.std.specs.Prelude.{◌≡◌, ◌<◌, ℕ, Some, length, slice_set, OnOk, OnErr};
ghost use Rattle.trace_types.specs.declared.limits.TheConstants.{TIME_END};
ghost use Rattle.history_tree.specs.Records.{content_of};
ghost use Rattle.history_core.specs.Intervals.{closes, closing, open_at, EndBefore, IsClosing, IsHeldValue, IsTreeAfter};

use crate::opened::OpenIntervals;
use history_nodes::{Interval, Reads};
use history_tree::Tree;
use trace_types::{OutOfMemory, Value};

/// A value that an attribute has since an instant, in ns.
#[derive(Clone, Copy, Debug, PartialEq, Eq)]
pub struct Since {
    pub start: u64,
    pub value: Value,
}

impl Since {
    // Whether a change at t closes it: unless it is empty or has no value.
    fn closes(&self, t: u64) -> bool
        ensures { result ≡ closes t self.now }
    {
        self.start < t && self.value != Value::Null
    }

    // The interval of a number that is closed by a change at t.
    fn until(&self, number: usize, t: u64) -> Interval
        requires early { self.now.start < t }
        requires within { t < TIME_END }
        ensures { IsClosing number t self.now result }
    {
        Interval {
            number,
            start: self.start,
            end: t - 1,
            value: self.value,
        }
    }
}

/// Gives a number another value from t on, and closes the interval of the value before, unless it
/// is empty or has no value. When memory runs out, nothing has changed.
pub fn change(
    tree: &mut Tree,
    opened: &mut OpenIntervals,
    number: usize,
    since: &Since,
) -> Result<(), OutOfMemory>
    requires number { number < length opened.old.intervals }
    requires within { since.now.start < TIME_END }
    requires older { EndBefore (content_of tree.old.nodes) number (open_at opened.old.intervals number) }
    ensures closed { OnOk result (content_of tree.new.nodes ≡ closing (content_of tree.old.nodes) number since.now.start (open_at opened.old.intervals number)) }
    ensures placed { OnOk result (IsTreeAfter tree.old number since.now.start (open_at opened.old.intervals number) tree.new) }
    ensures opened { OnOk result (opened.new.intervals ≡ slice_set opened.old.intervals number (Some since.now)) }
    ensures err { OnErr result ((tree.new ≡ tree.old) × (opened.new ≡ opened.old)) }
{
    let before = opened.get(number);
    close(tree, number, since.start, &before)?;
    opened.set(number, since);
    Ok(())
}

// Stores the interval that a change at t closes, if it closes one.
fn close(tree: &mut Tree, number: usize, t: u64, before: &Option<Since>) -> Result<(), OutOfMemory>
    requires within { t < TIME_END }
    requires older { EndBefore (content_of tree.old.nodes) number before.now }
    ensures closed { OnOk result (content_of tree.new.nodes ≡ closing (content_of tree.old.nodes) number t before.now) }
    ensures placed { OnOk result (IsTreeAfter tree.old number t before.now tree.new) }
    ensures err { OnErr result (tree.new ≡ tree.old) }
{
    let Some(since) = before else {
        return Ok(());
    };
    if !since.closes(t) {
        return Ok(());
    }
    tree.insert(since.until(number, t))
}

/// The value of a number at an instant, among closed intervals.
pub fn value_held(tree: &Tree, number: usize, t: u64) -> Value
    requires { t < TIME_END }
    ensures { IsHeldValue (content_of tree.now.nodes) number t result }
{
    let _levels = tree.levels();
    match tree.find(number, t, &mut Reads::new()) {
        Some(interval) => interval.value,
        None => Value::Null,
    }
}
