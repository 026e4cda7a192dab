//! The labels of an enumeration, among which those that hold a value are found.
ghost use Rattle.std.specs.Prelude.{◌≡◌, ◌≤◌, None, int_lt, length};
ghost use Rattle.type_table.specs.Labels.{EndBelow, Rise, begins_past, holding, rise_past};

use crate::meta::LabelMeta;
use sqlite_items::Items;
use std::marker::Model;

/// The labels of an enumeration, in the order in which they were declared. Contracts see them as a list.
#[derive(Debug, Drop)]
pub struct Labels {
    labels: Items<LabelMeta>,
    // Whether each label ends before the next one begins, and begins at most where it ends.
    rise: bool,
}

impl Model for Labels {
    ghost use Rattle.std.specs.Prelude.{◌≡◌, List, true};
    ghost use Rattle.type_table.specs.Labels.{Rise};
    ghost use Rattle.type_table.specs.declared.meta.LabelMeta.{LabelMeta};

    ghost Value = { List LabelMeta };

    ghost view = { λ s. s.labels };

    ghost invariant = { λ s. s.rise ≡ true → Rise s.labels };
}

impl Labels {
    /// The labels of a list. One pass finds out whether they rise.
    pub fn from_items(items: Items<LabelMeta>) -> Labels
        ensures { result ≡ items }
    {
        let rise = do_rise(items.as_slice());
        Labels {
            labels: items,
            rise,
        }
    }

    /// All labels.
    pub fn as_slice(&self) -> &[LabelMeta]
        ensures { result.now ≡ self.now }
    {
        self.labels.as_slice()
    }

    /// The labels among which all are that hold a value: one at most, found by halving, where the labels rise, and else all.
    pub fn around(&self, value: i128) -> &[LabelMeta]
        ensures { holding value result.now ≡ holding value self.now }
    {
        let labels = self.labels.as_slice();
        if self.rise {
            nearest(labels, value)
        } else {
            labels
        }
    }
}

// Whether labels rise.
fn do_rise(labels: &[LabelMeta]) -> bool
    ensures { result ≡ rise_past None labels.now }
{
    let mut end = None;
    for label in labels {
        if !(begins_past(end, *label) && label.low <= label.high) {
            return false;
        }
        end = Some(label.high);
    }
    true
}

// Whether a label begins past a number, if there is one.
fn begins_past(end: Option<i128>, label: LabelMeta) -> bool
    ensures { result ≡ begins_past end label }
{
    match end {
        Some(end) => end < label.low,
        None => true,
    }
}

// The one label that may hold a value: the first that doesn't end below it.
fn nearest(labels: &[LabelMeta], value: i128) -> &[LabelMeta]
    requires { Rise labels.now }
    ensures all { holding value result.now ≡ holding value labels.now }
    ensures one { length result.now ≤ 1 }
{
    let passed = count_below(labels, value);
    if passed < labels.len() {
        &labels[passed..passed + 1]
    } else {
        &[]
    }
}

// How many labels, the first ones, end below a value.
fn count_below(labels: &[LabelMeta], value: i128) -> usize
    requires { Rise labels.now }
    ensures bound { result ≤ length labels.now }
    ensures below { EndBelow value labels.now result }
{
    labels.partition_point(
        |label: &LabelMeta| -> bool
            ensures { result ≡ int_lt label.now.high value }
        { label.high < value },
    )
}
