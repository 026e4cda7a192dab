//! The records of one node.
ghost use Rattle.std.specs.Prelude.{◌≡◌, ◌<◌, ◌≤◌, nat_lt, ◌++◌, ◌∷◌, [], length, find};
ghost use Rattle.history_nodes.specs.Intervals.{is_of};

use crate::interval::Interval;
use arrayvec::ArrayVec;
use std::marker::Model;

/// How many records a node has at most.
pub const MAX_RECORDS: usize = 95;

/// At most 95 intervals, in the order in which they came. Contracts see the list of them.
#[derive(Debug, Drop)]
pub struct Records {
    items: ArrayVec<Interval, MAX_RECORDS>,
}

impl Model for Records {
    ghost use Rattle.std.specs.Prelude.{List, length, ◌≤◌};
    ghost use Rattle.history_nodes.specs.declared.interval.Interval.{Interval};
    ghost use Rattle.history_nodes.specs.declared.records.TheConstants.{MAX_RECORDS};

    ghost Value = { List Interval };

    ghost view = { λ r. r.items.items };

    ghost invariant = { λ r. length r.items.items ≤ MAX_RECORDS };
}

impl Records {
    /// No record.
    pub fn new() -> Records
        ensures { result ≡ [] }
    {
        Records {
            items: ArrayVec::new(),
        }
    }

    /// Whether there is room for one more.
    pub fn has_room(&self) -> bool
        ensures { result ≡ nat_lt (length self.now) MAX_RECORDS }
    {
        self.items.len() < MAX_RECORDS
    }

    /// Appends a record. There is room.
    pub fn push(&mut self, interval: Interval)
        requires { length self.old < MAX_RECORDS }
        ensures { self.new ≡ self.old ++ interval ∷ [] }
    {
        let _value = interval.value;
        self.items.push(interval);
    }

    /// The records as a slice.
    pub fn as_slice(&self) -> &[Interval]
        ensures records { result.now ≡ self.now }
        ensures few { length self.now ≤ MAX_RECORDS }
    {
        self.items.as_slice()
    }

    /// The first record of this number that holds the instant.
    pub fn find(&self, number: usize, t: u64) -> Option<Interval>
        ensures { result ≡ find (is_of number t) self.now }
    {
        self.items
            .as_slice()
            .iter()
            .copied()
            .find(|interval| interval.is_of(number, t))
    }
}
