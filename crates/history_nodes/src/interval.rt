//! Closed intervals of an attribute's values.
ghost use Rattle.std.specs.Prelude.{◌+◌, ◌<◌, ◌≤◌};
ghost use Rattle.trace_types.specs.declared.limits.TheConstants.{TIME_END};

use trace_types::Value;

/// A value that an attribute had from one instant to another, both included, in ns. A further instant before the end of
/// all times follows the last one.
#[derive(Clone, Copy, Debug, PartialEq, Eq)]
pub struct Interval {
    pub number: usize,
    pub start: u64,
    pub end: u64,
    pub value: Value,
    pub ghost ordered: { start ≤ end },
    pub ghost followed: { end + 1 < TIME_END },
}

impl Default for Interval {
    fn default() -> Interval {
        Interval {
            number: 0,
            start: 0,
            end: 0,
            value: Value::Null,
        }
    }
}

impl Interval {
    ghost use Rattle.std.specs.Prelude.{◌≡◌};
    ghost use Rattle.history_nodes.specs.Intervals.{is_of};

    /// Whether it is of this number and holds the instant.
    pub fn is_of(&self, number: usize, t: u64) -> bool
        ensures { result ≡ is_of number t self.now }
    {
        self.number == number && self.start <= t && t <= self.end
    }
}
