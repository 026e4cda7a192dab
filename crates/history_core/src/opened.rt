//! The open intervals of all numbers, in 32 bytes each.
ghost use Rattle.std.specs.Prelude.{◌≡◌, ◌<◌, ◌++◌, ◌∷◌, [], true, Some, None, length, slice_set, IsOk, OnOk, OnErr};
ghost use Rattle.trace_types.specs.declared.limits.TheConstants.{TIME_END};
ghost use Rattle.history_core.specs.Intervals.{open_at};

use crate::closed::Since;
use std::alloc::Global;
use std::marker::Model;
use trace_types::{OutOfMemory, Value};

// A start that no interval has, since it lies past the end of all times: there is no value yet.
const NO_START: u64 = u64::MAX;

/// The open interval of each number, if it has one. An option of an interval would take 8 bytes
/// more for its tag. Contracts see the list of open intervals, and whether there is room for one
/// more.
#[derive(Debug, Drop)]
pub struct OpenIntervals {
    since: Vec<Since>,
}

impl Model for OpenIntervals {
    ghost use Rattle.std.specs.Prelude.{nat_lt, vec_len, vec_capacity};
    ghost use Rattle.history_core.specs.Opened.{Opened, opened_code, intervals_of};

    ghost Value = { Opened };

    ghost coded = { opened_code };

    ghost view = { λ o. record { intervals = intervals_of o.since.items; has_room = nat_lt (vec_len o.since) (vec_capacity o.since) } };
}

impl OpenIntervals {
    /// Of no number. It takes no memory.
    pub fn new(alloc: Global) -> OpenIntervals
        ensures { result.intervals ≡ [] }
    {
        OpenIntervals {
            since: Vec::new(alloc),
        }
    }

    /// Makes room for one more number. When memory runs out, nothing has changed.
    pub fn reserve(&mut self) -> Result<(), OutOfMemory>
        ensures same { self.new.intervals ≡ self.old.intervals }
        ensures room { OnOk result (self.new.has_room ≡ true) }
        ensures succeeds { self.old.has_room ≡ true → IsOk result }
        ensures err { OnErr result (self.new ≡ self.old) }
    {
        self.since.reserve(1)?;
        Ok(())
    }

    /// Adds a number that has no value yet. There is room.
    #[tactic(auto, using(crate::proofs::Untagged::kept_none))]
    pub fn push_none(&mut self)
        requires room { self.old.has_room ≡ true }
        ensures { self.new.intervals ≡ self.old.intervals ++ None ∷ [] }
    {
        self.since.push_reserved(Since {
            start: NO_START,
            value: Value::Null,
        });
    }

    /// The open interval of a number, if it has one.
    #[tactic(auto, using(crate::proofs::Untagged::kept_at, crate::proofs::Untagged::kept_length))]
    pub fn get(&self, number: usize) -> Option<Since>
        requires number { number < length self.now.intervals }
        ensures { result ≡ open_at self.now.intervals number }
    {
        let since = &self.since[number];
        if since.start == NO_START {
            None
        } else {
            Some(*since)
        }
    }

    /// Opens another interval of a number. It takes no memory.
    #[tactic(auto, using(crate::proofs::Untagged::kept_set, crate::proofs::Untagged::kept_length))]
    pub fn set(&mut self, number: usize, since: &Since)
        requires number { number < length self.old.intervals }
        requires within { since.now.start < TIME_END }
        ensures intervals { self.new.intervals ≡ slice_set self.old.intervals number (Some since.now) }
        ensures room { self.new.has_room ≡ self.old.has_room }
    {
        self.since[number] = *since;
    }

    /// How many numbers there are.
    #[tactic(auto, using(crate::proofs::Untagged::kept_length))]
    pub fn len(&self) -> usize
        ensures { result ≡ length self.now.intervals }
    {
        self.since.len()
    }
}

#[cfg(test)]
mod tests {
    use super::*;
    use std::test::Fail;

    #[test]
    fn a_number_is_without_a_value_until_it_is_set(rt: HostRuntime) -> Result<(), Fail> {
        let mut opened = OpenIntervals::new(rt.alloc());
        opened.reserve()?;
        opened.push_none();
        opened.reserve()?;
        opened.push_none();
        let since = Since {
            start: 5,
            value: Value::Int(7),
        };
        opened.set(1, &since);
        assert_eq!(rt; opened.len(), 2);
        assert!(rt; opened.get(0).is_none());
        assert!(rt; opened.get(1) == Some(since));
        Ok(())
    }

    // There is nothing of a number beside its start and its value.
    #[test]
    fn open_intervals_are_one_list(rt: HostRuntime) -> Result<(), Fail> {
        let OpenIntervals { since } = OpenIntervals::new(rt.alloc());
        let since: Vec<Since> = since;
        assert!(rt; since.is_empty());
        Ok(())
    }
}
