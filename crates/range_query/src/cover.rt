//! Stretches that are made one after the other.
ghost use Rattle.std.specs.Prelude.{◌≡◌, [], OnOk};
ghost use Rattle.range_query.specs.Cover.{begun, ended, extended, filled, put_on};

use crate::stretch::Stretch;
use history_core::Since;
use history_nodes::Interval;
use std::alloc::Global;
use std::marker::Model;
use trace_types::{OutOfMemory, Value};

/// The stretches from an instant on, and the instant that they reach, in ns. Contracts see both.
#[derive(Debug, Drop)]
pub struct Cover {
    pub stretches: Vec<Stretch>,
    reached: u64,
}

impl Model for Cover {
    ghost use Rattle.range_query.specs.Cover.{Covered};

    ghost Value = { Covered };

    ghost view = { λ c. record { stretches = c.stretches.items; reached = c.reached } };
}

impl Cover {
    /// No stretch yet. It takes no memory.
    pub fn new(alloc: Global, from: u64) -> Cover
        ensures { result ≡ begun from }
    {
        Cover {
            stretches: Vec::new(alloc),
            reached: from,
        }
    }

    // Goes on to an instant with a value, unless it is there already.
    fn extend(&mut self, to: u64, value: Value) -> Result<(), OutOfMemory>
        ensures { OnOk result (self.new ≡ extended to value self.old) }
    {
        if to <= self.reached {
            return Ok(());
        }
        let stretch = Stretch {
            from: self.reached,
            to,
            value,
        };
        put_on(&mut self.stretches, stretch)?;
        self.reached = to;
        Ok(())
    }

    /// Goes on over closed intervals, in order, up to an end. There is no value between them.
    pub fn fill(&mut self, intervals: &[Interval], end: u64) -> Result<(), OutOfMemory>
        ensures { OnOk result (self.new ≡ filled end intervals.now self.old) }
    {
        for interval in intervals {
            self.extend(interval.start, Value::Null)?;
            self.extend(end.min(interval.end + 1), interval.value)?;
        }
        Ok(())
    }

    /// Goes on to an end: with no value, or from an instant on with one.
    pub fn end(&mut self, since: &Option<Since>, end: u64) -> Result<(), OutOfMemory>
        ensures { OnOk result (self.new ≡ ended end since.now self.old) }
    {
        let Some(since) = since else {
            return self.extend(end, Value::Null);
        };
        self.extend(end.min(since.start), Value::Null)?;
        self.extend(end, since.value)
    }
}

// Adds a stretch where the others end: the last of them goes on, if it has the same value.
fn put_on(stretches: &mut Vec<Stretch>, stretch: Stretch) -> Result<(), OutOfMemory>
    ensures { OnOk result (stretches.new.items ≡ put_on stretch stretches.old.items) }
{
    let count = stretches.len();
    if count > 0 && stretches[count - 1].value == stretch.value {
        stretches[count - 1].to = stretch.to;
        return Ok(());
    }
    stretches.push(stretch)?;
    Ok(())
}
