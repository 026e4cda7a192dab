//! A history whose closed intervals are a plain list, which each question searches from its start.
use history_core::Answer;
use kernel_provider::{Provider, Step};
use std::alloc::Global;
use trace_types::{Merged, OutOfMemory, Path, TIME_END, Value};

// A value that the path of a number had from one instant to another, both included, in ns.
#[derive(Clone, Copy, Debug, PartialEq, Eq)]
struct Held {
    number: usize,
    start: u64,
    end: u64,
    value: Value,
}

// A value that the path of a number has since an instant, in ns.
#[derive(Clone, Copy, Debug, PartialEq, Eq)]
struct Since {
    number: usize,
    start: u64,
    value: Value,
}

/// The paths by number, the intervals that were closed, in the order in which that was, those that are still open, and the
/// built end, in ns.
#[derive(Debug, Drop)]
pub struct Listed {
    paths: Vec<Path>,
    closed: Vec<Held>,
    opened: Vec<Since>,
    built: u64,
}

impl Listed {
    /// What a merge makes.
    pub fn of(alloc: Global, events: &[Merged]) -> Result<Listed, OutOfMemory> {
        let mut provider = Provider::new(alloc);
        let mut listed = Listed {
            paths: Vec::new(alloc),
            closed: Vec::new(alloc),
            opened: Vec::new(alloc),
            built: 0,
        };
        while let Some(step) = provider.next_step(events)? {
            listed.take(&step)?;
        }
        Ok(listed)
    }

    // Takes a step.
    fn take(&mut self, step: &Step) -> Result<(), OutOfMemory> {
        match *step {
            Step::Advance(t) => self.built = t,
            Step::Add(path) => self.paths.push(path)?,
            Step::Change { t, number, value } => {
                change(&mut self.closed, &mut self.opened, t, number, value)?;
            }
            Step::Finish => self.built = TIME_END,
        }
        Ok(())
    }

    /// The value of a path at an instant, in ns.
    pub fn answer(&self, t: u64, path: Path) -> Answer {
        if t >= self.built {
            return Answer::NotYet { built: self.built };
        }
        let Some(number) = place_of(&self.paths, path) else {
            return Answer::State(Value::Null);
        };
        Answer::State(value_at(&self.closed, &self.opened, number, t))
    }

    /// How many intervals were closed.
    pub fn len(&self) -> usize {
        self.closed.len()
    }
}

// Closes the open interval of a number, unless it is empty or has no value, and opens another.
fn change(
    closed: &mut Vec<Held>,
    opened: &mut Vec<Since>,
    t: u64,
    number: usize,
    value: Value,
) -> Result<(), OutOfMemory> {
    let since = Since {
        number,
        start: t,
        value,
    };
    for place in 0..opened.len() {
        let before = opened[place];
        if before.number == number {
            opened[place] = since;
            return close(closed, &before, t);
        }
    }
    opened.push(since)?;
    Ok(())
}

// Appends the interval that a change at an instant closes.
fn close(closed: &mut Vec<Held>, before: &Since, t: u64) -> Result<(), OutOfMemory> {
    if before.start < t && before.value != Value::Null {
        closed.push(Held {
            number: before.number,
            start: before.start,
            end: t - 1,
            value: before.value,
        })?;
    }
    Ok(())
}

// The number of a path.
fn place_of(paths: &[Path], path: Path) -> Option<usize> {
    for number in 0..paths.len() {
        if paths[number] == path {
            return Some(number);
        }
    }
    None
}

// The value of a number at an instant.
fn value_at(closed: &[Held], opened: &[Since], number: usize, t: u64) -> Value {
    for since in opened {
        if since.number == number && since.start <= t {
            return since.value;
        }
    }
    for held in closed {
        if held.number == number && held.start <= t && t <= held.end {
            return held.value;
        }
    }
    Value::Null
}
