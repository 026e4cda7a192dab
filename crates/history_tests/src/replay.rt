//! A replay that can be cut after any number of steps: plain lists of changes, which each question searches.
use history_core::{Answer, Question};
use kernel_provider::{Provider, Step};
use std::alloc::Global;
use trace_types::{Merged, OutOfMemory, Path, TIME_END, Value};

// By a step, counted from 0, an attribute had another value from t on.
#[derive(Clone, Copy, Debug, PartialEq, Eq)]
struct Changed {
    step: u64,
    t: u64,
    value: Value,
}

// By a step, counted from 0, the replay was built up to a time.
#[derive(Clone, Copy, Debug, PartialEq, Eq)]
struct Built {
    step: u64,
    t: u64,
}

/// The built ends, the paths by number, and the changes of each, all in the order of the steps.
#[derive(Debug, Drop)]
pub struct Replay {
    built: Vec<Built>,
    paths: Vec<Path>,
    changes: Vec<Vec<Changed>>,
    steps: u64,
}

impl Replay {
    /// All steps of a merge.
    pub fn of(alloc: Global, events: &[Merged]) -> Result<Replay, OutOfMemory> {
        let mut provider = Provider::new(alloc);
        let mut replay = Replay {
            built: Vec::new(alloc),
            paths: Vec::new(alloc),
            changes: Vec::new(alloc),
            steps: 0,
        };
        while let Some(step) = provider.next_step(events)? {
            replay.take(alloc, &step)?;
            replay.steps = replay.steps.saturating_add(1);
        }
        Ok(replay)
    }

    // Takes a step.
    fn take(&mut self, alloc: Global, taken: &Step) -> Result<(), OutOfMemory> {
        let step = self.steps;
        match *taken {
            Step::Advance(t) => self.built.push(Built { step, t })?,
            Step::Finish => self.built.push(Built { step, t: TIME_END })?,
            Step::Add(path) => {
                self.paths.push(path)?;
                self.changes.push(Vec::new(alloc))?;
            }
            Step::Change { t, number, value } => {
                if let Some(changes) = self.changes.get_mut(number) {
                    changes.push(Changed { step, t, value })?;
                }
            }
        }
        Ok(())
    }

    /// How many steps there are.
    pub fn steps(&self) -> u64 {
        self.steps
    }

    /// The answer after so many steps.
    pub fn answer(&self, count: u64, question: &Question) -> Answer {
        let built = self.built_after(count);
        if question.t >= built {
            return Answer::NotYet { built };
        }
        Answer::State(self.value_after(count, question))
    }

    // The built end after so many steps.
    fn built_after(&self, count: u64) -> u64 {
        let before = self
            .built
            .partition_point(|built: &Built| -> bool { built.step < count });
        match before.checked_sub(1) {
            Some(last) => self.built.get(last).map_or(0, |built| built.t),
            None => 0,
        }
    }

    // The value of a path at an instant after so many steps.
    fn value_after(&self, count: u64, question: &Question) -> Value {
        for number in 0..self.paths.len() {
            if self.paths[number] == question.path {
                return match self.changes.get(number) {
                    Some(changes) => last_value(changes, count, question.t),
                    None => Value::Null,
                };
            }
        }
        Value::Null
    }
}

// The last change among the first so many steps that came at an instant or before.
fn last_value(changes: &[Changed], count: u64, t: u64) -> Value {
    let before = changes.partition_point(|it: &Changed| -> bool { it.step < count && it.t <= t });
    match before.checked_sub(1) {
        Some(last) => changes.get(last).map_or(Value::Null, |it| it.value),
        None => Value::Null,
    }
}
