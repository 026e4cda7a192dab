//! A history over the tree answers as a plain list does.
ghost use Rattle.std.specs.Prelude.{◌<◌};

use crate::drawn::{merge, question};
use crate::listed::Listed;
use history_core::{Answer, History, history_of};
use std::alloc::Global;
use std::test::Fail;
use trace_types::{OutOfMemory, Value};

// How many questions were answered alike, and how many of them by a value.
#[derive(Clone, Copy, Debug, PartialEq, Eq)]
struct Tally {
    alike: u32,
    values: u32,
}

// Whether it is a value that an attribute had.
fn is_value(answer: &Answer) -> bool {
    match answer {
        Answer::State(value) => *value != Value::Null,
        Answer::NotYet { .. } => false,
    }
}

// Puts so many questions about the instants before a limit to both.
fn asked(history: &History, listed: &Listed, seed: &mut u64, questions: u32, limit: u32) -> Tally
    requires { 0 < limit }
{
    let mut tally = Tally {
        alike: 0,
        values: 0,
    };
    for _ in 0..questions {
        let question = question(seed, limit);
        let answer = history.answer(question.t, question.path);
        if answer == listed.answer(question.t, question.path) {
            tally.alike = tally.alike.saturating_add(1);
            tally.values = tally.values.saturating_add(u32::from(is_value(&answer)));
        }
    }
    tally
}

// Questions about a merge of so many events, the number of closed intervals, and the tree's levels.
fn tried(alloc: Global, events: u32, questions: u32) -> Result<(Tally, usize, usize), OutOfMemory>
    requires { (0 < events) × (events < 100000) }
{
    let mut seed = 20240229;
    let events_made = merge(alloc, &mut seed, events)?;
    let history = history_of(alloc, &events_made)?;
    let listed = Listed::of(alloc, &events_made)?;
    let tally = asked(&history, &listed, &mut seed, questions, 2 * events);
    Ok((tally, listed.len(), history.tree().levels()))
}

#[test]
fn ten_thousand_questions(rt: HostRuntime) -> Result<(), Fail> {
    let (tally, closed, levels) = tried(rt.alloc(), 4_000, 10_000)?;
    assert_eq!(rt; tally.alike, 10_000);
    assert!(rt; tally.values > 1_000);
    assert!(rt; closed > 1_520);
    assert!(rt; levels > 1);
    Ok(())
}
