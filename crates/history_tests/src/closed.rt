//! Which intervals a change closes, in the tree of a history.
ghost use Rattle.std.specs.Prelude.{◌≡◌, ◌<◌};
ghost use Rattle.trace_types.specs.declared.limits.TheConstants.{TIME_END};

use history_core::{History, history_of};
use history_nodes::{Interval, Reads};
use std::alloc::Global;
use std::test::Fail;
use trace_types::{Comm, Event, KernelEvent, Merged, OutOfMemory, TIME_END, Value};

/// A switch on processor 0 of host 0.
pub fn switch(key: u64, prev_tid: u32, prev_state: i64, next_tid: u32) -> Merged
    ensures { result.key ≡ key }
{
    Merged {
        key,
        event: Event {
            time: key,
            host: 0,
            cpu: 0,
            kind: KernelEvent::Switch {
                prev_state,
                prev_tid,
                next_tid,
                prev_prio: 20,
                next_prio: 20,
                prev_comm: Comm::first_of(b"a"),
                next_comm: Comm::first_of(b"a"),
            },
        },
    }
}

/// A soft interrupt on processor 0 of host 0.
pub fn soft_interrupt(key: u64) -> Merged
    ensures { result.key ≡ key }
{
    Merged {
        key,
        event: Event {
            time: key,
            host: 0,
            cpu: 0,
            kind: KernelEvent::SoftIn { vec: 3 },
        },
    }
}

// The stored interval of a number that holds an instant.
fn held(history: &History, number: usize, t: u64) -> Option<Interval>
    requires { t < TIME_END }
{
    let tree = history.tree();
    let _levels = tree.levels();
    tree.find(number, t, &mut Reads::new())
}

// How many of the first 16 numbers have a stored interval that holds an instant.
fn held_at(history: &History, t: u64) -> usize
    requires { t < TIME_END }
{
    let mut count = 0usize;
    for number in 0..16 {
        if held(history, number, t).is_some() {
            count = count.wrapping_add(1);
        }
    }
    count
}

// How many numbers have a stored interval at each of five instants.
fn counts(history: &History) -> [usize; 5] {
    [
        held_at(history, 99),
        held_at(history, 100),
        held_at(history, 150),
        held_at(history, 249),
        held_at(history, 250),
    ]
}

// The intervals of the status of the idle thread, of that of thread 7, and of the processor's thread.
fn three(history: &History) -> [Option<Interval>; 3] {
    [
        held(history, 0, 100),
        held(history, 3, 249),
        held(history, 7, 150),
    ]
}

// The processor goes to thread 7 and back.
fn there_and_back(alloc: Global) -> Result<([usize; 5], [Option<Interval>; 3]), OutOfMemory> {
    let history = history_of(alloc, &[switch(100, 0, 0, 7), switch(250, 7, 1, 0)])?;
    Ok((counts(&history), three(&history)))
}

fn until_249(number: usize, value: i64) -> Option<Interval> {
    Some(Interval {
        number,
        start: 100,
        end: 249,
        value: Value::Int(value),
    })
}

#[test]
fn a_change_closes_the_interval_before(rt: HostRuntime) -> Result<(), Fail> {
    let (counts, intervals) = there_and_back(rt.alloc())?;
    assert!(rt; counts == [0, 3, 3, 3, 0]);
    assert!(rt; intervals == [until_249(0, 2), until_249(3, 1), until_249(7, 7)]);
    Ok(())
}

// Two switches at one instant.
fn at_one_instant(alloc: Global) -> Result<[usize; 5], OutOfMemory> {
    let history = history_of(alloc, &[switch(100, 0, 0, 7), switch(100, 7, 1, 8)])?;
    Ok(counts(&history))
}

#[test]
fn changes_at_one_instant_close_nothing(rt: HostRuntime) -> Result<(), Fail> {
    let counts = at_one_instant(rt.alloc())?;
    assert!(rt; counts == [0, 0, 0, 0, 0]);
    Ok(())
}
