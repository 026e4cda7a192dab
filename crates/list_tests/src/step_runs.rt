//! The steps that the provider gives.
use crate::lists::TWO_SWITCHES;
use event_list::read_list;
use kernel_provider::{Provider, Step};
use std::alloc::Global;
use std::test::Fail;
use trace_types::{Merged, OutOfMemory};

// How many steps these events have, at most 64, how many of them add a path, and whether none comes after them.
fn counted(alloc: Global, events: &[Merged]) -> Result<(u32, u32, bool), OutOfMemory> {
    let mut provider = Provider::new(alloc);
    let mut steps = 0u32;
    let mut added = 0u32;
    for _ in 0..64 {
        match provider.next_step(events)? {
            None => break,
            Some(Step::Add { .. }) => {
                steps = steps.saturating_add(1);
                added = added.saturating_add(1);
            }
            Some(_) => steps = steps.saturating_add(1),
        }
    }
    let after = provider.next_step(events)?;
    Ok((steps, added, after.is_none()))
}

// The same of a list.
fn counted_of(alloc: Global, list: &[u8]) -> Result<(u32, u32, bool), Fail> {
    let trace = read_list(alloc, list)?;
    Ok(counted(alloc, &trace.events)?)
}

// The first switch gives an advance and eight new paths with their values, 17 steps. The second gives
// an advance, the changes of the status of both threads and of the processor's thread, and one new
// path with its value, 6 steps. Then comes the end.
#[test]
fn two_switches_have_24_steps(rt: HostRuntime) -> Result<(), Fail> {
    assert_eq!(rt; counted_of(rt.alloc(), TWO_SWITCHES)?, (24, 9, true));
    Ok(())
}
