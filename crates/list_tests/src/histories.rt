//! A history of many paths and steps.
ghost use Rattle.std.specs.Prelude.{◌≡◌, IfOk};
ghost use Rattle.history_core.specs.Agreement.{IsMerge};

use history_core::{Answer, Asked, history_of};
use std::alloc::AllocGlobal;
use std::test::Fail;
use std::thread::Threads;
use trace_types::{CpuLeaf, Event, KernelEvent, Merged, Path, ThreadKey, ThreadLeaf, Value};

// What happens over and over.
#[derive(Clone, Copy)]
enum Repeated {
    // The end of a thread whose tid is the key.
    Exit,
    // An interrupt: 0, 1, 2, and again from 0.
    Interrupt,
}

fn kind_of(repeated: Repeated, key: u32) -> KernelEvent {
    match repeated {
        Repeated::Exit => KernelEvent::Exit { tid: key },
        Repeated::Interrupt => KernelEvent::IrqIn { irq: key % 3 },
    }
}

// What happens at a key.
fn event(repeated: Repeated, key: u32) -> Merged
    ensures { result.key ≡ key }
{
    Merged {
        key: u64::from(key),
        event: Event {
            time: 1,
            host: 0,
            cpu: 0,
            kind: kind_of(repeated, key),
        },
    }
}

// What happens at the keys from 0 on, so many of them.
fn events<R: AllocGlobal + Threads + Sync>(
    rt: &R,
    repeated: Repeated,
    count: u32,
) -> Result<Vec<Merged>, Fail>
    ensures { IfOk result (λ events. IsMerge events.items) }
{
    let mut events = Vec::new(rt.alloc());
    for key in 0..count {
        events.push(event(repeated, key))?;
    }
    Ok(events)
}

// What the history of so many events answers about an attribute.
fn asked<R: AllocGlobal + Threads + Sync>(
    rt: &R,
    repeated: Repeated,
    count: u32,
    t: u64,
    path: Path,
) -> Result<Asked, Fail> {
    let events = events(rt, repeated, count)?;
    let history = history_of(rt.alloc(), &events)?;
    Ok(Asked {
        answer: history.answer(t, path),
        count: history.count(),
    })
}

fn status_of(tid: u32) -> Path {
    Path::Thread {
        host: 0,
        thread: ThreadKey::Tid(tid),
        leaf: ThreadLeaf::Status,
    }
}

// Each end has three steps: an advance, a new path and its value, which is 4. Then comes the last step. The first end,
// at 0, has no advance.
#[test]
fn a_hundred_thousand_attributes_that_change_once(rt: HostRuntime) -> Result<(), Fail> {
    let answer = Answer::State(Value::Int(4));
    let count = 3 * 100_000;
    assert_eq!(rt;
        asked(&rt, Repeated::Exit, 100_000, 99_999, status_of(99_999))?,
        Asked { answer, count }
    );
    Ok(())
}

// Each interrupt has two steps: an advance and a value. The first has a new path in place of the advance, and then comes
// the last step. At 500,000 = 3 * 166,666 + 2 the interrupt is 2.
#[test]
fn one_attribute_that_changes_a_million_times(rt: HostRuntime) -> Result<(), Fail> {
    let path = Path::Cpu {
        host: 0,
        cpu: 0,
        leaf: CpuLeaf::Irq,
    };
    let answer = Answer::State(Value::Int(2));
    let count = 2 * 1_000_000 + 1;
    assert_eq!(rt;
        asked(&rt, Repeated::Interrupt, 1_000_000, 500_000, path)?,
        Asked { answer, count }
    );
    Ok(())
}
