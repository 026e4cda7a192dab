//! Paths and their numbers, and a history that is asked while it grows.
ghost use Rattle.std.specs.Prelude.{◌<◌, ◌^◌, IfOk};
ghost use Rattle.trace_types.specs.declared.limits.TheConstants.{TIME_END};
ghost use Rattle.history_core.specs.Agreement.{IsMerge};

use attribute_tree::Attributes;
use event_list::read_list;
use history_core::{Answer, Asked, History};
use history_nodes::Reads;
use kernel_provider::Provider;
use range_query::{Stretch, range};
use std::alloc::AllocGlobal;
use std::process::Abort;
use std::test::Fail;
use std::thread::Threads;
use trace_types::{CpuLeaf, Merged, Path, ThreadKey, ThreadLeaf, Value};

// Processor 0 goes from idle to bash at 100, and back at 250.
const TWO_SWITCHES: &[u8] = b"hosttrace events 1\n\
    100 0 0 100 switch 0 swapper/0 20 0 7 bash 20\n\
    250 0 0 250 switch 7 bash 20 1 0 swapper/0 20\n";

// Two switches at one instant: bash gives way to vi.
const ONE_INSTANT: &[u8] = b"hosttrace events 1\n\
    100 0 0 100 switch 0 swapper/0 20 0 7 bash 20\n\
    100 0 0 100 switch 7 bash 20 1 8 vi 20\n";

// The same, and then a soft interrupt.
const ONE_INSTANT_AND_MORE: &[u8] = b"hosttrace events 1\n\
    100 0 0 100 switch 0 swapper/0 20 0 7 bash 20\n\
    100 0 0 100 switch 7 bash 20 1 8 vi 20\n\
    250 0 0 250 soft-in 3\n";

const CPU_0: Path = Path::Cpu {
    host: 0,
    cpu: 0,
    leaf: CpuLeaf::Thread,
};

const BASH: Path = Path::Thread {
    host: 0,
    thread: ThreadKey::Tid(7),
    leaf: ThreadLeaf::Status,
};

// The history of the first steps of a merge, at most so many.
fn built<R: AllocGlobal + Threads + Sync>(
    rt: &R,
    events: &[Merged],
    steps: u32,
) -> Result<History, Fail>
    requires { IsMerge events.now }
{
    let mut provider = Provider::new(rt.alloc());
    let mut history = History::new(rt.alloc())?;
    for _ in 0..steps {
        let Some(step) = provider.next_step(events)? else {
            break;
        };
        history.apply(step)?;
    }
    Ok(history)
}

// The events of a list.
fn events_of<R: AllocGlobal + Threads + Sync>(rt: &R, list: &[u8]) -> Result<Vec<Merged>, Fail>
    ensures { IfOk result (λ events. IsMerge events.items) }
{
    Ok(read_list(rt.alloc(), list)?.events)
}

// What the history of a list's first steps answers, and how many steps it took.
fn asked<R: AllocGlobal + Threads + Sync>(
    rt: &R,
    list: &[u8],
    steps: u32,
    t: u64,
    path: Path,
) -> Result<Asked, Fail> {
    let events = events_of(rt, list)?;
    let history = built(rt, &events, steps)?;
    Ok(Asked {
        answer: history.answer(t, path),
        count: history.count(),
    })
}

// How an attribute's value changed in the history of a list's first steps: up to which end it is built, and the first three stretches.
fn asked_over<R: AllocGlobal + Threads + Sync>(
    rt: &R,
    steps: u32,
    from: u64,
    to: u64,
    path: Path,
) -> Result<(u64, [Option<Stretch>; 3]), Fail>
    requires { (from < to) × (to < TIME_END) }
{
    let events = events_of(rt, TWO_SWITCHES)?;
    let history = built(rt, &events, steps)?;
    let answer = range(rt.alloc(), &history, from, to, path)?;
    let at = answer.stretches.as_slice();
    let three = [at.first().copied(), at.get(1).copied(), at.get(2).copied()];
    Ok((answer.built, three))
}

fn stretch(from: u64, to: u64, value: Value) -> Option<Stretch> {
    Some(Stretch { from, to, value })
}

// Adds a path, which must be new.
fn add_new<R: Abort>(rt: &R, attributes: &mut Attributes, path: Path) -> Result<usize, Fail> {
    let None = attributes.find(path) else {
        panic!(rt; "a new path");
    };
    Ok(attributes.add(path)?)
}

// The two paths.
fn two_paths<R: AllocGlobal + Threads + Sync + Abort>(rt: &R) -> Result<Attributes, Fail> {
    let mut attributes = Attributes::new(rt.alloc());
    add_new(rt, &mut attributes, BASH)?;
    add_new(rt, &mut attributes, CPU_0)?;
    Ok(attributes)
}

// The children of a node of two paths, at most two of them.
fn children<R: AllocGlobal + Threads + Sync + Abort>(
    rt: &R,
    node: usize,
) -> Result<[Option<usize>; 3], Fail> {
    let attributes = two_paths(rt)?;
    let mut children = attributes.children(node);
    Ok([children.next(), children.next(), children.next()])
}

#[test]
fn paths_have_numbers(rt: HostRuntime) -> Result<(), Fail> {
    let mut attributes = Attributes::new(rt.alloc());
    let first = add_new(&rt, &mut attributes, BASH)?;
    let second = add_new(&rt, &mut attributes, CPU_0)?;
    assert_eq!(rt; (first, second), (0, 1));
    Ok(())
}

#[test]
fn numbers_have_paths(rt: HostRuntime) -> Result<(), Fail> {
    let attributes = two_paths(&rt)?;
    assert_eq!(rt; attributes.find(CPU_0), Some(1));
    assert!(rt; attributes.len() == 2);
    assert_eq!(rt; attributes.path_of(0), BASH);
    Ok(())
}

// Node 0 is the root. The first path makes nodes 1 to 4: its host, the host's threads, the thread and
// the leaf. The second makes 5 to 7: the host's processors, the processor and the leaf.
#[test]
fn nodes_have_children(rt: HostRuntime) -> Result<(), Fail> {
    assert_eq!(rt; children(&rt, 0)?, [Some(1), None, None]);
    assert_eq!(rt; children(&rt, 1)?, [Some(2), Some(5), None]);
    assert_eq!(rt; children(&rt, 6)?, [Some(7), None, None]);
    assert_eq!(rt; children(&rt, 7)?, [None, None, None]);
    Ok(())
}

// The first switch at 100 has 17 steps. The history is then built to 100, and knows no value at 100.
#[test]
fn after_the_first_event(rt: HostRuntime) -> Result<(), Fail> {
    let count = 17;
    let answer = Answer::NotYet { built: 100 };
    assert_eq!(rt;
        asked(&rt, ONE_INSTANT_AND_MORE, 17, 100, CPU_0)?,
        Asked { answer, count }
    );
    let answer = Answer::State(Value::Null);
    assert_eq!(rt;
        asked(&rt, ONE_INSTANT_AND_MORE, 17, 99, CPU_0)?,
        Asked { answer, count }
    );
    Ok(())
}

// The second switch at 100 has ten steps: the changes of bash's status and of the processor's thread, and four paths of
// vi, each with its value. The step after them builds the history to 250.
#[test]
fn up_to_what_follows_an_instant(rt: HostRuntime) -> Result<(), Fail> {
    let count = 27;
    let answer = Answer::NotYet { built: 100 };
    assert_eq!(rt;
        asked(&rt, ONE_INSTANT_AND_MORE, 27, 100, CPU_0)?,
        Asked { answer, count }
    );
    let count = 28;
    let answer = Answer::State(Value::Int(8));
    assert_eq!(rt;
        asked(&rt, ONE_INSTANT_AND_MORE, 28, 100, CPU_0)?,
        Asked { answer, count }
    );
    let answer = Answer::NotYet { built: 250 };
    assert_eq!(rt;
        asked(&rt, ONE_INSTANT_AND_MORE, 28, 250, CPU_0)?,
        Asked { answer, count }
    );
    Ok(())
}

// The start of the stored interval of a number that holds an instant.
fn stored(history: &History, number: usize, t: u64) -> Option<u64>
    requires { t < 2 ^ 62 }
{
    let tree = history.tree();
    let _levels = tree.levels();
    let found = tree.find(number, t, &mut Reads::new());
    let interval = found?;
    let _value = interval.value;
    Some(interval.start)
}

// Values that are there for no instant are no intervals, and what is open at the end is none either: with two switches at
// one instant nothing is stored, before, at and after it.
#[test]
fn two_switches_at_one_instant_close_nothing(rt: HostRuntime) -> Result<(), Fail> {
    let events = events_of(&rt, ONE_INSTANT)?;
    let history = built(&rt, &events, 100)?;
    assert_eq!(rt; history.built(), 1 << 62);
    for number in 0..16 {
        for t in [0, 99, 100, 101, 250, (1 << 62) - 1] {
            assert!(rt;
                stored(&history, number, t).is_none(),
                "number {number} at {t}"
            );
        }
    }
    Ok(())
}

// Both switches count at 100: vi runs, and bash is blocked.
#[test]
fn after_both_events_of_an_instant(rt: HostRuntime) -> Result<(), Fail> {
    let of_cpu = asked(&rt, ONE_INSTANT, 100, 100, CPU_0)?;
    assert_eq!(rt; of_cpu.answer, Answer::State(Value::Int(8)));
    let of_bash = asked(&rt, ONE_INSTANT, 100, 100, BASH)?;
    assert_eq!(rt; of_bash.answer, Answer::State(Value::Int(3)));
    Ok(())
}

// The step after the first event builds the history to 250, and ends no interval yet.
#[test]
fn up_to_the_second_event(rt: HostRuntime) -> Result<(), Fail> {
    let count = 18;
    let answer = Answer::State(Value::Int(7));
    assert_eq!(rt;
        asked(&rt, TWO_SWITCHES, 18, 100, CPU_0)?,
        Asked { answer, count }
    );
    let answer = Answer::State(Value::Int(1));
    assert_eq!(rt;
        asked(&rt, TWO_SWITCHES, 18, 249, BASH)?,
        Asked { answer, count }
    );
    let answer = Answer::NotYet { built: 250 };
    assert_eq!(rt;
        asked(&rt, TWO_SWITCHES, 18, 250, CPU_0)?,
        Asked { answer, count }
    );
    Ok(())
}

// After 24 steps all is known up to the end of all times.
#[test]
fn after_all_steps(rt: HostRuntime) -> Result<(), Fail> {
    let count = 24;
    let answer = Answer::State(Value::Int(1));
    assert_eq!(rt;
        asked(&rt, TWO_SWITCHES, 100, 249, BASH)?,
        Asked { answer, count }
    );
    let answer = Answer::State(Value::Int(3));
    assert_eq!(rt;
        asked(&rt, TWO_SWITCHES, 100, 250, BASH)?,
        Asked { answer, count }
    );
    let answer = Answer::State(Value::Int(0));
    assert_eq!(rt;
        asked(&rt, TWO_SWITCHES, 100, (1 << 62) - 1, CPU_0)?,
        Asked { answer, count }
    );
    let answer = Answer::NotYet { built: 1 << 62 };
    assert_eq!(rt;
        asked(&rt, TWO_SWITCHES, 100, 1 << 62, CPU_0)?,
        Asked { answer, count }
    );
    Ok(())
}

// The history is built to no instant, to 100, to 250, and to the end of all times.
#[test]
fn a_range_ends_where_the_history_is_built(rt: HostRuntime) -> Result<(), Fail> {
    let before = stretch(50, 100, Value::Null);
    let between = stretch(100, 250, Value::Int(7));
    let after = stretch(250, 300, Value::Int(0));
    assert!(rt; asked_over(&rt, 0, 50, 300, CPU_0)? == (0, [None, None, None]));
    assert!(rt; asked_over(&rt, 17, 50, 300, CPU_0)? == (100, [before, None, None]));
    assert!(rt; asked_over(&rt, 18, 50, 300, CPU_0)? == (250, [before, between, None]));
    assert!(rt; asked_over(&rt, 100, 50, 300, CPU_0)? == (1 << 62, [before, between, after]));
    Ok(())
}

#[test]
fn a_range_from_the_built_end_on_has_no_stretch(rt: HostRuntime) -> Result<(), Fail> {
    assert!(rt; asked_over(&rt, 18, 250, 300, CPU_0)? == (250, [None, None, None]));
    Ok(())
}
