//! A shared history that is fed and asked in turns.
ghost use Rattle.std.specs.Prelude.{◌≡◌};
ghost use Rattle.history_core.specs.Agreement.{IsMerge};
ghost use Rattle.history_tests.specs.Fed.{IsAt};

use crate::closed::{soft_interrupt, switch};
use crate::fed::{feed_some, opened};
use crate::gates::HoldsTheTurn;
use history_core::{Answer, Asked};
use history_lock::{AskedRange, Builder, Pass, SharedHistory, TryAnswer};
use ht_outside::OpenGate;
use kernel_provider::Provider;
use range_query::Stretch;
use std::alloc::Global;
use std::sync::Wait;
use std::test::Fail;
use std::thread;
use std::thread::Threads;
use trace_types::{CpuLeaf, Merged, OutOfMemory, Path, TIME_END, Value};

const CPU_0: Path = Path::Cpu {
    host: 0,
    cpu: 0,
    leaf: CpuLeaf::Thread,
};

// What a pass is told after 17, 18 and all steps of two switches, and what it has seen when it took in the builder's.
fn two_switches<R: Wait>(rt: &R, alloc: Global) -> Result<([Asked; 3], u64), OutOfMemory> {
    let events = [switch(100, 0, 0, 7), switch(250, 7, 1, 0)];
    let (shared, mut builder, mut provider, mut first) = opened(alloc, &events)?;
    let mut pass = shared.split(&mut first);
    feed_some(
        rt,
        &shared,
        &mut builder,
        &mut provider,
        &events,
        17,
        &OpenGate,
    )?;
    let early = shared.ask(rt, &mut pass, 100, CPU_0, &OpenGate);
    feed_some(
        rt,
        &shared,
        &mut builder,
        &mut provider,
        &events,
        1,
        &OpenGate,
    )?;
    let later = shared.ask(rt, &mut pass, 100, CPU_0, &OpenGate);
    feed_some(
        rt,
        &shared,
        &mut builder,
        &mut provider,
        &events,
        6,
        &OpenGate,
    )?;
    let done = shared.done(builder);
    shared.join(&mut pass, done);
    let seen = pass.seen();
    let last = shared.ask(rt, &mut pass, TIME_END - 1, CPU_0, &OpenGate);
    Ok(([early, later, last], seen))
}

#[test]
fn answers_come_at_their_counts(rt: HostRuntime) -> Result<(), Fail> {
    let (told, seen) = two_switches(&rt, rt.alloc())?;
    assert!(rt;
        told[0]
            == Asked {
                answer: Answer::NotYet { built: 100 },
                count: 17
            }
    );
    assert!(rt;
        told[1]
            == Asked {
                answer: Answer::State(Value::Int(7)),
                count: 18
            }
    );
    assert!(rt;
        told[2]
            == Asked {
                answer: Answer::State(Value::Int(0)),
                count: 24
            }
    );
    assert_eq!(rt; seen, 24);
    Ok(())
}

// What a pass is told at 100, 99, 100 and 250, of two switches at 100 and a soft interrupt at 250: twice after the steps of the first,
// and twice after the step to 250.
fn one_instant<R: Wait>(rt: &R, alloc: Global) -> Result<[Answer; 4], OutOfMemory> {
    let events = [
        switch(100, 0, 0, 7),
        switch(100, 7, 1, 8),
        soft_interrupt(250),
    ];
    let (shared, mut builder, mut provider, mut pass) = opened(alloc, &events)?;
    feed_some(
        rt,
        &shared,
        &mut builder,
        &mut provider,
        &events,
        17,
        &OpenGate,
    )?;
    let at = shared.ask(rt, &mut pass, 100, CPU_0, &OpenGate);
    let before = shared.ask(rt, &mut pass, 99, CPU_0, &OpenGate);
    feed_some(
        rt,
        &shared,
        &mut builder,
        &mut provider,
        &events,
        11,
        &OpenGate,
    )?;
    let then = shared.ask(rt, &mut pass, 100, CPU_0, &OpenGate);
    let later = shared.ask(rt, &mut pass, 250, CPU_0, &OpenGate);
    Ok([at.answer, before.answer, then.answer, later.answer])
}

#[test]
fn changes_at_one_instant_are_answered_together(rt: HostRuntime) -> Result<(), Fail> {
    let [at, before, then, later] = one_instant(&rt, rt.alloc())?;
    assert!(rt; at == Answer::NotYet { built: 100 });
    assert!(rt; before == Answer::State(Value::Null));
    assert!(rt; then == Answer::State(Value::Int(8)));
    assert!(rt; later == Answer::NotYet { built: 250 });
    Ok(())
}

// One step of a builder that has a thread of its own.
fn feed_one<R: Wait>(
    rt: &R,
    shared: &SharedHistory,
    mut builder: Builder,
    mut provider: Provider,
    events: &[Merged],
    gate: &HoldsTheTurn,
) -> Result<(), OutOfMemory>
    requires own { builder.table ≡ shared.now }
    requires at { IsAt events.now builder provider }
{
    feed_some(rt, shared, &mut builder, &mut provider, events, 1, gate)
}

// What a try gives while the builder has the turn.
fn try_then(shared: &SharedHistory, mut pass: Pass, gate: &HoldsTheTurn) -> (TryAnswer, Pass)
    requires own { pass.table ≡ shared.now }
    ensures own { result.1.table ≡ shared.now }
{
    gate.wait();
    let busy = shared.try_ask(&mut pass, 100, CPU_0);
    gate.release();
    (busy, pass)
}

// What a try gives while the builder has the turn, and after its feed.
fn busy_and_free<R: Threads + Wait + Sync>(
    rt: &R,
    alloc: Global,
    events: &[Merged],
    gate: &HoldsTheTurn,
) -> Result<(TryAnswer, TryAnswer), OutOfMemory>
    requires merge { IsMerge events.now }
{
    let (shared, builder, provider, pass) = opened(alloc, events)?;
    let shared = &shared;
    let (fed, (busy, mut pass)) = thread::join(
        rt,
        || -> Result<(), OutOfMemory>
            requires { (builder.table ≡ shared.now) × IsAt events.now builder provider }
        { feed_one(rt, shared, builder, provider, events, gate) },
        || -> (TryAnswer, Pass)
            requires { pass.table ≡ shared.now }
            ensures { result.1.table ≡ shared.entry.now }
        { try_then(shared, pass, gate) },
    );
    fed?;
    let free = shared.try_ask(&mut pass, 100, CPU_0);
    Ok((busy, free))
}

#[test]
fn a_try_waits_for_nobody(rt: HostRuntime) -> Result<(), Fail> {
    let events = [switch(100, 0, 0, 7)];
    let gate = HoldsTheTurn::new();
    let (busy, free) = busy_and_free(&rt, rt.alloc(), &events, &gate)?;
    assert!(rt; busy == TryAnswer::Busy { misses: 1 });
    assert!(rt;
        free == TryAnswer::Answer(Asked {
            answer: Answer::NotYet { built: 100 },
            count: 1
        })
    );
    Ok(())
}

// What is told over a range of two switches after 17 steps and after 18.
fn told_over_a_range<R: Wait>(rt: &R, alloc: Global) -> Result<[AskedRange; 2], OutOfMemory> {
    let events = [switch(100, 0, 0, 7), switch(250, 7, 1, 0)];
    let (shared, mut builder, mut provider, mut pass) = opened(alloc, &events)?;
    feed_some(
        rt,
        &shared,
        &mut builder,
        &mut provider,
        &events,
        17,
        &OpenGate,
    )?;
    let early = shared.ask_range(rt, alloc, &mut pass, (50, 300), CPU_0, &OpenGate)?;
    feed_some(
        rt,
        &shared,
        &mut builder,
        &mut provider,
        &events,
        1,
        &OpenGate,
    )?;
    let later = shared.ask_range(rt, alloc, &mut pass, (50, 300), CPU_0, &OpenGate)?;
    Ok([early, later])
}

// Processor 0 has no thread, and then bash.
const NOTHING: Stretch = Stretch {
    from: 50,
    to: 100,
    value: Value::Null,
};

const BASH: Stretch = Stretch {
    from: 100,
    to: 250,
    value: Value::Int(7),
};

#[test]
fn a_range_goes_as_far_as_is_built(rt: HostRuntime) -> Result<(), Fail> {
    let [early, later] = told_over_a_range(&rt, rt.alloc())?;
    assert_eq!(rt; (early.count, early.answer.built), (17, 100));
    assert!(rt; early.answer.stretches.as_slice() == [NOTHING].as_slice());
    assert_eq!(rt; (later.count, later.answer.built), (18, 250));
    assert!(rt; later.answer.stretches.as_slice() == [NOTHING, BASH].as_slice());
    Ok(())
}
