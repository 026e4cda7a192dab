//! Threads that ask a shared history while another builds it.
ghost use Rattle.std.specs.Prelude.{◌≡◌, ◌<◌, ◌*◌, All, IfOk};
ghost use Rattle.history_core.specs.Agreement.{IsMerge};
ghost use Rattle.history_tests.specs.Fed.{IsAt, IsReady};
ghost use denote.Param.Send.{IsSync};

use crate::drawn::{merge, question};
use crate::fed::{feed_some, opened};
use crate::gates::HoldsHalfWay;
use crate::job::Job;
use crate::replay::Replay;
use history_core::{Asked, Question};
use history_lock::{Builder, Pass, SharedHistory};
use ht_outside::{Gate, Point, Who};
use kernel_provider::Provider;
use std::alloc::Global;
use std::sync::Wait;
use std::test::Fail;
use std::thread;
use std::thread::Threads;
use trace_types::{Merged, OutOfMemory};

// How many threads ask.
const WORKERS: u32 = 4;

// A question with its answer.
#[derive(Clone, Copy, Debug, PartialEq, Eq)]
struct Put {
    question: Question,
    asked: Asked,
}

// Puts the questions of a job, one after the other.
fn work<R: Wait>(
    rt: &R,
    alloc: Global,
    shared: &SharedHistory,
    gate: &HoldsHalfWay,
    mut job: Job,
) -> Result<Vec<Put>, OutOfMemory>
    requires { IsReady shared.now job }
{
    let mut put = Vec::new(alloc);
    for _ in 0..job.questions {
        let question = question(&mut job.seed, job.limit);
        let asked = shared.ask(rt, &mut job.pass, question.t, question.path, gate);
        gate.pass(Who::Worker(job.number), Point::Answered);
        put.push(Put { question, asked })?;
    }
    Ok(put)
}

// Each job in a thread of its own, as far as there are threads.
fn work_all<R: Threads + Wait + Sync>(
    rt: &R,
    alloc: Global,
    shared: &SharedHistory,
    gate: &HoldsHalfWay,
    jobs: Vec<Job>,
) -> Result<Vec<Result<Vec<Put>, OutOfMemory>>, OutOfMemory>
    requires { All (IsReady shared.now) jobs.items }
{
    Ok(thread::map_vec(
        rt,
        jobs,
        &|job: Job| -> Result<Vec<Put>, OutOfMemory>
            requires { IsReady shared.now job }
        { work(rt, alloc, shared, gate, job) },
    )?)
}

// Feeds all steps, and gives the pass that knows them.
fn build<R: Wait>(
    rt: &R,
    shared: &SharedHistory,
    mut builder: Builder,
    mut provider: Provider,
    events: &[Merged],
    gate: &HoldsHalfWay,
) -> Result<Pass, OutOfMemory>
    requires own { builder.table ≡ shared.now }
    requires at { IsAt events.now builder provider }
{
    feed_some(
        rt,
        shared,
        &mut builder,
        &mut provider,
        events,
        u32::MAX,
        gate,
    )?;
    Ok(shared.done(builder))
}

// A job for each thread, with seeds of their own.
fn jobs(
    alloc: Global,
    shared: &SharedHistory,
    pass: &mut Pass,
    questions: u32,
    limit: u32,
) -> Result<Vec<Job>, OutOfMemory>
    requires own { pass.old.table ≡ shared.now }
    requires limit { 0 < limit }
    ensures { IfOk result (λ jobs. All (IsReady shared.now) jobs.items) }
{
    let mut jobs = Vec::new(alloc);
    for number in 0..WORKERS {
        jobs.push(Job {
            pass: shared.split(pass),
            number,
            seed: u64::from(number),
            questions,
            limit,
        })?;
    }
    Ok(jobs)
}

// What came of it: how many answers there were, how many of them are those of a replay that is cut at their counts, how many
// came before the last step, and how many steps the builder's pass knows.
#[derive(Clone, Copy, Debug, PartialEq, Eq)]
struct Outcome {
    answers: u32,
    alike: u32,
    early: u32,
    seen: u64,
}

// Counts the answers of one thread. Their counts never fall.
fn compare(replay: &Replay, put: &[Put], outcome: &mut Outcome) {
    let mut seen = 0;
    for it in put {
        outcome.answers = outcome.answers.saturating_add(1);
        let answer = replay.answer(it.asked.count, &it.question);
        if it.asked.count >= seen && it.asked.answer == answer {
            outcome.alike = outcome.alike.saturating_add(1);
        }
        if it.asked.count < replay.steps() {
            outcome.early = outcome.early.saturating_add(1);
        }
        seen = it.asked.count;
    }
}

// Four threads ask while another builds.
fn built_and_asked<R: Threads + Wait + Sync>(
    rt: &R,
    alloc: Global,
    events: &[Merged],
    gate: &HoldsHalfWay,
    questions: u32,
    limit: u32,
) -> Result<(Pass, Vec<Result<Vec<Put>, OutOfMemory>>), OutOfMemory>
    requires merge { IsMerge events.now }
    requires limit { 0 < limit }
{
    let (shared, builder, provider, mut pass) = opened(alloc, events)?;
    let jobs = jobs(alloc, &shared, &mut pass, questions, limit)?;
    let shared = &shared;
    let (pass, put) = thread::join(
        rt,
        || -> Result<Pass, OutOfMemory>
            requires { (builder.table ≡ shared.now) × IsAt events.now builder provider }
        { build(rt, shared, builder, provider, events, gate) },
        || -> Result<Vec<Result<Vec<Put>, OutOfMemory>>, OutOfMemory>
            requires { IsSync R.row × All (IsReady shared.now) jobs.items }
        { work_all(rt, alloc, shared, gate, jobs) },
    );
    Ok((pass?, put?))
}

// Of a merge of so many events, which each thread asks so often.
fn asked<R: Threads + Wait + Sync>(
    rt: &R,
    alloc: Global,
    events: u32,
    questions: u32,
) -> Result<(Outcome, u64, (u64, u64)), OutOfMemory>
    requires { (0 < events) × (events < 100000) }
{
    let mut seed = 20240229;
    let events_made = merge(alloc, &mut seed, events)?;
    let replay = Replay::of(alloc, &events_made)?;
    let gate = HoldsHalfWay::new(replay.steps() / 2);
    let (pass, put) = built_and_asked(rt, alloc, &events_made, &gate, questions, 2 * events)?;
    let mut outcome = Outcome {
        answers: 0,
        alike: 0,
        early: 0,
        seen: pass.seen(),
    };
    for of_one in put {
        compare(&replay, &of_one?, &mut outcome);
    }
    Ok((outcome, replay.steps(), gate.turns()))
}

#[test]
fn forty_thousand_questions_beside_a_builder(rt: HostRuntime) -> Result<(), Fail> {
    let (outcome, steps, turns) = asked(&rt, rt.alloc(), 60_000, 10_000)?;
    assert!(rt; steps > 100_000);
    assert_eq!(rt; outcome.answers, 40_000);
    assert_eq!(rt; outcome.alike, 40_000);
    assert!(rt; outcome.early > 0);
    assert_eq!(rt; outcome.seen, steps);
    assert_eq!(rt; turns, (steps, 40_000));
    Ok(())
}
