//! What callers hold, and what they can do.
ghost use Rattle.std.specs.Prelude.{◌≡◌, ℕ, ◌≤◌, ◌+◌, ◌-◌, ◌^◌, [], min, max, IfOk, IfSome, IfNone, MatchResult, ◌<◌, IfErr, take};
ghost use Rattle.kernel_provider.specs.Steps.{steps_of};
ghost use Rattle.history_core.specs.Agreement.{IsMerge};
ghost use Rattle.history_lock.specs.Turn.{IsNext};
ghost use Rattle.history_lock.specs.Ranges.{IsAskedAt, IsRange};
ghost use Rattle.history_lock.specs.Tokens.{Asking, Feeding, IsAnswered};
ghost use Rattle.trace_types.specs.declared.limits.TheConstants.{TIME_END};
ghost use Rattle.history_core.specs.declared.question.Asked.{Asked};
ghost use Rattle.history_lock.specs.declared.answer.TryAnswer.TheVariants.{Answer, Busy};

use crate::answer::{AskedRange, TryAnswer};
use crate::rule::Planned;
use crate::steps::{SharedHistory, Token};
use crossbeam_utils::Backoff;
use history_core::Asked;
use ht_outside::{Gate, OpenGate};
use kernel_provider::Step;
use std::alloc::Global;
use std::marker::{Brand, Model};
use std::sync::Wait;
use trace_types::{Merged, OutOfMemory, Path};

/// The right to ask. Contracts see the history that it belongs to, the steps of the merge, the
/// counts at which it was answered, the greatest count that it knows, and its misses.
#[derive(Drop)]
pub struct Pass {
    seat: Token,
    seen: u64,
    misses: u64,
}

impl Model for Pass {
    ghost use Rattle.std.specs.Prelude.{◌≡◌, false};
    ghost use Rattle.history_lock.specs.Turn.{Idle};
    ghost use Rattle.history_lock.specs.Tokens.{Asking, asking_code};

    ghost Value = { Asking };

    ghost coded = { asking_code };

    ghost view = { λ s. record { table = s.seat.table_id; plan = s.seat.me.0.plan; looks = s.seat.me.0.looks; seen = s.seen; misses = s.misses } };

    ghost invariant = { λ s. Idle s.seat.me × (s.seat.me.0.builds ≡ false) × (s.seat.me.0.seen ≡ s.seen) × (s.seat.me.0.misses ≡ s.misses) };
}

/// The right to feed. Contracts see the history that it belongs to, the steps of the merge, how
/// many of them were fed, and its misses.
#[derive(Drop)]
pub struct Builder {
    seat: Token,
    fed: u64,
    misses: u64,
}

impl Model for Builder {
    ghost use Rattle.std.specs.Prelude.{◌≡◌, true, []};
    ghost use Rattle.history_lock.specs.Turn.{Idle, IsPlan};
    ghost use Rattle.history_lock.specs.Tokens.{Feeding, feeding_code};

    ghost Value = { Feeding };

    ghost coded = { feeding_code };

    ghost view = { λ s. record { table = s.seat.table_id; plan = s.seat.me.0.plan; fed = s.fed; misses = s.misses } };

    ghost invariant = { λ s. Idle s.seat.me × (s.seat.me.0.builds ≡ true) × (s.seat.me.0.fed ≡ s.fed) × (s.seat.me.0.misses ≡ s.misses) × (s.seat.me.0.looks ≡ []) × IsPlan s.seat.me.0.plan };
}

impl Builder {
    /// How many steps it has fed.
    pub fn fed(&self) -> u64
        ensures { result ≡ self.now.fed }
    {
        self.fed
    }
}

impl Pass {
    /// The greatest count of steps that the pass knows.
    pub fn seen(&self) -> u64
        ensures { result ≡ self.now.seen }
    {
        self.seen
    }

    /// How often the turn was out when the pass tried for it. It stays at `u64::MAX`.
    pub fn misses(&self) -> u64
        ensures { result ≡ self.now.misses }
    {
        self.misses
    }
}

// A shared history of no step, its builder and a first pass, for this plan.
fn open_with<J: Planned>(
    alloc: Global,
    events: &[Merged],
) -> Result<(SharedHistory, Builder, Pass), OutOfMemory>
    requires merge { IsMerge events.now }
    requires plan { J.plan ≡ steps_of events.now }
    ensures builder { IfOk result (λ r. r.1 ≡ record { table = r.0; plan = steps_of events.now; fed = 0; misses = 0 }) }
    ensures pass { IfOk result (λ r. r.2 ≡ record { table = r.0; plan = steps_of events.now; looks = []; seen = 0; misses = 0 }) }
{
    let _few = events.len();
    let (shared, mut seat) = SharedHistory::begin::<J>(alloc)?;
    let pass = Pass {
        seat: shared.split_seat(&mut seat),
        seen: 0,
        misses: 0,
    };
    let builder = Builder {
        seat,
        fed: 0,
        misses: 0,
    };
    Ok((shared, builder, pass))
}

impl SharedHistory {
    /// A shared history of no step, its builder and a first pass, for the steps of a merge. The
    /// only error is lack of memory.
    pub fn open(
        alloc: Global,
        events: &[Merged],
    ) -> Result<(SharedHistory, Builder, Pass), OutOfMemory>
        requires merge { IsMerge events.now }
        ensures builder { IfOk result (λ r. r.1 ≡ record { table = r.0; plan = steps_of events.now; fed = 0; misses = 0 }) }
        ensures pass { IfOk result (λ r. r.2 ≡ record { table = r.0; plan = steps_of events.now; looks = []; seen = 0; misses = 0 }) }
    {
        open_with::<Brand>(alloc, events)
    }

    // One try to feed.
    fn try_feed<G: Gate>(
        &self,
        builder: &mut Builder,
        step: &Step,
        gate: &G,
    ) -> Option<Result<(), OutOfMemory>>
        requires own { builder.old.table ≡ self.now }
        requires step { IsNext builder.old.plan builder.old.fed step.now }
        ensures fed { IfSome result (λ r. MatchResult r (λ _. builder.new ≡ record builder.old { fed = builder.old.fed + 1 }) (λ _. builder.new ≡ builder.old)) }
        ensures missed { IfNone result (builder.new ≡ record builder.old { misses = min (builder.old.misses + 1) (2 ^ 64 - 1) }) }
        ensures rises { builder.old.misses ≤ builder.new.misses }
    {
        let Some(fed) = self.feed_once(&mut builder.seat, step, gate) else {
            builder.misses = builder.misses.saturating_add(1);
            return None;
        };
        if fed.is_ok() {
            builder.fed += 1;
        }
        Some(fed)
    }

    /// Waits for the turn, and takes the plan's step whose number is `builder.fed()`. The only
    /// error is lack of memory, after which the history is as before and the same step can be fed
    /// again.
    pub fn feed<R: Wait, G: Gate>(
        &self,
        rt: &R,
        builder: &mut Builder,
        step: Step,
        gate: &G,
    ) -> Result<(), OutOfMemory>
        requires own { builder.old.table ≡ self.now }
        requires step { IsNext builder.old.plan builder.old.fed step }
        ensures kept { (builder.new.table ≡ builder.old.table) × (builder.new.plan ≡ builder.old.plan) }
        ensures fed { MatchResult result (λ _. builder.new.fed ≡ builder.old.fed + 1) (λ _. builder.new.fed ≡ builder.old.fed) }
        ensures misses { builder.old.misses ≤ builder.new.misses }
    {
        let backoff = Backoff::new();
        for _ in rt.forever() {
            if let Some(fed) = self.try_feed(builder, &step, gate) {
                return fed;
            }
            backoff.snooze();
        }
        unreachable!()
    }

    // One try to ask.
    fn try_answer<G: Gate>(&self, pass: &mut Pass, t: u64, path: Path, gate: &G) -> Option<Asked>
        requires own { pass.old.table ≡ self.now }
        ensures answered { IfSome result (λ asked. IsAnswered pass.old pass.new t path asked × (pass.new.misses ≡ pass.old.misses)) }
        ensures missed { IfNone result (pass.new ≡ record pass.old { misses = min (pass.old.misses + 1) (2 ^ 64 - 1) }) }
        ensures rises { pass.old.misses ≤ pass.new.misses }
    {
        let Some(asked) = self.answer_once(&mut pass.seat, t, path, gate) else {
            pass.misses = pass.misses.saturating_add(1);
            return None;
        };
        pass.seen = asked.count;
        Some(asked)
    }

    /// Waits for the turn, and answers at the count of steps that were fed by then. It takes no
    /// memory.
    pub fn ask<R: Wait, G: Gate>(
        &self,
        rt: &R,
        pass: &mut Pass,
        t: u64,
        path: Path,
        gate: &G,
    ) -> Asked
        requires own { pass.old.table ≡ self.now }
        ensures answered { IsAnswered pass.old pass.new t path result }
        ensures misses { pass.old.misses ≤ pass.new.misses }
    {
        let backoff = Backoff::new();
        for _ in rt.forever() {
            if let Some(asked) = self.try_answer(pass, t, path, gate) {
                return asked;
            }
            backoff.snooze();
        }
        unreachable!()
    }

    // One try to ask over a range.
    fn try_range<G: Gate>(
        &self,
        alloc: Global,
        pass: &mut Pass,
        span: (u64, u64),
        path: Path,
        gate: &G,
    ) -> Option<Result<AskedRange, OutOfMemory>>
        requires own { pass.old.table ≡ self.now }
        requires order { span.0 < span.1 }
        requires time { span.1 < TIME_END }
        ensures answered { IfSome result (λ r. IfOk r (λ asked. IsRange (take asked.count pass.old.plan) span.0 span.1 path asked.answer × IsAskedAt pass.old pass.new asked.count)) }
        ensures failed { IfSome result (λ r. IfErr r (λ _. (count : ℕ) × IsAskedAt pass.old pass.new count)) }
        ensures kept { (pass.new.table ≡ pass.old.table) × (pass.new.plan ≡ pass.old.plan) }
        ensures missed { IfNone result (pass.new ≡ record pass.old { misses = min (pass.old.misses + 1) (2 ^ 64 - 1) }) }
        ensures rises { pass.old.misses ≤ pass.new.misses }
    {
        let Some((answer, count)) = self.range_once(alloc, &mut pass.seat, span, path, gate) else {
            pass.misses = pass.misses.saturating_add(1);
            return None;
        };
        pass.seen = count;
        match answer {
            Ok(answer) => Some(Ok(AskedRange { answer, count })),
            Err(error) => Some(Err(error)),
        }
    }

    /// Waits for the turn, and tells how an attribute's value changed from one instant up to another, in ns, as far as the
    /// steps that were fed by then tell. The only error is lack of memory, after which the history is as before and the pass
    /// has seen the count at which it asked.
    pub fn ask_range<R: Wait, G: Gate>(
        &self,
        rt: &R,
        alloc: Global,
        pass: &mut Pass,
        span: (u64, u64),
        path: Path,
        gate: &G,
    ) -> Result<AskedRange, OutOfMemory>
        requires own { pass.old.table ≡ self.now }
        requires order { span.0 < span.1 }
        requires time { span.1 < TIME_END }
        ensures answered { IfOk result (λ asked. IsRange (take asked.count pass.old.plan) span.0 span.1 path asked.answer × IsAskedAt pass.old pass.new asked.count) }
        ensures failed { IfErr result (λ _. (count : ℕ) × IsAskedAt pass.old pass.new count) }
        ensures misses { pass.old.misses ≤ pass.new.misses }
    {
        let backoff = Backoff::new();
        for _ in rt.forever() {
            if let Some(asked) = self.try_range(alloc, pass, span, path, gate) {
                return asked;
            }
            backoff.snooze();
        }
        unreachable!()
    }

    /// Answers as `ask` does if the turn is free, and waits for nobody.
    pub fn try_ask(&self, pass: &mut Pass, t: u64, path: Path) -> TryAnswer
        requires own { pass.old.table ≡ self.now }
        ensures kept { (pass.new.table ≡ pass.old.table) × (pass.new.plan ≡ pass.old.plan) }
        ensures answered { (asked : Asked) → result ≡ Answer asked → IsAnswered pass.old pass.new t path asked × (pass.new.misses ≡ pass.old.misses) }
        ensures busy { (misses : ℕ) → result ≡ Busy misses → (pass.new ≡ record pass.old { misses = min (pass.old.misses + 1) (2 ^ 64 - 1) }) × (misses ≡ pass.new.misses) }
    {
        match self.try_answer(pass, t, path, &OpenGate) {
            Some(asked) => TryAnswer::Answer(asked),
            None => TryAnswer::Busy {
                misses: pass.misses,
            },
        }
    }

    /// A pass that has seen as much, with no misses.
    pub fn split(&self, pass: &mut Pass) -> Pass
        requires own { pass.old.table ≡ self.now }
        ensures kept { pass.new ≡ pass.old }
        ensures given { result ≡ record pass.old { looks = []; misses = 0 } }
    {
        Pass {
            seat: self.split_seat(&mut pass.seat),
            seen: pass.seen,
            misses: 0,
        }
    }

    /// Takes in another pass. The first then knows the greater of the two counts.
    pub fn join(&self, pass: &mut Pass, other: Pass)
        requires own { (pass.old.table ≡ self.now) × (other.table ≡ self.now) }
        ensures joined { pass.new ≡ record pass.old { seen = max pass.old.seen other.seen } }
    {
        let Pass {
            seat,
            seen,
            misses: _,
        } = other;
        self.join_seat(&mut pass.seat, seat);
        pass.seen = pass.seen.max(seen);
    }

    /// The pass of a builder that feeds no more. It knows all that was fed.
    pub fn done(&self, builder: Builder) -> Pass
        requires own { builder.table ≡ self.now }
        ensures pass { result ≡ record { table = builder.table; plan = builder.plan; looks = []; seen = builder.fed; misses = builder.misses } }
    {
        let Builder {
            mut seat,
            fed: _,
            misses,
        } = builder;
        let seen = self.finish(&mut seat);
        Pass { seat, seen, misses }
    }
}
