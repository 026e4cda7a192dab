//! The table, and the steps of its rule.
ghost use Rattle.std.specs.Prelude.{◌≡◌, ℕ, ◌<◌, ◌≤◌, ◌^◌, true, false, [], ◌∷◌, length, take, Some, None, IfOk, IfSome, IfNone, MatchResult};
ghost use Rattle.history_core.specs.Answers.{answer_after};
ghost use Rattle.history_core.specs.Stands.{Stands, AreSteps};
ghost use Rattle.trace_types.specs.declared.limits.TheConstants.{TIME_END};
ghost use Rattle.history_lock.specs.Ranges.{IsRange};
ghost use Rattle.history_lock.specs.Turn.{Idle, IsTaken, IsNext, IsPlan, starter, taking, looking, giving, bumping, missing, newcomer, informed, finishing, answering, feeding, failing};

use crate::rule::{Begin, Bump, Finish, Give, Look, Pair, Planned, Take, Turn};
use crate::view::View;
use atomic_table::{Refused, Seat, Table};
use history_core::{Asked, History};
use ht_outside::{Gate, Point, Who};
use kernel_provider::Step;
use range_query::{RangeAnswer, range};
use std::alloc::Global;
use std::marker::Model;
use trace_types::{OutOfMemory, Path};

pub type Token = Seat<Option<History>, View>;

// The word of the count of steps, the word of the turn, and the slot of the history.
const COUNT: usize = 0;

const TURN: usize = 1;

const HISTORY: usize = 0;

/// A history that threads share. Contracts see which table it is.
#[derive(Drop)]
pub struct SharedHistory {
    table: Table<Option<History>, View, (), Turn, Global>,
}

impl Model for SharedHistory {
    ghost use Rattle.std.specs.Prelude.{◌≡◌};
    ghost use Rattle.atomic_table.specs.Seated.{TableId, table_id_coded};

    ghost Value = { TableId };

    ghost coded = { table_id_coded };

    ghost view = { λ s. s.table.shared.table_id };

    ghost invariant = { λ s. (s.table.shared.table_id.words ≡ 2) × (s.table.shared.table_id.slots ≡ 1) };
}

impl SharedHistory {
    // A history of no step, and the builder's seat.
    pub(crate) fn begin<J: Planned>(alloc: Global) -> Result<(SharedHistory, Token), OutOfMemory>
        requires short { length J.plan < 2 ^ 64 }
        ensures { IfOk result (λ r. (r.1.table_id ≡ r.0) × (r.1.me ≡ (starter J.plan, []))) }
    {
        let mut slots = Vec::with_capacity(alloc, 1)?;
        slots.push_reserved(Some(History::new(alloc)?));
        match Table::new(alloc, &[0, 0], slots, &()) {
            Ok((table, mut seat)) => {
                table.shared.load::<Begin<J>>(&mut seat, COUNT);
                Ok((SharedHistory { table }, seat))
            }
            Err(Refused { slots: _ }) => Err(OutOfMemory),
        }
    }

    // One try for the turn: the history that lies in the slot, or a miss.
    fn take(&self, seat: &mut Token) -> Option<History>
        requires own { seat.old.table_id ≡ self.now }
        requires idle { Idle seat.old.me }
        ensures own { seat.new.table_id ≡ seat.old.table_id }
        ensures taken { IfSome result (λ h. (held : ℕ) × (seat.new.me ≡ (taking seat.old.me.0 held, (0, None) ∷ [])) × IsTaken seat.old.me held h) }
        ensures missed { IfNone result (seat.new.me ≡ (missing seat.old.me.0, [])) }
    {
        let found = self.table.shared.compare_exchange::<Take>(seat, TURN, 0, 1);
        if found != 0 {
            return None;
        }
        let history = self.table.shared.exchange(seat, HISTORY, None).unwrap();
        Some(history)
    }

    // The count of steps, read with the turn.
    fn look(&self, seat: &mut Token) -> u64
        requires own { seat.old.table_id ≡ self.now }
        requires turn { (seat.old.me.0.live ≡ true) × (seat.old.me.0.turn ≡ true) }
        ensures own { seat.new.table_id ≡ seat.old.table_id }
        ensures look { (result ≡ seat.old.me.0.held) × (seat.new.me ≡ (looking seat.old.me.0, seat.old.me.1)) }
    {
        self.table.shared.load::<Look>(seat, COUNT)
    }

    // One step more was fed.
    fn bump(&self, seat: &mut Token)
        requires own { seat.old.table_id ≡ self.now }
        requires turn { (seat.old.me.0.live ≡ true) × (seat.old.me.0.turn ≡ true) × (seat.old.me.0.loaded ≡ false) }
        requires builder { (seat.old.me.0.builds ≡ true) × (seat.old.me.0.fed < length seat.old.me.0.plan) }
        ensures own { seat.new.table_id ≡ seat.old.table_id }
        ensures bump { seat.new.me ≡ (bumping seat.old.me.0, seat.old.me.1) }
    {
        self.table.shared.fetch_add::<Bump>(seat, COUNT, 1);
    }

    // The history back into the slot, and the turn given back.
    fn give(&self, seat: &mut Token, history: History)
        requires own { seat.old.table_id ≡ self.now }
        requires turn { (seat.old.me.1 ≡ (0, None) ∷ []) × (seat.old.me.0.live ≡ true) × (seat.old.me.0.turn ≡ true) }
        requires stands { Stands (take seat.old.me.0.held seat.old.me.0.plan) history }
        ensures own { seat.new.table_id ≡ seat.old.table_id }
        ensures give { seat.new.me ≡ (giving seat.old.me.0, []) }
    {
        let _ = self.table.shared.exchange(seat, HISTORY, Some(history));
        self.table.shared.store::<Give>(seat, TURN, 0);
    }

    // One try to answer a question. The count of the answer is the newest look.
    pub(crate) fn answer_once<G: Gate>(
        &self,
        seat: &mut Token,
        t: u64,
        path: Path,
        gate: &G,
    ) -> Option<Asked>
        requires own { seat.old.table_id ≡ self.now }
        requires idle { Idle seat.old.me }
        ensures own { seat.new.table_id ≡ seat.old.table_id }
        ensures look { IfSome result (λ a. (seat.new.me ≡ (answering seat.old.me.0 a.count, [])) × (seat.old.me.0.seen ≤ a.count)) }
        ensures answer { IfSome result (λ a. a.answer ≡ answer_after (take a.count seat.old.me.0.plan) t path) }
        ensures missed { IfNone result (seat.new.me ≡ (missing seat.old.me.0, [])) }
    {
        let history = self.take(seat)?;
        gate.pass(Who::Worker(0), Point::TurnHeld);
        let count = self.look(seat);
        let answer = history.answer(t, path);
        self.give(seat, history);
        Some(Asked { answer, count })
    }

    // One try to answer a question over a range. Its count is the newest look, also where memory runs out.
    pub fn range_once<G: Gate>(
        &self,
        alloc: Global,
        seat: &mut Token,
        span: (u64, u64),
        path: Path,
        gate: &G,
    ) -> Option<(Result<RangeAnswer, OutOfMemory>, u64)>
        requires own { seat.old.table_id ≡ self.now }
        requires idle { Idle seat.old.me }
        requires order { span.0 < span.1 }
        requires time { span.1 < TIME_END }
        ensures own { seat.new.table_id ≡ seat.old.table_id }
        ensures look { IfSome result (λ r. (seat.new.me ≡ (answering seat.old.me.0 r.1, [])) × (seat.old.me.0.seen ≤ r.1)) }
        ensures answer { IfSome result (λ r. IfOk r.0 (λ a. IsRange (take r.1 seat.old.me.0.plan) span.0 span.1 path a)) }
        ensures missed { IfNone result (seat.new.me ≡ (missing seat.old.me.0, [])) }
    {
        let history = self.take(seat)?;
        gate.pass(Who::Worker(0), Point::TurnHeld);
        let count = self.look(seat);
        let answer = range(alloc, &history, span.0, span.1, path);
        self.give(seat, history);
        Some((answer, count))
    }

    // One try to feed the next step of the plan. When memory runs out, the history is put back as it was.
    pub(crate) fn feed_once<G: Gate>(
        &self,
        seat: &mut Token,
        step: &Step,
        gate: &G,
    ) -> Option<Result<(), OutOfMemory>>
        requires own { seat.old.table_id ≡ self.now }
        requires idle { Idle seat.old.me }
        requires plan { IsPlan seat.old.me.0.plan }
        requires step { (seat.old.me.0.builds ≡ true) × IsNext seat.old.me.0.plan seat.old.me.0.fed step.now }
        ensures own { seat.new.table_id ≡ seat.old.table_id }
        ensures fed { IfSome result (λ r. MatchResult r (λ _. seat.new.me ≡ (feeding seat.old.me.0, [])) (λ _. seat.new.me ≡ (failing seat.old.me.0, []))) }
        ensures missed { IfNone result (seat.new.me ≡ (missing seat.old.me.0, [])) }
    {
        let mut history = self.take(seat)?;
        gate.pass(Who::Builder, Point::TurnHeld);
        if let Err(error) = history.apply(*step) {
            self.give(seat, history);
            return Some(Err(error));
        }
        self.bump(seat);
        self.give(seat, history);
        Some(Ok(()))
    }

    // The count of steps as the builder leaves it. Its seat is a pass's from then on.
    pub(crate) fn finish(&self, seat: &mut Token) -> u64
        requires own { seat.old.table_id ≡ self.now }
        requires idle { Idle seat.old.me }
        requires builder { seat.old.me.0.builds ≡ true }
        ensures own { seat.new.table_id ≡ seat.old.table_id }
        ensures finish { (result ≡ seat.old.me.0.fed) × (seat.new.me ≡ (finishing seat.old.me.0, [])) }
    {
        self.table.shared.load::<Finish>(seat, COUNT)
    }

    // The seat of a pass that has seen as much.
    pub(crate) fn split_seat(&self, seat: &mut Token) -> Token
        requires own { seat.old.table_id ≡ self.now }
        requires live { seat.old.me.0.live ≡ true }
        ensures kept { (seat.new.table_id ≡ seat.old.table_id) × (seat.new.me ≡ seat.old.me) }
        ensures given { (result.table_id ≡ seat.old.table_id) × (result.me ≡ (newcomer seat.old.me.0, [])) }
    {
        self.table.shared.split_seat::<Pair>(seat)
    }

    // Takes in what the seat of another pass has seen.
    pub(crate) fn join_seat(&self, seat: &mut Token, other: Token)
        requires own { (seat.old.table_id ≡ self.now) × (other.table_id ≡ self.now) }
        requires live { (seat.old.me.0.live ≡ true) × Idle other.me }
        ensures kept { (seat.new.table_id ≡ seat.old.table_id) × (seat.new.me ≡ (informed seat.old.me.0 other.me.0, seat.old.me.1)) }
    {
        self.table.shared.join_seat::<Pair>(seat, other);
    }
}
