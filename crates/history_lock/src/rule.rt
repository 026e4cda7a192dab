//! The rule of the table, and what each kind of step tells.

use crate::view::View;
use atomic_table::{Join, Play, Split, TableRule};
use history_core::History;
use std::marker::{Brand, PhantomData};

// The rule of the turn.
pub struct Turn;

impl TableRule<Option<History>, View, ()> for Turn {
    ghost use Rattle.history_lock.specs.Turn.{Keeps, unborn};

    ghost holds = { λ _. Keeps };

    ghost first = { λ _. unborn };
}

/// The plan that a table is opened with.
pub trait Planned {
    ghost use Rattle.std.specs.Prelude.{List};
    ghost use Rattle.kernel_provider.specs.declared.step.Step.{Step};

    ghost plan: { List Step };
}

impl Planned for Brand {
    ghost use Rattle.std.specs.Prelude.{[]};

    ghost plan = { [] };
}

// The builder's first step, which tells the rule the plan.
pub struct Begin<J: Planned> {
    marker: PhantomData<J>,
}

impl<J: Planned> Play<Option<History>, View> for Begin<J> {
    ghost use Rattle.history_lock.specs.Turn.{Begins};

    ghost then = { Begins J.plan };
}

// The turn, where it was free, with the history; else a miss.
pub struct Take;

impl Play<Option<History>, View> for Take {
    ghost use Rattle.history_lock.specs.Turn.{Takes};

    ghost then = { Takes };
}

// The count of steps, read with the turn.
pub struct Look;

impl Play<Option<History>, View> for Look {
    ghost use Rattle.history_lock.specs.Turn.{Looks};

    ghost then = { Looks };
}

// The count of steps, read by a builder that feeds no more.
pub struct Finish;

impl Play<Option<History>, View> for Finish {
    ghost use Rattle.history_lock.specs.Turn.{Finishes};

    ghost then = { Finishes };
}

// One step more was fed.
pub struct Bump;

impl Play<Option<History>, View> for Bump {
    ghost use Rattle.history_lock.specs.Turn.{Bumps};

    ghost then = { Bumps };
}

// The turn given back, with the history.
pub struct Give;

impl Play<Option<History>, View> for Give {
    ghost use Rattle.history_lock.specs.Turn.{Gives};

    ghost then = { Gives };
}

// A pass cut in two, and two made one.
pub struct Pair;

impl Split<View> for Pair {
    ghost use Rattle.history_lock.specs.Turn.{newcomer};

    ghost left = { λ v. v };

    ghost right = { newcomer };
}

impl Join<View> for Pair {
    ghost use Rattle.history_lock.specs.Turn.{informed, spent};

    ghost both = { informed };

    ghost spent = { spent };
}
