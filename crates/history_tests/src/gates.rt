//! Gates at which tests hold threads.
use ht_outside::{Gate, Point, Who};
use std::sync::atomic::AtomicU64;
use std::sync::atomic::Ordering::SeqCst;
use std::thread;

// How often a thread looks before it gives up.
const TURNS: u32 = 10_000_000;

// Waits until the number is no longer 0, or gives up.
fn wait_for(number: &AtomicU64) {
    for _ in 0..TURNS {
        if number.load(SeqCst) != 0 {
            return;
        }
        thread::yield_now();
    }
}

/// Holds the builder while it has the turn, until it is let go.
#[derive(Drop)]
pub struct HoldsTheTurn {
    entered: AtomicU64,
    released: AtomicU64,
}

impl HoldsTheTurn {
    pub fn new() -> HoldsTheTurn {
        HoldsTheTurn {
            entered: AtomicU64::new(0),
            released: AtomicU64::new(0),
        }
    }

    /// Waits until the builder has the turn.
    pub fn wait(&self) {
        wait_for(&self.entered);
    }

    /// Lets the builder go.
    pub fn release(&self) {
        self.released.store(1, SeqCst);
    }
}

impl Gate for HoldsTheTurn {
    fn pass(&self, who: Who, point: Point) {
        if who == Who::Builder && point == Point::TurnHeld {
            self.entered.store(1, SeqCst);
            wait_for(&self.released);
        }
    }
}

/// Holds the builder before one of its steps until a question was answered, and counts who had the turn.
#[derive(Drop)]
pub struct HoldsHalfWay {
    half: u64,
    begun: AtomicU64,
    answered: AtomicU64,
    fed: AtomicU64,
    asked: AtomicU64,
}

impl HoldsHalfWay {
    pub fn new(half: u64) -> HoldsHalfWay {
        HoldsHalfWay {
            half,
            begun: AtomicU64::new(0),
            answered: AtomicU64::new(0),
            fed: AtomicU64::new(0),
            asked: AtomicU64::new(0),
        }
    }

    /// How often the builder and all others had the turn.
    pub fn turns(&self) -> (u64, u64) {
        (self.fed.load(SeqCst), self.asked.load(SeqCst))
    }

    // Before a step of the builder.
    fn begin(&self) {
        if self.begun.fetch_add(1, SeqCst) == self.half {
            wait_for(&self.answered);
        }
    }
}

impl Gate for HoldsHalfWay {
    fn pass(&self, who: Who, point: Point) {
        match point {
            Point::BeforeEvent => self.begin(),
            Point::Answered => {
                self.answered.store(1, SeqCst);
            }
            Point::TurnHeld => {
                let _ = match who {
                    Who::Builder => self.fed.fetch_add(1, SeqCst),
                    Who::Worker(_) => self.asked.fetch_add(1, SeqCst),
                };
            }
        }
    }
}
