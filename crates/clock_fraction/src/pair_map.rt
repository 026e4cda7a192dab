//! Maps between the times of two clocks.
ghost use Rattle.std.specs.Prelude.{◌<◌, ◌^◌};

use crate::Line;

const GREATEST_TIME: i128 = 0x3fff_ffff_ffff_ffff;

/// Takes times of one clock to another: half way between a steep line and a flat one.
#[derive(Clone, Copy, Debug, PartialEq, Eq)]
pub struct PairMap {
    pub steep: Line,
    pub flat: Line,
}

impl PairMap {
    ghost use Rattle.clock_fraction.specs.ClockMap.{IsMapAt};

    /// The time on the other clock, in ns, at the time x on this one. A time before 0 counts as 0, and one past the
    /// greatest as the greatest.
    pub fn map(&self, x: u64) -> u64
        requires { x < 2 ^ 62 }
        ensures value { IsMapAt self.now x result }
        ensures range { result < 2 ^ 62 }
    {
        let sum = self.steep.floor_at(x) + self.flat.floor_at(x);
        sum.div_euclid(2).clamp(0, GREATEST_TIME) as u64
    }
}
