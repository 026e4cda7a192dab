//! Lines of a slope through a point.
ghost use Rattle.std.specs.Prelude.{◌<◌, ◌^◌, unsigned_abs};

use crate::Slope;

/// The line of this slope through the point (x0, y0), both in ns.
#[derive(Clone, Copy, Debug, PartialEq, Eq)]
pub struct Line {
    pub x0: u64,
    pub y0: u64,
    pub slope: Slope,
    pub ghost x0_below: { x0 < 2 ^ 62 },
    pub ghost y0_below: { y0 < 2 ^ 62 },
}

impl Line {
    ghost use Rattle.clock_fraction.specs.ClockMap.{IsFloorAt};

    /// The line's height at x, rounded down. It may be below 0, and past every time.
    pub fn floor_at(&self, x: u64) -> i128
        requires { x < 2 ^ 62 }
        ensures value { IsFloorAt self.now x result }
        ensures range { unsigned_abs result < 2 ^ 125 }
    {
        let run = i128::from(x) - i128::from(self.x0);
        let rise = i128::from(self.slope.p) * run;
        i128::from(self.y0) + rise.div_euclid(i128::from(self.slope.q))
    }
}
