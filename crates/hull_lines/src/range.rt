//! Slopes from a least one to a greatest one, narrowed by pairs of points.
use crate::{Bound, Certificate, ClockPoint};
use clock_fraction::{Slope, compare};
use std::cmp::Ordering;

/// A slope that bounds others, and what made it do so.
#[derive(Clone, Copy)]
pub struct Side {
    pub slope: Slope,
    pub bound: Bound,
}

/// The slopes from the least to the greatest, both with them. There are none where the least is the greater.
#[derive(Clone, Copy)]
pub struct SlopeRange {
    pub least: Side,
    pub greatest: Side,
}

/// A lower and an upper point, with their places.
#[derive(Clone, Copy)]
pub struct PointPair {
    pub lower: ClockPoint,
    pub upper: ClockPoint,
    pub lower_place: u32,
    pub upper_place: u32,
}

impl SlopeRange {
    ghost use Rattle.std.specs.Prelude.{◌≡◌, ◌<◌, IfOk, IfErr};
    ghost use Rattle.hull_lines.specs.Ranges.{IsNarrowed, IsPairRefusal};

    /// The slopes of this range that pass the pair.
    pub fn narrowed(self, pair: PointPair) -> Result<SlopeRange, Certificate>
        ensures narrowed { IfOk result (IsNarrowed self pair) }
        ensures refused { IfErr result (IsPairRefusal pair) }
    {
        match pair.lower.x.cmp(&pair.upper.x) {
            Ordering::Less => self.narrowed_from_above(pair),
            Ordering::Greater => Ok(self.narrowed_from_below(pair)),
            Ordering::Equal => self.narrowed_at_one_time(pair),
        }
    }

    fn narrowed_from_above(self, pair: PointPair) -> Result<SlopeRange, Certificate>
        requires { pair.lower.x < pair.upper.x }
        ensures narrowed { IfOk result (IsNarrowed self pair) }
        ensures refused { IfErr result (IsPairRefusal pair) }
    {
        let bound = Bound::Pair {
            lower: pair.lower_place,
            upper: pair.upper_place,
        };
        if pair.upper.y < pair.lower.y {
            return Err(Certificate::Apart {
                least: Bound::Fixed,
                greatest: bound,
            });
        }
        let slope = Slope {
            p: pair.upper.y - pair.lower.y,
            q: pair.upper.x - pair.lower.x,
        };
        if compare(slope, self.greatest.slope) == Ordering::Less {
            Ok(SlopeRange {
                least: self.least,
                greatest: Side { slope, bound },
            })
        } else {
            Ok(self)
        }
    }

    fn narrowed_from_below(self, pair: PointPair) -> SlopeRange
        requires { pair.upper.x < pair.lower.x }
        ensures { IsNarrowed self pair result }
    {
        if pair.lower.y < pair.upper.y {
            return self;
        }
        let bound = Bound::Pair {
            lower: pair.lower_place,
            upper: pair.upper_place,
        };
        let slope = Slope {
            p: pair.lower.y - pair.upper.y,
            q: pair.lower.x - pair.upper.x,
        };
        if compare(self.least.slope, slope) == Ordering::Less {
            SlopeRange {
                least: Side { slope, bound },
                greatest: self.greatest,
            }
        } else {
            self
        }
    }

    fn narrowed_at_one_time(self, pair: PointPair) -> Result<SlopeRange, Certificate>
        requires { pair.lower.x ≡ pair.upper.x }
        ensures narrowed { IfOk result (IsNarrowed self pair) }
        ensures refused { IfErr result (IsPairRefusal pair) }
    {
        if pair.upper.y < pair.lower.y {
            return Err(Certificate::Meet {
                lower: pair.lower_place,
                upper: pair.upper_place,
            });
        }
        Ok(self)
    }
}
