//! The slopes that pass each pair of a lower and an upper point.
ghost use Rattle.std.specs.Prelude.{◌<◌, ◌≤◌, ◌^◌, length, IfOk, IfErr};
ghost use Rattle.hull_lines.specs.Certificates.{IsContradiction};
ghost use Rattle.hull_lines.specs.Ranges.{IsRange, IsRowNarrowed, IsRowRefusal, IsWithinDrift};

use crate::range::{PointPair, Side, SlopeRange};
use crate::{Bound, Certificate, ClockPoint};
use clock_fraction::Slope;

const MILLION: u64 = 1_000_000;

/// The slopes within so many parts in a million of 1.
pub fn slopes_within(drift: u32) -> SlopeRange
    requires { drift ≤ 10000 }
    ensures { IsWithinDrift drift result }
{
    let drift = u64::from(drift);
    SlopeRange {
        least: Side {
            slope: Slope {
                p: MILLION - drift,
                q: MILLION,
            },
            bound: Bound::Fixed,
        },
        greatest: Side {
            slope: Slope {
                p: MILLION + drift,
                q: MILLION,
            },
            bound: Bound::Fixed,
        },
    }
}

/// The slopes of the range that pass the lower point, at its place, with each upper point.
fn narrowed_by_row(
    range: SlopeRange,
    lower: ClockPoint,
    lower_place: u32,
    upper: &[ClockPoint],
) -> Result<SlopeRange, Certificate>
    requires { length upper.now < 2 ^ 32 }
    ensures narrowed { IfOk result (IsRowNarrowed range lower lower_place upper.now) }
    ensures refused { IfErr result (IsRowRefusal lower lower_place upper.now) }
{
    let mut range = range;
    for (place, point) in upper.iter().enumerate() {
        let pair = PointPair {
            lower,
            upper: *point,
            lower_place,
            upper_place: place as u32,
        };
        range = range.narrowed(pair)?;
    }
    Ok(range)
}

/// The slopes within so many parts in a million of 1 that pass each pair, found by trying all pairs.
pub fn slopes_by_all_pairs(
    lower: &[ClockPoint],
    upper: &[ClockPoint],
    drift: u32,
) -> Result<SlopeRange, Certificate>
    requires drift { drift ≤ 10000 }
    requires lower { length lower.now < 2 ^ 32 }
    requires upper { length upper.now < 2 ^ 32 }
    ensures range { IfOk result (IsRange lower.now upper.now drift) }
    ensures refused { IfErr result (IsContradiction lower.now upper.now drift) }
{
    let mut range = slopes_within(drift);
    for (place, point) in lower.iter().enumerate() {
        range = narrowed_by_row(range, *point, place as u32, upper)?;
    }
    Ok(range)
}
