//! The slopes that pass each pair of a lower and an upper point, found by a few pairs.
ghost use Rattle.std.specs.Prelude.{◌<◌, ◌≤◌, ◌^◌, ◌↔◌, length, IfErr, IfNone, IfOk, IfSome, IsTrue};
ghost use Rattle.hull_lines.specs.Certificates.{IsContradiction};
ghost use Rattle.hull_lines.specs.Ranges.{IsRange};
ghost use Rattle.hull_lines.specs.Worst.{HasNoSlope, IsNarrowedByOne, IsRefusedByOne, IsTight};

use crate::range::SlopeRange;
use crate::rows::{slopes_by_all_pairs, slopes_within};
use crate::worst::{passes, worst_pair};
use crate::{Certificate, ClockPoint};
use clock_fraction::compare;
use std::cmp::Ordering;

// By how many pairs a range is narrowed at most before all pairs are tried. From one pair to the next, either the failure or the
// time between the pair's points is at most half of what it was (Dinkelbach), so some ten pairs do for thousands of points.
const PASSES: usize = 256;

fn has_no_slope(range: SlopeRange) -> bool
    ensures { IsTrue result ↔ HasNoSlope range }
{
    compare(range.greatest.slope, range.least.slope) == Ordering::Less
}

// The range, narrowed by a pair that its greatest or its least slope fails; None where no pair narrows it further.
fn narrowed_once(
    range: SlopeRange,
    lower: &[ClockPoint],
    upper: &[ClockPoint],
) -> Result<Option<SlopeRange>, Certificate>
    requires lower { 0 < length lower.now }
    requires upper { 0 < length upper.now }
    requires few_lower { length lower.now < 2 ^ 32 }
    requires few_upper { length upper.now < 2 ^ 32 }
    ensures narrowed { IfOk result (λ r. IfSome r (IsNarrowedByOne lower.now upper.now range)) }
    ensures tight { IfOk result (λ r. IfNone r (IsTight lower.now upper.now range)) }
    ensures refused { IfErr result (IsRefusedByOne lower.now upper.now) }
{
    if has_no_slope(range) {
        return Ok(None);
    }
    let steep = worst_pair(lower, upper, range.greatest.slope);
    if !passes(range.greatest.slope, steep) {
        return Ok(Some(range.narrowed(steep)?));
    }
    let flat = worst_pair(lower, upper, range.least.slope);
    if !passes(range.least.slope, flat) {
        return Ok(Some(range.narrowed(flat)?));
    }
    Ok(None)
}

/// The slopes within so many parts in a million of 1 that pass each pair.
pub fn slopes_between(
    lower: &[ClockPoint],
    upper: &[ClockPoint],
    drift: u32,
) -> Result<SlopeRange, Certificate>
    requires drift { drift ≤ 10000 }
    requires some_lower { 0 < length lower.now }
    requires some_upper { 0 < length upper.now }
    requires lower { length lower.now < 2 ^ 32 }
    requires upper { length upper.now < 2 ^ 32 }
    ensures range { IfOk result (IsRange lower.now upper.now drift) }
    ensures refused { IfErr result (IsContradiction lower.now upper.now drift) }
{
    let mut range = slopes_within(drift);
    for _ in 0..PASSES {
        match narrowed_once(range, lower, upper)? {
            Some(narrowed) => range = narrowed,
            None => return Ok(range),
        }
    }
    slopes_by_all_pairs(lower, upper, drift)
}
