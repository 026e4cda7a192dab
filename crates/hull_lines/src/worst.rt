//! The pair of points that a slope passes least.
ghost use Rattle.std.specs.Prelude.{◌≡◌, ◌<◌, ◌^◌, ◌↔◌, Some, All, length, slice_get, IsTrue};
ghost use Rattle.hull_lines.specs.Slopes.{Passes};
ghost use Rattle.hull_lines.specs.Worst.{IsNotHigher, IsPairOf, PassesAll};

use crate::ClockPoint;
use crate::anchor::is_higher;
use crate::range::PointPair;
use clock_fraction::Slope;

// The place of the highest of the points along a slope.
fn highest_place(points: &[ClockPoint], slope: Slope) -> usize
    requires { 0 < length points.now }
    ensures place { result < length points.now }
    ensures highest { (best : ClockPoint) → slice_get points.now result ≡ Some best → All (λ v. IsNotHigher slope v best) points.now }
{
    let mut place = 0;
    for at in 1..points.len() {
        if is_higher(slope, points[at], points[place]) {
            place = at;
        }
    }
    place
}

// The place of the lowest of them.
fn lowest_place(points: &[ClockPoint], slope: Slope) -> usize
    requires { 0 < length points.now }
    ensures place { result < length points.now }
    ensures lowest { (best : ClockPoint) → slice_get points.now result ≡ Some best → All (λ v. IsNotHigher slope best v) points.now }
{
    let mut place = 0;
    for at in 1..points.len() {
        if is_higher(slope, points[place], points[at]) {
            place = at;
        }
    }
    place
}

/// The highest lower point and the lowest upper one along a slope: where the slope passes these two, it passes all pairs, and
/// else no pair fails it more.
pub fn worst_pair(lower: &[ClockPoint], upper: &[ClockPoint], slope: Slope) -> PointPair
    requires lower { 0 < length lower.now }
    requires upper { 0 < length upper.now }
    requires few_lower { length lower.now < 2 ^ 32 }
    requires few_upper { length upper.now < 2 ^ 32 }
    ensures pair { IsPairOf lower.now upper.now result }
    ensures worst { Passes slope.p slope.q result.lower result.upper → PassesAll lower.now upper.now slope }
{
    let lower_place = highest_place(lower, slope);
    let upper_place = lowest_place(upper, slope);
    PointPair {
        lower: lower[lower_place],
        upper: upper[upper_place],
        lower_place: lower_place as u32,
        upper_place: upper_place as u32,
    }
}

/// Whether a slope passes a pair.
pub fn passes(slope: Slope, pair: PointPair) -> bool
    ensures { IsTrue result ↔ Passes slope.p slope.q pair.lower pair.upper }
{
    !is_higher(slope, pair.lower, pair.upper)
}
