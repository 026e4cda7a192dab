//! The highest and the lowest line of one slope through points.
ghost use Rattle.std.specs.Prelude.{◌<◌, ◌↔◌, length, IsTrue};
ghost use Rattle.hull_lines.specs.Lines.{IsHigher, IsHighest, IsLowest};

use crate::ClockPoint;
use clock_fraction::{Line, Slope};

/// Whether the line of this slope through the first point is higher than that through the second.
pub fn is_higher(slope: Slope, first: ClockPoint, second: ClockPoint) -> bool
    ensures { IsTrue result ↔ IsHigher slope first second }
{
    let p = u128::from(slope.p);
    let q = u128::from(slope.q);
    q * u128::from(second.y) + p * u128::from(first.x)
        < q * u128::from(first.y) + p * u128::from(second.x)
}

/// The highest of the lines of this slope through the points.
pub fn highest_line(points: &[ClockPoint], slope: Slope) -> Line
    requires { 0 < length points.now }
    ensures { IsHighest points.now slope result }
{
    let mut best = points[0];
    for point in points {
        if is_higher(slope, *point, best) {
            best = *point;
        }
    }
    Line {
        x0: best.x,
        y0: best.y,
        slope,
    }
}

/// The lowest of the lines of this slope through the points.
pub fn lowest_line(points: &[ClockPoint], slope: Slope) -> Line
    requires { 0 < length points.now }
    ensures { IsLowest points.now slope result }
{
    let mut best = points[0];
    for point in points {
        if is_higher(slope, best, *point) {
            best = *point;
        }
    }
    Line {
        x0: best.x,
        y0: best.y,
        slope,
    }
}
