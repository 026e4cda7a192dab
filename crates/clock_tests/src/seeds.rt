//! A thousand sets of few points, each compared with a check that tries every slope.
ghost use Rattle.std.specs.Prelude.{◌<◌, ◌≤◌, length};

use crate::brute::{Ratio, contradicts, tried_slopes};
use clock_fraction::{Line, Slope};
use hull_lines::{ClockPoint, Fit, lines};
use std::process::Abort;
use std::test::Fail;

/// The next of a sequence of numbers that looks random (Knuth's multiplier for 64 bits).
fn next(seed: &mut u64, limit: u64) -> u64
    requires { 0 < limit }
    ensures { result < limit }
{
    *seed = seed
        .wrapping_mul(6364136223846793005)
        .wrapping_add(1442695040888963407);
    (*seed >> 33) % limit
}

/// A point near the line of slope 1 that is so high at 0.
fn point(seed: &mut u64, height: u64, spread: u64) -> ClockPoint
    requires height { height < 100000 }
    requires spread { (0 < spread) × (spread < 1000) }
{
    let x = next(seed, 1000);
    let y = x + height + next(seed, spread);
    ClockPoint { x, y }
}

/// Four points: apart, on one line, or all the same.
fn four_points(seed: &mut u64, height: u64) -> [ClockPoint; 4]
    requires { height < 100000 }
{
    match next(seed, 4) {
        0 => [point(seed, height, 1); 4],
        1 => [
            point(seed, height, 1),
            point(seed, height, 1),
            point(seed, height, 1),
            point(seed, height, 1),
        ],
        _ => [
            point(seed, height, 8),
            point(seed, height, 8),
            point(seed, height, 8),
            point(seed, height, 8),
        ],
    }
}

/// Whether the slope is this fraction.
fn is_ratio(slope: Slope, ratio: Ratio) -> bool {
    let mine = Ratio {
        rise: i128::from(slope.p),
        run: i128::from(slope.q),
    };
    mine.above(ratio) == 0
}

/// Whether the line is at or above all points, and meets one of them.
fn lies_on_top(line: &Line, points: &[ClockPoint]) -> bool {
    points
        .iter()
        .all(|point| line.floor_at(point.x) >= i128::from(point.y))
        && points
            .iter()
            .any(|point| line.floor_at(point.x) == i128::from(point.y))
}

/// Whether the line is at or below all points, and meets one of them.
fn lies_below(line: &Line, points: &[ClockPoint]) -> bool {
    points
        .iter()
        .all(|point| line.floor_at(point.x) <= i128::from(point.y))
        && points
            .iter()
            .any(|point| line.floor_at(point.x) == i128::from(point.y))
}

/// Compares what comes of points with what comes of trying all slopes. Answers whether a map came.
fn compared<R: Abort>(
    rt: &R,
    lower: &[ClockPoint],
    upper: &[ClockPoint],
    drift: u32,
) -> Result<bool, Fail>
    requires drift { (1 ≤ drift) × (drift ≤ 10000) }
    requires lower { length lower.now ≤ 4 }
    requires upper { length upper.now ≤ 4 }
{
    match (
        lines(lower, upper, drift)?,
        tried_slopes(lower, upper, drift),
    ) {
        (Fit::Map(map), Some(found)) => {
            assert!(rt; is_ratio(map.steep.slope, found.greatest));
            assert!(rt; is_ratio(map.flat.slope, found.least));
            assert!(rt; lies_on_top(&map.steep, lower));
            assert!(rt; lies_below(&map.flat, upper));
            Ok(true)
        }
        (Fit::Refused(certificate), None) => {
            assert!(rt; contradicts(certificate, lower, upper, drift));
            Ok(false)
        }
        _ => panic!(rt; "a map where no slope is admissible, or none where one is"),
    }
}

/// Whether a map comes of the points that the seed gives.
fn has_map<R: Abort>(rt: &R, seed: &mut u64) -> Result<bool, Fail> {
    let lower = four_points(seed, 1000);
    let height = 996 + next(seed, 12);
    let upper = four_points(seed, height);
    let drift = match next(seed, 3) {
        0 => 1,
        1 => 1000,
        _ => 10_000,
    };
    let lower_count = 1 + next(seed, 4) as usize;
    let upper_count = 1 + next(seed, 4) as usize;
    compared(rt, &lower[..lower_count], &upper[..upper_count], drift)
}

// The number of maps is that of a program of a few lines that has fractions, run over the same sequence.
#[test]
fn a_thousand_sets(rt: HostRuntime) -> Result<(), Fail> {
    let mut seed = 20240229;
    let mut maps: u32 = 0;
    for _ in 0..1000u32 {
        if has_map(&rt, &mut seed)? {
            maps += 1;
        }
    }
    assert_eq!(rt; maps, 570);
    Ok(())
}
