//! Lines between a few points, each computed by hand.
ghost use Rattle.std.specs.Prelude.{◌<◌, ◌≤◌, ◌^◌, length};

use clock_fraction::{PairMap, Slope, compare};
use hull_lines::{Bound, Certificate, ClockPoint, Fit, laws, lines};
use std::cmp::Ordering;
use std::process::Abort;
use std::test::Fail;

const GREATEST: u64 = 0x3fff_ffff_ffff_ffff;

const FIVE_HOURS: u64 = 18_000_000_000_000;

/// The map between these points, which have one.
fn map_between<R: Abort>(
    rt: &R,
    lower: &[ClockPoint],
    upper: &[ClockPoint],
    drift: u32,
) -> Result<PairMap, Fail>
    requires drift { (1 ≤ drift) × (drift ≤ 10000) }
    requires lower { length lower.now < 2 ^ 32 }
    requires upper { length upper.now < 2 ^ 32 }
{
    match lines(lower, upper, drift)? {
        Fit::Map(map) => Ok(map),
        _ => panic!(rt; "no map"),
    }
}

/// Where a map takes a time, between a lower and an upper point.
fn time_between<R: Abort>(
    rt: &R,
    lower: ClockPoint,
    upper: ClockPoint,
    drift: u32,
    x: u64,
) -> Result<u64, Fail>
    requires drift { (1 ≤ drift) × (drift ≤ 10000) }
    requires x { x < 2 ^ 62 }
{
    let map = map_between(rt, &[lower], &[upper], drift)?;
    Ok(map.map(x))
}

/// What comes of a lower and an upper point.
fn fit_of_two(lower: ClockPoint, upper: ClockPoint, drift: u32) -> Result<Fit, Fail>
    requires { (1 ≤ drift) × (drift ≤ 10000) }
{
    Ok(lines(&[lower], &[upper], drift)?)
}

/// Whether the lines have these slopes, as fractions.
fn has_slopes(map: &PairMap, steep: Slope, flat: Slope) -> bool {
    compare(map.steep.slope, steep) == Ordering::Equal
        && compare(map.flat.slope, flat) == Ordering::Equal
}

// Steep: 1000 and 1000 + 100.1, or 1000 + 101. Flat: 1199 - 99.9 or 1199 - 99, and 1199.
#[test]
fn slopes_of_the_drift(rt: HostRuntime) -> Result<(), Fail> {
    let lower = ClockPoint { x: 500, y: 1000 };
    let upper = ClockPoint { x: 600, y: 1199 };
    let map = map_between(&rt, &[lower], &[upper], 1000)?;
    assert!(rt; has_slopes(&map, Slope { p: 1001, q: 1000 }, Slope { p: 999, q: 1000 }));
    assert_eq!(rt; map.map(500), 1049);
    assert_eq!(rt; map.map(600), 1149);
    let map = map_between(&rt, &[lower], &[upper], 10000)?;
    assert!(rt; has_slopes(&map, Slope { p: 101, q: 100 }, Slope { p: 99, q: 100 }));
    assert_eq!(rt; map.map(500), 1050);
    assert_eq!(rt; map.map(600), 1150);
    Ok(())
}

// The steep line has slope 1, which the pair allows: 500. The flat line: 1000 - 499.5.
#[test]
fn a_slope_of_a_pair_from_above(rt: HostRuntime) -> Result<(), Fail> {
    let map = map_between(
        &rt,
        &[ClockPoint { x: 0, y: 0 }],
        &[ClockPoint { x: 1000, y: 1000 }],
        1000,
    )?;
    assert!(rt; has_slopes(&map, Slope { p: 1, q: 1 }, Slope { p: 999, q: 1000 }));
    assert_eq!(rt; map.steep.floor_at(500), 500);
    assert_eq!(rt; map.flat.floor_at(500), 500);
    Ok(())
}

// The flat line has slope 1: 510. The steep line: 1010 - 500.5.
#[test]
fn a_slope_of_a_pair_from_below(rt: HostRuntime) -> Result<(), Fail> {
    let map = map_between(
        &rt,
        &[ClockPoint { x: 1000, y: 1010 }],
        &[ClockPoint { x: 0, y: 10 }],
        1000,
    )?;
    assert!(rt; has_slopes(&map, Slope { p: 1001, q: 1000 }, Slope { p: 1, q: 1 }));
    assert_eq!(rt; map.steep.floor_at(500), 509);
    assert_eq!(rt; map.flat.floor_at(500), 510);
    Ok(())
}

// Of the lower points the second is farther above a line of slope 1.001: at 0 the line is 1005 - 1001 high. The flat
// line is 3000 - 1998 high there, as the second upper point is the lower one.
#[test]
fn lines_through_the_second_points(rt: HostRuntime) -> Result<(), Fail> {
    let lower = [ClockPoint { x: 0, y: 0 }, ClockPoint { x: 1000, y: 1005 }];
    let upper = [
        ClockPoint { x: 1000, y: 2500 },
        ClockPoint { x: 2000, y: 3000 },
    ];
    let map = map_between(&rt, &lower, &upper, 1000)?;
    assert!(rt; has_slopes(&map, Slope { p: 1001, q: 1000 }, Slope { p: 999, q: 1000 }));
    assert_eq!(rt; map.steep.floor_at(0), 4);
    assert_eq!(rt; map.flat.floor_at(0), 1002);
    assert_eq!(rt; map.map(0), 503);
    Ok(())
}

// 100 + 500.5 and 1300 - 499.5, each rounded down, in the one direction and the other
#[test]
fn clocks_hours_apart(rt: HostRuntime) -> Result<(), Fail> {
    let lower = ClockPoint {
        x: FIVE_HOURS + 500,
        y: 100,
    };
    let upper = ClockPoint {
        x: FIVE_HOURS + 1500,
        y: 1300,
    };
    assert_eq!(rt;
        time_between(&rt, lower, upper, 1000, FIVE_HOURS + 1000)?,
        700
    );
    let lower = ClockPoint {
        x: 500,
        y: FIVE_HOURS + 100,
    };
    let upper = ClockPoint {
        x: 1500,
        y: FIVE_HOURS + 1300,
    };
    assert_eq!(rt;
        time_between(&rt, lower, upper, 1000, 1000)?,
        FIVE_HOURS + 700
    );
    Ok(())
}

// With M = 2^62 - 1, the steep line has slope 1, and the flat one is M / 1000000 high at 0: 4611686018427. With the points
// the other way round the flat one has slope 1, and the steep one, 1000001 / 1000000, is -M / 1000000 high at 0.
#[test]
fn the_first_and_the_last_time(rt: HostRuntime) -> Result<(), Fail> {
    let first = ClockPoint { x: 0, y: 0 };
    let last = ClockPoint {
        x: GREATEST,
        y: GREATEST,
    };
    let map = map_between(&rt, &[first], &[last], 1)?;
    assert_eq!(rt; map.map(0), 2305843009213);
    assert_eq!(rt; map.map(GREATEST), GREATEST);
    let map = map_between(&rt, &[last], &[first], 1)?;
    assert_eq!(rt; map.steep.floor_at(0), -4611686018428);
    assert_eq!(rt; map.map(0), 0);
    assert_eq!(rt; map.map(GREATEST), GREATEST);
    Ok(())
}

// Steep: 1000001 and 1010000 at 1000000. Flat: 2000000 - 999999 and 2000000 - 990000 at 0.
#[test]
fn the_least_and_the_greatest_drift(rt: HostRuntime) -> Result<(), Fail> {
    let lower = ClockPoint { x: 0, y: 0 };
    let upper = ClockPoint {
        x: 1_000_000,
        y: 2_000_000,
    };
    assert_eq!(rt; time_between(&rt, lower, upper, 1, 0)?, 500_000);
    assert_eq!(rt; time_between(&rt, lower, upper, 1, 1_000_000)?, 1_500_000);
    assert_eq!(rt; time_between(&rt, lower, upper, 10_000, 0)?, 505_000);
    assert_eq!(rt;
        time_between(&rt, lower, upper, 10_000, 1_000_000)?,
        1_505_000
    );
    Ok(())
}

// An upper point far above a later lower one says nothing: 100, and 5000 + 999.
#[test]
fn a_pair_that_bounds_nothing(rt: HostRuntime) -> Result<(), Fail> {
    let lower = ClockPoint { x: 1000, y: 100 };
    let upper = ClockPoint { x: 0, y: 5000 };
    assert_eq!(rt; time_between(&rt, lower, upper, 1000, 1000)?, 3049);
    Ok(())
}

#[test]
fn points_that_meet(rt: HostRuntime) -> Result<(), Fail> {
    let lower = ClockPoint { x: 500, y: 1000 };
    let meet = Fit::Refused(Certificate::Meet { lower: 0, upper: 0 });
    assert_eq!(rt;
        fit_of_two(lower, ClockPoint { x: 500, y: 999 }, 1000)?,
        meet
    );
    assert_eq!(rt;
        time_between(&rt, lower, ClockPoint { x: 500, y: 1000 }, 1000, 500)?,
        1000
    );
    Ok(())
}

// The slope is at most 1/2, or falls; and at least 2.
#[test]
fn pairs_apart_from_the_drift(rt: HostRuntime) -> Result<(), Fail> {
    let pair = Bound::Pair { lower: 0, upper: 0 };
    let flat = Fit::Refused(Certificate::Apart {
        least: Bound::Fixed,
        greatest: pair,
    });
    let lower = ClockPoint { x: 1000, y: 2000 };
    assert_eq!(rt;
        fit_of_two(lower, ClockPoint { x: 2000, y: 2500 }, 1000)?,
        flat
    );
    assert_eq!(rt;
        fit_of_two(lower, ClockPoint { x: 2000, y: 1999 }, 1000)?,
        flat
    );
    let steep = Fit::Refused(Certificate::Apart {
        least: pair,
        greatest: Bound::Fixed,
    });
    assert_eq!(rt; fit_of_two(lower, ClockPoint { x: 0, y: 0 }, 1000)?, steep);
    Ok(())
}

// The slope is at most 1, from the first lower point, and at least 1.001, to the second: both within the drift of 1.01.
#[test]
fn pairs_apart_from_each_other(rt: HostRuntime) -> Result<(), Fail> {
    let lower = [ClockPoint { x: 0, y: 0 }, ClockPoint { x: 2000, y: 2001 }];
    let upper = [ClockPoint { x: 1000, y: 1000 }];
    let apart = Certificate::Apart {
        least: Bound::Pair { lower: 1, upper: 0 },
        greatest: Bound::Pair { lower: 0, upper: 0 },
    };
    assert_eq!(rt; lines(&lower, &upper, 10_000)?, Fit::Refused(apart));
    Ok(())
}

#[test]
fn missing_points(rt: HostRuntime) -> Result<(), Fail> {
    let point = ClockPoint { x: 500, y: 1000 };
    assert_eq!(rt;
        lines(&[point], &[], 1000)?,
        Fit::Absent { lower: 1, upper: 0 }
    );
    assert_eq!(rt;
        lines(&[], &[point, point], 1000)?,
        Fit::Absent { lower: 0, upper: 2 }
    );
    assert_eq!(rt; lines(&[], &[], 1000)?, Fit::Absent { lower: 0, upper: 0 });
    Ok(())
}

// Laws do nothing, so nothing is asserted here: that this is proved shows that a caller can meet what they need.
#[test]
fn laws_can_be_called() {
    let points = [ClockPoint { x: 500, y: 1000 }];
    laws::contradiction_excludes_slopes(&points, &points, 1000);
    laws::one_steep_line(&points, &points, 1000);
    laws::one_flat_line(&points, &points, 1000);
}
