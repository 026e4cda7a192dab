//! The slopes between points by trying each, and certificates by recomputing them. The numbers are small, so nothing wraps.
use hull_lines::{Bound, Certificate, ClockPoint};

const MILLION: i128 = 1_000_000;

/// The fraction rise / run; the run is above 0.
#[derive(Clone, Copy)]
pub struct Ratio {
    pub rise: i128,
    pub run: i128,
}

impl Ratio {
    /// How much greater this fraction is than the other, times both runs.
    pub fn above(self, other: Ratio) -> i128 {
        let mine = self.rise.wrapping_mul(other.run);
        mine.wrapping_sub(other.rise.wrapping_mul(self.run))
    }
}

/// The slope of 1 and so many parts in a million.
pub fn drifted(parts: i128) -> Ratio {
    Ratio {
        rise: MILLION.wrapping_add(parts),
        run: MILLION,
    }
}

/// From one point to another, however they stand.
fn from_to(from: ClockPoint, to: ClockPoint) -> Ratio {
    Ratio {
        rise: i128::from(to.y).wrapping_sub(i128::from(from.y)),
        run: i128::from(to.x).wrapping_sub(i128::from(from.x)),
    }
}

/// Whether a slope brings the lower point to the upper one's time without passing above the upper point.
fn passes(slope: Ratio, lower: ClockPoint, upper: ClockPoint) -> bool {
    let way = from_to(lower, upper);
    slope.rise.wrapping_mul(way.run) <= slope.run.wrapping_mul(way.rise)
}

/// Whether a slope is within the drift and passes all pairs.
fn is_admissible(slope: Ratio, lower: &[ClockPoint], upper: &[ClockPoint], drift: i128) -> bool {
    if slope.above(drifted(drift)) > 0 || slope.above(drifted(drift.wrapping_neg())) < 0 {
        return false;
    }
    lower
        .iter()
        .all(|l| upper.iter().all(|u| passes(slope, *l, *u)))
}

/// The least and the greatest slope among those tried.
#[derive(Clone, Copy)]
pub struct Extremes {
    pub least: Ratio,
    pub greatest: Ratio,
}

fn widened(found: Option<Extremes>, slope: Ratio) -> Extremes {
    match found {
        None => Extremes {
            least: slope,
            greatest: slope,
        },
        Some(old) => Extremes {
            least: if slope.above(old.least) < 0 {
                slope
            } else {
                old.least
            },
            greatest: if slope.above(old.greatest) > 0 {
                slope
            } else {
                old.greatest
            },
        },
    }
}

/// The least and the greatest admissible slope among those of the drift and of all pairs, if one is admissible.
pub fn tried_slopes(lower: &[ClockPoint], upper: &[ClockPoint], drift: u32) -> Option<Extremes> {
    let drift = i128::from(drift);
    let mut found = None;
    for slope in [drifted(drift), drifted(drift.wrapping_neg())] {
        if is_admissible(slope, lower, upper, drift) {
            found = Some(widened(found, slope));
        }
    }
    for l in lower {
        for u in upper {
            let slope = if l.x < u.x {
                from_to(*l, *u)
            } else {
                from_to(*u, *l)
            };
            if slope.run > 0 && is_admissible(slope, lower, upper, drift) {
                found = Some(widened(found, slope));
            }
        }
    }
    found
}

/// The slope that a bound from below sets, or None where it sets none.
fn from_below(
    bound: Bound,
    lower: &[ClockPoint],
    upper: &[ClockPoint],
    drift: i128,
) -> Option<Ratio> {
    let Bound::Pair { lower: i, upper: j } = bound else {
        return Some(drifted(drift.wrapping_neg()));
    };
    let l = lower.get(i as usize)?;
    let u = upper.get(j as usize)?;
    if u.x < l.x {
        Some(from_to(*u, *l))
    } else {
        None
    }
}

/// The slope that a bound from above sets, or None where it sets none.
fn from_above(
    bound: Bound,
    lower: &[ClockPoint],
    upper: &[ClockPoint],
    drift: i128,
) -> Option<Ratio> {
    let Bound::Pair { lower: i, upper: j } = bound else {
        return Some(drifted(drift));
    };
    let l = lower.get(i as usize)?;
    let u = upper.get(j as usize)?;
    if l.x < u.x {
        Some(from_to(*l, *u))
    } else {
        None
    }
}

/// Whether the points at these places are at one time, the upper one below the lower one.
fn meet_below(lower: Option<&ClockPoint>, upper: Option<&ClockPoint>) -> bool {
    match (lower, upper) {
        (Some(l), Some(u)) => l.x == u.x && u.y < l.y,
        _ => false,
    }
}

/// Whether the certificate is a contradiction.
pub fn contradicts(
    certificate: Certificate,
    lower: &[ClockPoint],
    upper: &[ClockPoint],
    drift: u32,
) -> bool {
    let drift = i128::from(drift);
    match certificate {
        Certificate::Meet { lower: i, upper: j } => meet_below(
            lower.get(i as usize),
            upper.get(j as usize),
        ),
        Certificate::Apart { least, greatest } => {
            match (
                from_below(least, lower, upper, drift),
                from_above(greatest, lower, upper, drift),
            ) {
                (Some(below), Some(above)) => below.above(above) > 0,
                _ => false,
            }
        }
    }
}
