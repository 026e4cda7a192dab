//! The steepest and the flattest line between lower and upper points.
ghost use Rattle.std.specs.Prelude.{◌<◌, ◌≤◌, ◌^◌, ◌↔◌, length, IfOk, IsOk};
ghost use Rattle.hull_lines.specs.Outcomes.{IsMap, IsAbsent, IfMap, IfAbsent, IfRefused, IsMapOf, AreCounts, IsRefusal, LacksPoints};
ghost use Rattle.hull_lines.specs.Between.{IsMapBetween, IsApart};
ghost use Rattle.hull_lines.specs.Slopes.{IsUsable};

use crate::anchor::{highest_line, lowest_line};
use crate::range::SlopeRange;
use crate::slopes::slopes_between;
use crate::{Certificate, ClockPoint, Fit};
use clock_fraction::{PairMap, compare};
use std::cmp::Ordering;
use trace_types::OutOfMemory;

/// The lines of the least and the greatest slope, or that there is none between them.
fn fit_between(lower: &[ClockPoint], upper: &[ClockPoint], range: SlopeRange) -> Fit
    requires lower { 0 < length lower.now }
    requires upper { 0 < length upper.now }
    ensures map { IfMap result (IsMapBetween lower.now upper.now range) }
    ensures refused { IfRefused result (IsApart range) }
    ensures some { ¬ IsAbsent result }
{
    let least = range.least.slope;
    let greatest = range.greatest.slope;
    if compare(greatest, least) == Ordering::Less {
        return Fit::Refused(Certificate::Apart {
            least: range.least.bound,
            greatest: range.greatest.bound,
        });
    }
    Fit::Map(PairMap {
        steep: highest_line(lower, greatest),
        flat: lowest_line(upper, least),
    })
}

/// The steepest and the flattest line from one clock to another that pass over all lower points and under all upper
/// points, with slopes within `drift` parts in a million of 1. In each point, x is a time on the one clock and y on the
/// other: a lower point is a message to the one host, received at x and sent at y; an upper point is a message from it,
/// sent at x and not yet received at y. The method is that of Duda, Harrus, Haddad and Bernard (1987).
pub fn lines(lower: &[ClockPoint], upper: &[ClockPoint], drift: u32) -> Result<Fit, OutOfMemory>
    requires drift { (1 ≤ drift) × (drift ≤ 10000) }
    requires lower { length lower.now < 2 ^ 32 }
    requires upper { length upper.now < 2 ^ 32 }
    ensures map { IfOk result (λ fit. IfMap fit (IsMapOf lower.now upper.now drift)) }
    ensures absent { IfOk result (λ fit. IfAbsent fit (AreCounts lower.now upper.now)) }
    ensures refused { IfOk result (λ fit. IfRefused fit (IsRefusal lower.now upper.now drift)) }

    // no error comes: no memory is asked for
    ensures answers { IsOk result }

    // which of the three comes
    ensures mapped { IfOk result (λ fit. IsMap fit ↔ IsUsable lower.now upper.now drift) }
    ensures lacking { IfOk result (λ fit. IsAbsent fit ↔ LacksPoints lower.now upper.now) }
{
    if lower.is_empty() || upper.is_empty() {
        return Ok(Fit::Absent {
            lower: lower.len() as u32,
            upper: upper.len() as u32,
        });
    }
    match slopes_between(lower, upper, drift) {
        Ok(range) => Ok(fit_between(lower, upper, range)),
        Err(certificate) => Ok(Fit::Refused(certificate)),
    }
}
