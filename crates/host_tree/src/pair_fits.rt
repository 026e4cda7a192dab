//! What maps the clocks of each pair of hosts have.
ghost use Rattle.std.specs.Prelude.{◌≡◌, ◌<◌, ◌≤◌, ◌^◌, All, IfOk, length};
ghost use Rattle.host_tree.specs.Fits.{AreApartFromThemselves, AreFits, AreOutcomes};
ghost use Rattle.host_tree.specs.Points.{IsBetween};

use crate::points::{PointList, Side, gather};
use hull_lines::{Fit, lines};
use message_match::Messages;
use std::alloc::Global;
use trace_types::OutOfMemory;

/// What comes of the messages between each two of the hosts, for a drift in parts per million: the fit of a parent and a
/// child stands at the place `parent * hosts + child`. The only error is lack of memory.
pub fn fits(
    alloc: Global,
    hosts: u32,
    messages: &Messages,
    drift: u32,
) -> Result<Vec<Fit>, OutOfMemory>
    requires few { hosts ≤ 64 }
    requires between { All (IsBetween hosts) messages.now.matched.items }
    requires count { length messages.now.matched.items < 2 ^ 32 }
    requires drift { (1 ≤ drift) × (drift ≤ 10000) }
    ensures exact { IfOk result (λ fits. AreFits hosts messages.now.matched.items drift fits.items) }
    ensures own { IfOk result (λ fits. AreApartFromThemselves hosts fits.items) }
{
    let lower = gather(alloc, hosts, &messages.matched, Side::Lower)?;
    let upper = gather(alloc, hosts, &messages.matched, Side::Upper)?;
    outcomes(alloc, &lower, &upper, drift)
}

// What comes of the lists of points, place by place.
fn outcomes(
    alloc: Global,
    lower: &[PointList],
    upper: &[PointList],
    drift: u32,
) -> Result<Vec<Fit>, OutOfMemory>
    requires same { length lower.now ≡ length upper.now }
    requires lower { All (λ l. length l < 2 ^ 32) lower.now }
    requires upper { All (λ u. length u < 2 ^ 32) upper.now }
    requires drift { (1 ≤ drift) × (drift ≤ 10000) }
    ensures count { IfOk result (λ fits. length fits.items ≡ length lower.now) }
    ensures each { IfOk result (λ fits. AreOutcomes lower.now upper.now drift fits.items) }
{
    let mut fits = Vec::new(alloc);
    for place in 0..lower.len() {
        let fit = lines(lower[place].as_slice(), upper[place].as_slice(), drift)?;
        fits.push(fit)?;
    }
    Ok(fits)
}
