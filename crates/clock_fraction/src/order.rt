//! The order of slopes.
ghost use Rattle.std.specs.Prelude.{◌≡◌, ◌↔◌};
ghost use Rattle.clock_fraction.specs.Fractions.{IsBelow, IsSame};

use crate::Slope;
use std::cmp::Ordering;

/// Compares two fractions, whether or not they are in lowest terms.
pub fn compare(a: Slope, b: Slope) -> Ordering
    ensures less { (result ≡ Ordering.Less) ↔ IsBelow a b }
    ensures equal { (result ≡ Ordering.Equal) ↔ IsSame a b }
    ensures greater { (result ≡ Ordering.Greater) ↔ IsBelow b a }
{
    let left = u128::from(a.p) * u128::from(b.q);
    let right = u128::from(b.p) * u128::from(a.q);
    left.cmp(&right)
}
