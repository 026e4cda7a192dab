//! Laws of lines and maps. These functions do nothing: each is called for what it ensures.
ghost use Rattle.std.specs.Prelude.{◌≡◌, ℕ, ℤ, ◌≤◌};
ghost use Rattle.clock_fraction.specs.ClockMap.{IsFloorAt, IsMapAt};

use crate::{Line, PairMap};

/// A line has one height at x, rounded down.
pub fn one_floor(line: &Line, x: u64)
    ensures { (f g : ℤ) → IsFloorAt line.now x f → IsFloorAt line.now x g → f ≡ g }
{
    let _ = line;
    let _ = x;
}

/// A map takes x to one time.
pub fn one_time(map: &PairMap, x: u64)
    ensures { (s t : ℕ) → IsMapAt map.now x s → IsMapAt map.now x t → s ≡ t }
{
    let _ = map;
    let _ = x;
}

/// A map keeps the order of times.
pub fn rises(map: &PairMap, x: u64, y: u64)
    requires { x ≤ y }
    ensures { (s t : ℕ) → IsMapAt map.now x s → IsMapAt map.now y t → s ≤ t }
{
    let _ = map;
    let _ = x;
    let _ = y;
}
