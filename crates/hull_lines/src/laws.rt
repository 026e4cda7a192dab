//! Laws of slopes and lines between points. These functions do nothing: each is called for what it ensures.
ghost use Rattle.std.specs.Prelude.{◌≡◌, ℕ, ℤ, ◌<◌, ◌^◌};
ghost use Rattle.clock_fraction.specs.ClockMap.{IsFloorAt};
ghost use Rattle.clock_fraction.specs.Fractions.{IsSame};
ghost use Rattle.clock_fraction.specs.declared.line.Line.{Line};
ghost use Rattle.hull_lines.specs.Certificates.{IsContradiction};
ghost use Rattle.hull_lines.specs.Lines.{IsSteep, IsFlat};
ghost use Rattle.hull_lines.specs.Slopes.{IsAdmissible};
ghost use Rattle.hull_lines.specs.declared.outcome.Certificate.{Certificate};

use crate::ClockPoint;

/// Where points contradict each other, no slope is admissible.
pub fn contradiction_excludes_slopes(lower: &[ClockPoint], upper: &[ClockPoint], drift: u32)
    ensures { (c : Certificate) (p q : ℕ) → IsContradiction lower.now upper.now drift c → ¬ IsAdmissible lower.now upper.now drift p q }
{
    let _ = lower;
    let _ = upper;
    let _ = drift;
}

/// There is one steep line: two have one slope, as fractions, and at each time one height, rounded down.
pub fn one_steep_line(lower: &[ClockPoint], upper: &[ClockPoint], drift: u32)
    ensures slope { (a b : Line) → IsSteep lower.now upper.now drift a → IsSteep lower.now upper.now drift b → IsSame a.slope b.slope }
    ensures height { (a b : Line) (x : ℕ) (f g : ℤ) → x < 2 ^ 62 → IsSteep lower.now upper.now drift a → IsSteep lower.now upper.now drift b → IsFloorAt a x f → IsFloorAt b x g → f ≡ g }
{
    let _ = lower;
    let _ = upper;
    let _ = drift;
}

/// There is one flat line: two have one slope, as fractions, and at each time one height, rounded down.
pub fn one_flat_line(lower: &[ClockPoint], upper: &[ClockPoint], drift: u32)
    ensures slope { (a b : Line) → IsFlat lower.now upper.now drift a → IsFlat lower.now upper.now drift b → IsSame a.slope b.slope }
    ensures height { (a b : Line) (x : ℕ) (f g : ℤ) → x < 2 ^ 62 → IsFlat lower.now upper.now drift a → IsFlat lower.now upper.now drift b → IsFloorAt a x f → IsFloorAt b x g → f ≡ g }
{
    let _ = lower;
    let _ = upper;
    let _ = drift;
}
