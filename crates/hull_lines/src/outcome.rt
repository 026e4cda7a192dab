//! What comes of points between two clocks.
use clock_fraction::PairMap;

/// What bounds the slopes on one side.
#[derive(Clone, Copy, Debug, PartialEq, Eq)]
pub enum Bound {
    /// The drift that is allowed.
    Fixed,
    /// The lower and the upper point at these places.
    Pair { lower: u32, upper: u32 },
}

/// A contradiction among points, which a reader can check.
#[derive(Clone, Copy, Debug, PartialEq, Eq)]
pub enum Certificate {
    /// At one time, the upper point at this place is below the lower one.
    Meet { lower: u32, upper: u32 },
    /// The least slope that the one allows is greater than the greatest that the other does.
    Apart { least: Bound, greatest: Bound },
}

/// What comes of lower and upper points.
#[derive(Clone, Copy, Debug, PartialEq, Eq)]
pub enum Fit {
    /// The steepest line and the flattest one that pass over all lower points and under all upper points.
    Map(PairMap),
    /// Points of a kind are missing. These are the numbers of points.
    Absent { lower: u32, upper: u32 },
    /// No line passes between the points.
    Refused(Certificate),
}
