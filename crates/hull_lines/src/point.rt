//! Points between two clocks.
ghost use Rattle.std.specs.Prelude.{◌<◌, ◌^◌};

/// A time x on one clock and a time y on the other, both in ns.
#[derive(Clone, Copy, Debug, PartialEq, Eq)]
pub struct ClockPoint {
    pub x: u64,
    pub y: u64,
    pub ghost x_below: { x < 2 ^ 62 },
    pub ghost y_below: { y < 2 ^ 62 },
}
