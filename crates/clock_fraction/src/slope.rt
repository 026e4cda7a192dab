//! Slopes as fractions.
ghost use Rattle.std.specs.Prelude.{◌<◌, ◌^◌};

/// The fraction p / q: by how many ns one clock goes on while another goes on by one.
#[derive(Clone, Copy, Debug, PartialEq, Eq)]
pub struct Slope {
    pub p: u64,
    pub q: u64,
    pub ghost p_below: { p < 2 ^ 62 },
    pub ghost q_above: { 0 < q },
    pub ghost q_below: { q < 2 ^ 62 },
}
