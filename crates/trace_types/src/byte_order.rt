//! The order of bytes.

/// In which order the bytes of a number stand, and the bits of a bit field.
#[derive(Clone, Copy, Debug, PartialEq, Eq)]
pub enum ByteOrderKind {
    /// The least significant first.
    Little,
    /// The most significant first.
    Big,
}
