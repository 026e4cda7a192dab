//! Why a packet is refused (the checks of CTF 1.8, sections 5 and 6, and of times).

/// Why a packet, or the rest of a file, is refused.
#[derive(Clone, Copy, Debug, PartialEq, Eq)]
pub enum Cause {
    /// The packet's header or its context can't be read.
    ShortHeader,
    /// The magic number isn't 0xC1FC1FC1.
    BadMagic,
    /// The packet is of another trace.
    WrongUuid,
    /// No stream of the packet's id is declared.
    UnknownStream,
    /// The packet's size or its content's is wrong.
    BadSize,
    /// A bit is needed at or past the end of the content.
    ShortContent,
    /// A sequence has more than 1,048,576 elements.
    TooLong,
    /// No field of a variant is chosen.
    NoVariant,
    /// The stream has no event of the id.
    UnknownEvent,
    /// An event takes no bit.
    NoBits,
    /// A clock value of 64 bits is less than the one before.
    TimeBack,
    /// A clock value reaches 2^64, or a time isn't in 1 to 2^62 - 1 ns.
    TimeRange,
}
