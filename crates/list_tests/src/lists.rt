//! Small event lists.

/// Processor 0 goes from idle to bash at 100.
pub const ONE_SWITCH: &[u8] = b"hosttrace events 1\n\
    100 0 0 100 switch 0 swapper/0 20 0 7 bash 20\n";

/// Processor 0 goes from idle to bash at 100, and back at 250.
pub const TWO_SWITCHES: &[u8] = b"hosttrace events 1\n\
    100 0 0 100 switch 0 swapper/0 20 0 7 bash 20\n\
    250 0 0 250 switch 7 bash 20 1 0 swapper/0 20\n";

/// Two switches at one instant: bash gives way to vi.
pub const ONE_INSTANT: &[u8] = b"hosttrace events 1\n\
    100 0 0 100 switch 0 swapper/0 20 0 7 bash 20\n\
    100 0 0 100 switch 7 bash 20 1 8 vi 20\n";
