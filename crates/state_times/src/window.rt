//! The window of a merge: from its first key up to its last.
ghost use Rattle.std.specs.Prelude.{◌≡◌};
ghost use Rattle.state_times.specs.Times.{first_key, last_key};

use trace_types::Merged;

/// The first key of a merge, in ns, and 0 where it is empty.
pub fn first_key(merged: &[Merged]) -> u64
    ensures { result ≡ first_key merged.now }
{
    match merged {
        [first, ..] => first.key,
        [] => 0,
    }
}

/// The last key of a merge, in ns, and 0 where it is empty.
pub fn last_key(merged: &[Merged]) -> u64
    ensures { result ≡ last_key merged.now }
{
    match merged {
        [.., last] => last.key,
        [] => 0,
    }
}
