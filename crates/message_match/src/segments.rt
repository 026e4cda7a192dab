//! The table of segments: how each stands, in the order of their first sends.
ghost use Rattle.std.specs.Prelude.{◌≡◌, None, OnOk, IfNone, IfSome, Some, slice_get};
ghost use Rattle.indexmap.specs.IndexMap.{get, keys};
ghost use Rattle.message_match.specs.Standings.{AreApart, same_key, with_receive, with_send};

use crate::standing::{Placed, Standing};
use indexmap::IndexMap;
use indexmap::map::Entry;
use trace_types::{OutOfMemory, SegKey};

/// Segments by their keys.
pub type Segments = IndexMap<SegKey, Standing>;

/// Notes that a host sent a segment.
pub fn note_send(segments: &mut Segments, key: SegKey, send: Placed) -> Result<(), OutOfMemory>
    ensures { OnOk result (segments.new.entries ≡ with_send segments.old.entries key send) }
{
    match segments.entry(key)? {
        Entry::Occupied(entry) => {
            let standing = entry.into_mut();
            *standing = standing.sent_again(send);
        }
        Entry::Vacant(entry) => {
            entry.insert(Standing::Sent(send));
        }
    }
    Ok(())
}

/// Notes that a host received a segment, if one is known to have sent it. Segments are mostly received
/// in the order in which they were sent, so `guess` is the index after that of the segment before;
/// this gives the next one. A wrong guess costs a look-up.
pub fn note_receive(segments: &mut Segments, key: SegKey, receive: Placed, guess: usize) -> usize
    requires { AreApart (keys segments.old) }
    ensures { segments.new.entries ≡ with_receive segments.old.entries key receive }
{
    let Some(index) = index_of(segments, key, guess) else {
        return guess;
    };
    let standing = &mut segments[index];
    *standing = standing.received(receive);
    index.wrapping_add(1)
}

// The index of a key, which may be at `guess`.
fn index_of(segments: &Segments, key: SegKey, guess: usize) -> Option<usize>
    ensures found { IfSome result (λ index. slice_get (keys segments.now) index ≡ Some key) }
    ensures none { IfNone result (get same_key segments.now key ≡ None) }
{
    match segments.get_index(guess) {
        Some((there, _)) if *there == key => Some(guess),
        _ => segments.get_index_of(&key),
    }
}
