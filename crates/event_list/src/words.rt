//! Cutting a line into words.
ghost use Rattle.std.specs.Prelude.{◌≡◌, ◌==◌, OnOk, map};
ghost use Rattle.std.specs.List.{slice_split};

use trace_types::{OutOfMemory, cut_at};

/// Cuts a line at each space.
pub fn split_words<'a>(line: &'a [u8], words: &mut Vec<&'a [u8]>) -> Result<(), OutOfMemory>
    ensures words { OnOk result (map (λ w. w.now) words.new.items ≡ slice_split (λ b. b == 32) line.now) }
{
    words.clear();
    let mut rest = line;
    while let Some((word, after)) = cut_at(rest, b' ') {
        words.push(word)?;
        rest = after;
    }
    words.push(rest)?;
    Ok(())
}
