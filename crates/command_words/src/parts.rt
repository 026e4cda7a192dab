//! All parts of a command line.
ghost use Rattle.std.specs.Prelude.{◌≡◌, ◌++◌, [], IfOk, Err, List, map, string_bytes};
ghost use Rattle.command_words.specs.Parts.{AreParts, BeginsWithNone, BeginsWithParts, Part, positional};
ghost use Rattle.command_words.specs.declared.words.WordsError.TheVariants.{Usage};

use crate::part::{Part, first_part};
use crate::words::WordsError;
use std::alloc::Global;
use trace_types::OutOfMemory;

/// The parts of words, in order. `Usage` comes exactly where they have none.
pub fn read_parts<'a>(alloc: Global, words: &'a [String]) -> Result<Vec<Part<'a>>, WordsError>
    ensures found { IfOk result (λ r. AreParts (map string_bytes words.now) r.items) }
    ensures usage { result ≡ Err Usage → (parts : List Part) → ¬ (AreParts (map string_bytes words.now) parts) }
{
    let mut parts = Vec::new(alloc);
    let rest = take_parts(&mut parts, words)?;
    match rest.split_first() {
        None => Ok(parts),
        Some((dashes, after)) => {
            if dashes.as_str() != "--" {
                return Err(WordsError::Usage);
            }
            push_positional(&mut parts, after)?;
            Ok(parts)
        }
    }
}

// Takes the parts at the front of words, and answers the words after them.
fn take_parts<'a>(
    parts: &mut Vec<Part<'a>>,
    words: &'a [String],
) -> Result<&'a [String], OutOfMemory>
    requires { parts.old.items ≡ [] }
    ensures found { IfOk result (λ rest. BeginsWithParts (map string_bytes words.now) parts.new.items (map string_bytes rest.now)) }
    ensures stops { IfOk result (λ rest. BeginsWithNone (map string_bytes rest.now)) }
{
    let mut rest = words;
    while let Some((part, after)) = first_part(rest) {
        parts.push(part)?;
        rest = after;
    }
    Ok(rest)
}

// Adds positional words.
fn push_positional<'a>(parts: &mut Vec<Part<'a>>, words: &'a [String]) -> Result<(), OutOfMemory>
    ensures { IfOk result (λ _. parts.new.items ≡ parts.old.items ++ map positional (map string_bytes words.now)) }
{
    for word in words {
        parts.push(Part::positional(word.as_str()))?;
    }
    Ok(())
}
