//! Reading the words of a command line.
ghost use Rattle.std.specs.Prelude.{◌≡◌, IfOk, Err, map, string_bytes};
ghost use Rattle.command_words.specs.Words.{AreRanges, IsCommand};
ghost use Rattle.command_words.specs.declared.words.WordsError.TheVariants.{Usage};
ghost use Rattle.command_words.specs.declared.command.Command.{Command};

use crate::command::Command;
use crate::matched::matched_shape;
use crate::ordered::ordered_words;
use crate::shape::read_shape;
use crate::table::read_command;
use std::alloc::{AllocError, Global};
use trace_types::OutOfMemory;

/// Why words are no command.
#[derive(Clone, Copy, Debug, PartialEq, Eq)]
pub enum WordsError {
    Usage,
    OutOfMemory,
}

impl From<OutOfMemory> for WordsError {
    ghost use Rattle.std.specs.Prelude.{◌≡◌};
    ghost use Rattle.command_words.specs.declared.words.WordsError.TheVariants as variant;

    ghost from_gives = { λ _ e. e ≡ variant.OutOfMemory };

    fn from(_error: OutOfMemory) -> WordsError {
        WordsError::OutOfMemory
    }
}

impl From<AllocError> for WordsError {
    ghost use Rattle.std.specs.Prelude.{◌≡◌};
    ghost use Rattle.command_words.specs.declared.words.WordsError.TheVariants as variant;

    ghost from_gives = { λ _ e. e ≡ variant.OutOfMemory };

    fn from(_error: AllocError) -> WordsError {
        WordsError::OutOfMemory
    }
}

/// Reads the words after the program's name. `Usage` comes exactly where they are no command.
pub fn parse_words(alloc: Global, words: &[String]) -> Result<Command, WordsError>
    ensures found { IfOk result (λ c. IsCommand (map string_bytes words.now) c) }
    ensures usage { result ≡ Err Usage → (c : Command) → ¬ (IsCommand (map string_bytes words.now) c) }
    ensures ranges { IfOk result AreRanges }
{
    let given = read_shape(alloc, words)?;
    let ordered = ordered_words(alloc, &given)?;
    let shape = matched_shape(alloc, &ordered)?;
    Ok(Command::Plain(read_command(alloc, &shape)?))
}
