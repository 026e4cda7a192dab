//! The words of the command `range`.
ghost use Rattle.std.specs.Prelude.{◌≡◌, ◌∷◌, IfOk, IfSome, IfNone, Err, codes, map, option_map};
ghost use Rattle.trace_types.specs.declared.path.Path.{Path as AttributePath};
ghost use Rattle.command_words.specs.Words.{GivesAttribute, IsAsked};
ghost use Rattle.command_words.specs.declared.command.PlainCommand.{PlainCommand};
ghost use Rattle.command_words.specs.declared.words.WordsError.TheVariants.{Usage};

use crate::command::PlainCommand;
use crate::path::read_span;
use crate::shape::Shape;
use crate::table::{is_unasked, is_unmade, read_input};
use crate::words::WordsError;
use std::alloc::Global;
use trace_types::{Path, read_path};

/// How an attribute's value changed. `Usage` comes exactly where the words don't ask for that.
pub fn read_range(alloc: Global, shape: &Shape, words: &[&str]) -> Result<PlainCommand, WordsError>
    requires { shape.now.positional ≡ codes "range" ∷ map (λ w. w.now) words.now }
    ensures found { IfOk result (λ c. IsAsked shape.now c) }
    ensures usage { result ≡ Err Usage → (c : PlainCommand) → ¬ (IsAsked shape.now c) }
{
    if shape.at.is_some() || shape.host.is_some() || shape.tid.is_some() {
        return Err(WordsError::Usage);
    }
    if !is_unasked(shape) || !is_unmade(shape) {
        return Err(WordsError::Usage);
    }
    let Some((from, to)) = read_span(shape.from, shape.to) else {
        return Err(WordsError::Usage);
    };
    let Some(path) = read_attribute(shape.attribute) else {
        return Err(WordsError::Usage);
    };
    let input = read_input(alloc, shape, words)?;
    Ok(PlainCommand::Range {
        input,
        from,
        to,
        path,
    })
}

// An attribute, by the text of its path.
fn read_attribute(text: Option<&str>) -> Option<Path>
    ensures found { IfSome result (λ p. GivesAttribute (option_map (λ t. t.now) text.entry) p) }
    ensures none { IfNone result ((p : AttributePath) → ¬ (GivesAttribute (option_map (λ t. t.now) text.entry) p)) }
{
    read_path(text?.as_bytes())
}
