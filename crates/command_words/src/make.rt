//! The words of the command `make`.
ghost use Rattle.std.specs.Prelude.{◌≡◌, ◌≢◌, ◌∷◌, ◌<◌, ◌≤◌, ◌^◌, IfOk, IfSome, IfNone, Err, ℕ, Some, codes, map, option_map};
ghost use Rattle.std.specs.Fmt.{decimal};
ghost use Rattle.command_words.specs.Words.{GivesSizes, IsAsked};
ghost use Rattle.command_words.specs.declared.command.PlainCommand.{PlainCommand};
ghost use Rattle.command_words.specs.declared.words.WordsError.TheVariants.{Usage};

use crate::command::PlainCommand;
use crate::shape::Shape;
use crate::table::{has_no_window, is_unasked};
use crate::words::WordsError;
use trace_types::{MAX_HOSTS, read_number, read_number_below};

/// The most rounds of made traces.
const MAX_ROUNDS: u32 = 100_000;

// The number that traces are made up from, and how many hosts and rounds they have.
#[derive(Clone, Copy)]
struct Sizes {
    number: u64,
    hosts: u32,
    rounds: u32,
}

/// Traces that are made up. `Usage` comes exactly where the words don't ask for them.
pub fn read_make(shape: &Shape, words: &[&str]) -> Result<PlainCommand, WordsError>
    requires { shape.now.positional ≡ codes "make" ∷ map (λ w. w.now) words.now }
    ensures found { IfOk result (λ c. IsAsked shape.now c) }
    ensures usage { result ≡ Err Usage → (c : PlainCommand) → ¬ (IsAsked shape.now c) }
{
    if !words.is_empty() || shape.at.is_some() || shape.list.is_some() || shape.drift.is_some() {
        return Err(WordsError::Usage);
    }
    if shape.attribute.is_some() || !is_unasked(shape) || !has_no_window(shape) {
        return Err(WordsError::Usage);
    }
    match read_sizes(shape) {
        Some(sizes) => {
            let Sizes {
                number,
                hosts,
                rounds,
            } = sizes;
            Ok(PlainCommand::Make {
                number,
                hosts,
                rounds,
            })
        }
        None => Err(WordsError::Usage),
    }
}

// The sizes of made traces.
fn read_sizes(shape: &Shape) -> Option<Sizes>
    ensures found { IfSome result (λ s. GivesSizes shape.now s.number s.hosts s.rounds) }
    ensures none { IfNone result ((number hosts rounds : ℕ) → ¬ (GivesSizes shape.now number hosts rounds)) }
{
    let number = read_start(shape.number)?;
    let hosts = read_count(shape.hosts, MAX_HOSTS as u32)?;
    let rounds = read_count(shape.rounds, MAX_ROUNDS)?;
    Some(Sizes {
        number,
        hosts,
        rounds,
    })
}

// A number from 0 to 2^64 - 1.
fn read_start(text: Option<&str>) -> Option<u64>
    ensures found { IfSome result (λ n. (option_map (λ t. t.now) text.entry ≡ Some (decimal n)) × (n < 2 ^ 64)) }
    ensures none { IfNone result ((n : ℕ) → n < 2 ^ 64 → option_map (λ t. t.now) text.entry ≢ Some (decimal n)) }
{
    let number = read_number(text?.as_bytes())?;
    if number < 1 << 64 {
        Some(number as u64)
    } else {
        None
    }
}

// A number from 1 to the most that there may be.
fn read_count(text: Option<&str>, most: u32) -> Option<u32>
    ensures found { IfSome result (λ n. (option_map (λ t. t.now) text.entry ≡ Some (decimal n)) × (1 ≤ n) × (n ≤ most)) }
    ensures none { IfNone result ((n : ℕ) → 1 ≤ n → n ≤ most → option_map (λ t. t.now) text.entry ≢ Some (decimal n)) }
{
    let count = read_number_below(text?.as_bytes(), u64::from(most) + 1)? as u32;
    if count == 0 { None } else { Some(count) }
}
