//! The parts of a command line: options with their values, and positional words.
ghost use Rattle.std.specs.Prelude.{◌≡◌, ◌+◌, ◌<◌, ◌∷◌, ◌++◌, [], Some, None, option_map, ◌≢◌, IfSome, IfNone, IfOk, true, length, map, string_bytes, List, ℕ, Option};
ghost use Rattle.std.specs.List.{AllByRecursion};
ghost use Rattle.command_words.specs.OptionNames.{option_word};
ghost use Rattle.command_words.specs.Parts.{BeginsWith, BeginsWithNone, is_dashed, positional, valued};
ghost use Rattle.command_words.specs.declared.option_name.OptionName.{OptionName};

use crate::option_name::{OptionName, option_named};
use std::marker::Model;

/// A part of a command line.
#[derive(Drop)]
pub struct Part<'a> {
    /// The option. A positional word has none.
    pub option: Option<OptionName>,
    /// The option's value, empty for a flag, or the positional word.
    pub text: &'a str,
}

impl<'a> Model for Part<'a> {
    ghost use Rattle.command_words.specs.Parts.{Part};

    ghost Value = { Part };

    ghost view = { λ s. record { option = s.option; text = s.text.now } };
}

impl<'a> Part<'a> {
    /// A positional word.
    pub fn positional(word: &'a str) -> Part<'a>
        ensures { result ≡ positional word.now }
    {
        Part {
            option: None,
            text: word,
        }
    }

    /// An option with its value.
    pub fn valued(option: OptionName, value: &'a str) -> Part<'a>
        ensures { result ≡ valued option value.now }
    {
        Part {
            option: Some(option),
            text: value,
        }
    }
}

/// The part that begins words, and the words after it.
pub fn first_part<'a>(words: &'a [String]) -> Option<(Part<'a>, &'a [String])>
    ensures found { IfSome result (λ r. BeginsWith (map string_bytes words.now) r.0 (map string_bytes r.1.now)) }
    ensures none { IfNone result (BeginsWithNone (map string_bytes words.now)) }
    ensures shorter { IfSome result (λ r. length r.1.now < length words.now) }
{
    let (word, rest) = words.split_first()?;
    let word = word.as_str();
    if is_dashed(word.as_bytes()) {
        first_option(word, rest)
    } else {
        Some((Part::positional(word), rest))
    }
}

// An option that begins words, the first of which has a minus sign.
fn first_option<'a>(word: &'a str, rest: &'a [String]) -> Option<(Part<'a>, &'a [String])>
    requires { is_dashed word.now ≡ true }
    ensures found { IfSome result (λ r. BeginsWith (word.now ∷ map string_bytes rest.now) r.0 (map string_bytes r.1.now)) }
    ensures none { IfNone result (BeginsWithNone (word.now ∷ map string_bytes rest.now)) }
    ensures shorter { IfSome result (λ r. length r.1.now < 1 + length rest.now) }
{
    let (option, value) = option_of(word)?;
    match value {
        Some(value) => attached_option(option, value, rest),
        None => separate_option(option, rest),
    }
}

// An option whose value stands in its word.
fn attached_option<'a>(
    option: OptionName,
    value: &'a str,
    rest: &'a [String],
) -> Option<(Part<'a>, &'a [String])>
    ensures found { IfSome result (λ r. BeginsWith (option_word option (Some value.now) ∷ map string_bytes rest.now) r.0 (map string_bytes r.1.now)) }
    ensures none { IfNone result (BeginsWithNone (option_word option (Some value.now) ∷ map string_bytes rest.now)) }
    ensures shorter { IfSome result (λ r. length r.1.now < 1 + length rest.now) }
{
    if option.takes_value() {
        Some((Part::valued(option, value), rest))
    } else {
        None
    }
}

// A flag, or an option whose value is the next word.
fn separate_option<'a>(option: OptionName, rest: &'a [String]) -> Option<(Part<'a>, &'a [String])>
    ensures found { IfSome result (λ r. BeginsWith (option_word option None ∷ map string_bytes rest.now) r.0 (map string_bytes r.1.now)) }
    ensures none { IfNone result (BeginsWithNone (option_word option None ∷ map string_bytes rest.now)) }
    ensures shorter { IfSome result (λ r. length r.1.now < 1 + length rest.now) }
{
    if !option.takes_value() {
        return Some((Part::valued(option, ""), rest));
    }
    let (value, after) = rest.split_first()?;
    let value = value.as_str();
    if is_dashed(value.as_bytes()) {
        None
    } else {
        Some((Part::valued(option, value), after))
    }
}

// The option that a word names, and the value that stands in it.
fn option_of(word: &str) -> Option<(OptionName, Option<&str>)>
    ensures found { IfSome result (λ r. word.now ≡ option_word r.0 (option_map (λ v. v.now) r.1)) }
    ensures none { IfNone result ((n : OptionName) (value : Option (List ℕ)) → word.now ≢ option_word n value) }
{
    let name = after_dashes(word)?;
    match cut_at_equals(name) {
        Some((name, value)) => Some((option_named(name.as_bytes())?, Some(value))),
        None => Some((option_named(name.as_bytes())?, None)),
    }
}

// What follows two minus signs.
fn after_dashes(word: &str) -> Option<&str>
    ensures found { IfSome result (λ rest. word.now ≡ 45 ∷ 45 ∷ rest.now) }
    ensures none { IfNone result ((rest : List ℕ) → word.now ≢ 45 ∷ 45 ∷ rest) }
{
    after_dash(after_dash(word)?)
}

// What follows a minus sign.
fn after_dash(text: &str) -> Option<&str>
    ensures found { IfSome result (λ rest. text.now ≡ 45 ∷ rest.now) }
    ensures none { IfNone result ((rest : List ℕ) → text.now ≢ 45 ∷ rest) }
{
    text.strip_prefix('-')
}

// What stands before the first equals sign, and what follows it.
fn cut_at_equals(text: &str) -> Option<(&str, &str)>
    ensures found { IfSome result (λ r. (text.now ≡ r.0.now ++ 61 ∷ r.1.now) × AllByRecursion (λ b. b ≢ 61) r.0.now) }
    ensures none { IfNone result (AllByRecursion (λ b. b ≢ 61) text.now) }
{
    text.split_once('=')
}

// Whether a word begins with a minus sign and isn't one alone.
fn is_dashed(word: &[u8]) -> bool
    ensures { result ≡ is_dashed word.now }
{
    matches!(word, [b'-', _, ..])
}
