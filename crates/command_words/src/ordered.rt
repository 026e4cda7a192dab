//! The words of options and positional words, written anew in one order.
ghost use Rattle.std.specs.Prelude.{◌≡◌, ◌∷◌, ◌++◌, [], IfOk, Some, map, option_map, string_bytes};
ghost use Rattle.command_words.specs.OptionNames.{option_word};
ghost use Rattle.command_words.specs.OrderedWords.{ordered_words, slot_words, slots};

use crate::option_name::OptionName;
use crate::shape::Shape;
use std::alloc::Global;
use trace_types::OutOfMemory;

/// The options by name, each that is given as one word with its value, then `--` and the positional words. The only error is
/// lack of memory.
pub fn ordered_words(alloc: Global, shape: &Shape) -> Result<Vec<String>, OutOfMemory>
    ensures { IfOk result (λ words. map string_bytes words.items ≡ ordered_words shape.now) }
{
    let mut words = Vec::new(alloc);
    push_options(alloc, &slots(shape), &mut words)?;
    push_word(alloc, "--", &mut words)?;
    push_words(alloc, &shape.positional, &mut words)?;
    Ok(words)
}

// The options by name, with the value of each that is given.
fn slots<'a>(shape: &Shape<'a>) -> [(OptionName, Option<&'a str>); 14]
    ensures { map (λ s. (s.0, option_map (λ v. v.now) s.1)) result ≡ slots shape.now }
{
    [
        (OptionName::At, shape.at),
        (OptionName::Attribute, shape.attribute),
        (OptionName::Drift, shape.drift),
        (OptionName::From, shape.from),
        (OptionName::Host, shape.host),
        (OptionName::Hosts, shape.hosts),
        (OptionName::List, shape.list),
        (OptionName::Number, shape.number),
        (OptionName::Once, shape.once),
        (OptionName::Questions, shape.questions),
        (OptionName::Rounds, shape.rounds),
        (OptionName::Tid, shape.tid),
        (OptionName::To, shape.to),
        (OptionName::Workers, shape.workers),
    ]
}

fn push_options(
    alloc: Global,
    options: &[(OptionName, Option<&str>)],
    words: &mut Vec<String>,
) -> Result<(), OutOfMemory>
    ensures { IfOk result (λ _. map string_bytes words.new.items ≡ map string_bytes words.old.items ++ slot_words (map (λ s. (s.0, option_map (λ v. v.now) s.1)) options.now)) }
{
    for (option, value) in options {
        if let Some(value) = value {
            words.push(option_word(alloc, *option, value)?)?;
        }
    }
    Ok(())
}

fn option_word(alloc: Global, option: OptionName, value: &str) -> Result<String, OutOfMemory>
    ensures { IfOk result (λ word. string_bytes word ≡ option_word option (Some value.now)) }
{
    let name = option.name();
    format!(in alloc; "--{name}={value}").map_err(|_| OutOfMemory)
}

fn push_words(
    alloc: Global,
    positional: &[&str],
    words: &mut Vec<String>,
) -> Result<(), OutOfMemory>
    ensures { IfOk result (λ _. map string_bytes words.new.items ≡ map string_bytes words.old.items ++ map (λ w. w.now) positional.now) }
{
    for word in positional {
        push_word(alloc, word, words)?;
    }
    Ok(())
}

fn push_word(alloc: Global, word: &str, words: &mut Vec<String>) -> Result<(), OutOfMemory>
    ensures { IfOk result (λ _. map string_bytes words.new.items ≡ map string_bytes words.old.items ++ word.now ∷ []) }
{
    words.push(String::from_str(alloc, word)?)?;
    Ok(())
}
