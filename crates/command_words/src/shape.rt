//! What a command line gives: one value of an option at most, and the positional words.
ghost use Rattle.std.specs.Prelude.{◌≡◌, ◌<◌, IfOk, Err, Option, List, ℕ, length, map, option_map, string_bytes};
ghost use Rattle.command_words.specs.Parts.{Part};
ghost use Rattle.command_words.specs.Shapes.{Gives, HaveShape, Shape, option_list, positional_words, value_if, values};
ghost use Rattle.command_words.specs.declared.words.WordsError.TheVariants.{Usage};

use crate::option_name::OptionName;
use crate::part::Part;
use crate::parts::read_parts;
use crate::words::WordsError;
use std::alloc::Global;
use std::marker::Model;
use trace_types::OutOfMemory;

/// The value of each option that is given, a flag's being empty, and the positional words.
#[derive(Drop)]
pub struct Shape<'a> {
    pub at: Option<&'a str>,
    pub attribute: Option<&'a str>,
    pub drift: Option<&'a str>,
    pub from: Option<&'a str>,
    pub host: Option<&'a str>,
    pub hosts: Option<&'a str>,
    pub list: Option<&'a str>,
    pub number: Option<&'a str>,
    pub once: Option<&'a str>,
    pub questions: Option<&'a str>,
    pub rounds: Option<&'a str>,
    pub tid: Option<&'a str>,
    pub to: Option<&'a str>,
    pub workers: Option<&'a str>,
    pub positional: Vec<&'a str>,
}

impl<'a> Model for Shape<'a> {
    ghost use Rattle.std.specs.Prelude.{map, option_map};
    ghost use Rattle.command_words.specs.Shapes.{Shape};

    ghost Value = { Shape };

    ghost view = { λ s. record {
      at = option_map (λ v. v.now) s.at;
      attribute = option_map (λ v. v.now) s.attribute;
      drift = option_map (λ v. v.now) s.drift;
      from = option_map (λ v. v.now) s.from;
      host = option_map (λ v. v.now) s.host;
      hosts = option_map (λ v. v.now) s.hosts;
      list = option_map (λ v. v.now) s.list;
      number = option_map (λ v. v.now) s.number;
      once = option_map (λ v. v.now) s.once;
      questions = option_map (λ v. v.now) s.questions;
      rounds = option_map (λ v. v.now) s.rounds;
      tid = option_map (λ v. v.now) s.tid;
      to = option_map (λ v. v.now) s.to;
      workers = option_map (λ v. v.now) s.workers;
      positional = map (λ w. w.now) s.positional.items;
    } };
}

/// What words give. `Usage` comes exactly where they give an option twice, or aren't parts.
pub fn read_shape<'a>(alloc: Global, words: &'a [String]) -> Result<Shape<'a>, WordsError>
    ensures found { IfOk result (λ s. Gives (map string_bytes words.now) s) }
    ensures usage { result ≡ Err Usage → (s : Shape) → ¬ (Gives (map string_bytes words.now) s) }
{
    let parts = read_parts(alloc, words)?;
    shape_of(alloc, parts.as_slice())
}

// What parts give.
fn shape_of<'a>(alloc: Global, parts: &[Part<'a>]) -> Result<Shape<'a>, WordsError>
    ensures found { IfOk result (λ s. HaveShape parts.now s) }
    ensures usage { result ≡ Err Usage → (s : Shape) → ¬ (HaveShape parts.now s) }
{
    let at = value_of(parts, OptionName::At)?;
    let attribute = value_of(parts, OptionName::Attribute)?;
    let drift = value_of(parts, OptionName::Drift)?;
    let from = value_of(parts, OptionName::From)?;
    let host = value_of(parts, OptionName::Host)?;
    let hosts = value_of(parts, OptionName::Hosts)?;
    let list = value_of(parts, OptionName::List)?;
    let number = value_of(parts, OptionName::Number)?;
    let once = value_of(parts, OptionName::Once)?;
    let questions = value_of(parts, OptionName::Questions)?;
    let rounds = value_of(parts, OptionName::Rounds)?;
    let tid = value_of(parts, OptionName::Tid)?;
    let to = value_of(parts, OptionName::To)?;
    let workers = value_of(parts, OptionName::Workers)?;
    let positional = positional_of(alloc, parts)?;
    Ok(Shape {
        at,
        attribute,
        drift,
        from,
        host,
        hosts,
        list,
        number,
        once,
        questions,
        rounds,
        tid,
        to,
        workers,
        positional,
    })
}

// The value of an option, which may be given once.
fn value_of<'a>(parts: &[Part<'a>], option: OptionName) -> Result<Option<&'a str>, WordsError>
    ensures found { IfOk result (λ v. values option parts.now ≡ option_list (option_map (λ s. s.now) v)) }
    ensures usage { result ≡ Err Usage → 1 < length (values option parts.now) }
{
    let mut found = None;
    for part in parts {
        if let Some(value) = value_in(part, option) {
            if found.is_some() {
                return Err(WordsError::Usage);
            }
            found = Some(value);
        }
    }
    Ok(found)
}

// The value of an option in a part.
fn value_in<'a>(part: &Part<'a>, option: OptionName) -> Option<&'a str>
    ensures { option_map (λ v. v.now) result ≡ value_if option part.now.option part.now.text }
{
    match part.option {
        Some(given) if given == option => Some(part.text),
        _ => None,
    }
}

// The positional words.
fn positional_of<'a>(alloc: Global, parts: &[Part<'a>]) -> Result<Vec<&'a str>, OutOfMemory>
    ensures { IfOk result (λ words. map (λ w. w.now) words.items ≡ positional_words parts.now) }
{
    let mut words = Vec::new(alloc);
    for part in parts {
        if part.option.is_none() {
            words.push(part.text)?;
        }
    }
    Ok(words)
}
