//! The words in one order, as `clap` reads them.
ghost use Rattle.std.specs.Prelude.{◌≡◌, ◌≢◌, ◌≤◌, [], Err, IfOk, codes, length, map, option_map, string_bytes, unwrap_or};
ghost use Rattle.clap.specs.Lexer.{usize_max};
ghost use Rattle.clap.specs.Words.{app_of, found_of, kind_of, matched_of, raw_values, with_rule};
ghost use Rattle.clap.specs.declared.error.kind.ErrorKind.TheVariants as kind;
ghost use Rattle.command_words.specs.Matching.{IsFound, app, bare_app, first_app, middle_app, option_rule, words_rule};
ghost use Rattle.command_words.specs.OrderedWords.{ordered_words};
ghost use Rattle.command_words.specs.Shapes.{Shape};
ghost use Rattle.command_words.specs.declared.words.WordsError.TheVariants as failure;

use crate::shape::Shape;
use crate::words::WordsError;
use clap::error::ErrorKind;
use clap::{Arg, ArgAction, ArgMatches, Command, Error};
use std::alloc::{AllocError, Global};
use trace_types::OutOfMemory;

/// What `clap` finds in words in one order: what they were written from. On such words the only error is lack of memory.
pub fn matched_shape<'a>(alloc: Global, words: &'a [String]) -> Result<Shape<'a>, WordsError>
    ensures found { IfOk result (λ r. (s : Shape) → map string_bytes words.now ≡ ordered_words s → r ≡ s) }
    ensures usage { (s : Shape) → map string_bytes words.now ≡ ordered_words s → result ≢ Err failure.Usage }
{
    let matches = read_words(alloc, words)?;
    Ok(found_in(alloc, &matches)?)
}

// What `clap` makes of words.
fn read_words<'a>(alloc: Global, words: &'a [String]) -> Result<ArgMatches<'a>, WordsError>
    ensures found { IfOk result (λ m. (s : Shape) → map string_bytes words.now ≡ ordered_words s → IsFound (found_of m) s) }
    ensures usage { (s : Shape) → map string_bytes words.now ≡ ordered_words s → result ≢ Err failure.Usage }
{
    let command = command(alloc)?;
    let _count = count_of(words);
    match command.try_get_matches_from(words) {
        Ok(matches) => Ok(matches),
        Err(error) => Err(words_error(&error)),
    }
}

// How many words there are. A slice's length fits into a `usize`, and `clap` takes as many values.
fn count_of(words: &[String]) -> usize
    ensures { length words.now ≤ usize_max }
{
    words.len()
}

// Why words give no matches.
fn words_error(error: &Error) -> WordsError
    ensures { kind_of error.now ≡ kind.OutOfMemory → result ≡ failure.OutOfMemory }
{
    match error.kind() {
        ErrorKind::OutOfMemory => WordsError::OutOfMemory,
        _ => WordsError::Usage,
    }
}

// The values of the options and the positional words.
fn found_in<'a>(alloc: Global, matches: &ArgMatches<'a>) -> Result<Shape<'a>, OutOfMemory>
    ensures { IfOk result (λ s. IsFound (found_of matches.now) s) }
{
    let positional = positional_in(alloc, matches)?;
    Ok(Shape {
        at: matches.get_str("at"),
        attribute: matches.get_str("attribute"),
        drift: matches.get_str("drift"),
        from: matches.get_str("from"),
        host: matches.get_str("host"),
        hosts: matches.get_str("hosts"),
        list: matches.get_str("list"),
        number: matches.get_str("number"),
        once: matches.get_str("once"),
        questions: matches.get_str("questions"),
        rounds: matches.get_str("rounds"),
        tid: matches.get_str("tid"),
        to: matches.get_str("to"),
        workers: matches.get_str("workers"),
        positional,
    })
}

// The positional words.
fn positional_in<'a>(alloc: Global, matches: &ArgMatches<'a>) -> Result<Vec<&'a str>, OutOfMemory>
    ensures { IfOk result (λ words. map (λ w. w.now) words.items ≡ unwrap_or (option_map raw_values (matched_of (found_of matches.now) (codes "words"))) []) }
{
    match matches.get_strs("words") {
        Some(words) => Ok(Vec::from_slice(alloc, words)?),
        None => Ok(Vec::new(alloc)),
    }
}

// The command that `clap` is given.
fn command<'a>(alloc: Global) -> Result<Command<'a>, AllocError>
    ensures { IfOk result (λ c. app_of c ≡ app) }
{
    let command = middle_options(alloc)?;
    let command = with_option(alloc, command, "tid")?;
    let command = with_option(alloc, command, "to")?;
    let command = with_option(alloc, command, "workers")?;
    with_words(alloc, command)
}

// The options up to `rounds`.
fn middle_options<'a>(alloc: Global) -> Result<Command<'a>, AllocError>
    ensures { IfOk result (λ c. app_of c ≡ middle_app) }
{
    let command = first_options(alloc)?;
    let command = with_option(alloc, command, "number")?;
    let command = with_option(alloc, command, "once")?;
    let command = with_option(alloc, command, "questions")?;
    with_option(alloc, command, "rounds")
}

// The options up to `list`.
fn first_options<'a>(alloc: Global) -> Result<Command<'a>, AllocError>
    ensures { IfOk result (λ c. app_of c ≡ first_app) }
{
    let command = bare_command(alloc);
    let command = with_option(alloc, command, "at")?;
    let command = with_option(alloc, command, "attribute")?;
    let command = with_option(alloc, command, "drift")?;
    let command = with_option(alloc, command, "from")?;
    let command = with_option(alloc, command, "host")?;
    let command = with_option(alloc, command, "hosts")?;
    with_option(alloc, command, "list")
}

// A command without arguments.
fn bare_command<'a>(alloc: Global) -> Command<'a>
    ensures { app_of result ≡ bare_app }
{
    Command::new(alloc, "hosttrace")
        .disable_help_flag(true)
        .no_binary_name(true)
}

// One option more.
fn with_option<'a>(
    alloc: Global,
    command: Command<'a>,
    name: &'a str,
) -> Result<Command<'a>, AllocError>
    ensures { IfOk result (λ c. app_of c ≡ with_rule (app_of command.entry) (option_rule name.now)) }
{
    command.arg(Arg::new(alloc, name).long(name))
}

// The positional words.
fn with_words<'a>(alloc: Global, command: Command<'a>) -> Result<Command<'a>, AllocError>
    ensures { IfOk result (λ c. app_of c ≡ with_rule (app_of command.entry) words_rule) }
{
    let words = Arg::new(alloc, "words")
        .num_args(1..)
        .action(ArgAction::Append);
    command.arg(words)
}
