//! Which command the options and positional words are.
ghost use Rattle.std.specs.Prelude.{◌≡◌, ◌≢◌, ◌∷◌, [], ◌↔◌, ◌<◌, ◌^◌, IfOk, IfSome, IfNone, Err, List, ℕ, IsTrue, None, Some, codes, map, option_map};
ghost use Rattle.std.specs.Fmt.{decimal};
ghost use Rattle.command_words.specs.Words.{AreFolders, GivesDrift, GivesInput, GivesWorkers, HasNoWindow, IsAsked, IsBare, IsMerged, IsUnasked, IsUnmade};
ghost use Rattle.command_words.specs.declared.command.Input.{Input};
ghost use Rattle.command_words.specs.declared.command.PlainCommand.{PlainCommand};
ghost use Rattle.command_words.specs.declared.words.WordsError.TheVariants.{Usage};

use crate::command::{Input, PlainCommand};
use crate::command_name::{CommandName, command_named};
use crate::make::read_make;
use crate::path::read_path;
use crate::range::read_range;
use crate::shape::Shape;
use crate::words::WordsError;
use sqlite_items::Items;
use std::alloc::Global;
use trace_types::{TIME_END, Text, read_number_below};

/// The drift where no word gives one, in parts per million.
const DRIFT: u32 = 1_000;

/// The largest drift, in parts per million.
const MAX_DRIFT: u32 = 10_000;

/// The command that a command line gives. `Usage` comes exactly where it gives none.
pub fn read_command(alloc: Global, shape: &Shape) -> Result<PlainCommand, WordsError>
    ensures found { IfOk result (λ c. IsAsked shape.now c) }
    ensures usage { result ≡ Err Usage → (c : PlainCommand) → ¬ (IsAsked shape.now c) }
{
    let Some((command, words)) = shape.positional.as_slice().split_first() else {
        return Err(WordsError::Usage);
    };
    let Some(name) = command_named(command.as_bytes()) else {
        return Err(WordsError::Usage);
    };
    match name {
        CommandName::Check => read_check(alloc, shape, words),
        CommandName::Report => read_report(alloc, shape, words),
        CommandName::Events => read_events(alloc, shape, words),
        CommandName::State => read_state(alloc, shape, words),
        CommandName::Ask => read_ask(alloc, shape, words),
        CommandName::Path => read_path(alloc, shape, words),
        CommandName::Make => read_make(shape, words),
        CommandName::Range => read_range(alloc, shape, words),
        CommandName::Disks => read_disks(alloc, shape, words),
    }
}

// What metadata declares.
fn read_check(alloc: Global, shape: &Shape, words: &[&str]) -> Result<PlainCommand, WordsError>
    requires { shape.now.positional ≡ codes "check" ∷ map (λ w. w.now) words.now }
    ensures found { IfOk result (λ c. IsAsked shape.now c) }
    ensures usage { result ≡ Err Usage → (c : PlainCommand) → ¬ (IsAsked shape.now c) }
{
    if !is_bare(shape) || shape.drift.is_some() {
        return Err(WordsError::Usage);
    }
    let folders = read_folders(alloc, words)?;
    Ok(PlainCommand::Check { folders })
}

// The views of events.
fn read_report(alloc: Global, shape: &Shape, words: &[&str]) -> Result<PlainCommand, WordsError>
    requires { shape.now.positional ≡ codes "report" ∷ map (λ w. w.now) words.now }
    ensures found { IfOk result (λ c. IsAsked shape.now c) }
    ensures usage { result ≡ Err Usage → (c : PlainCommand) → ¬ (IsAsked shape.now c) }
{
    let (folders, drift) = read_merged(alloc, shape, words)?;
    Ok(PlainCommand::Report { folders, drift })
}

// The merged events.
fn read_events(alloc: Global, shape: &Shape, words: &[&str]) -> Result<PlainCommand, WordsError>
    requires { shape.now.positional ≡ codes "events" ∷ map (λ w. w.now) words.now }
    ensures found { IfOk result (λ c. IsAsked shape.now c) }
    ensures usage { result ≡ Err Usage → (c : PlainCommand) → ¬ (IsAsked shape.now c) }
{
    let (folders, drift) = read_merged(alloc, shape, words)?;
    Ok(PlainCommand::Events { folders, drift })
}

// Folders and a drift, and no other options.
fn read_merged(
    alloc: Global,
    shape: &Shape,
    words: &[&str],
) -> Result<(Items<Text>, u32), WordsError>
    ensures found { IfOk result (λ r. IsMerged shape.now (map (λ w. w.now) words.now) r.0 r.1) }
    ensures usage { result ≡ Err Usage → (folders : List (List ℕ)) (drift : ℕ) → ¬ (IsMerged shape.now (map (λ w. w.now) words.now) folders drift) }
{
    if !is_bare(shape) {
        return Err(WordsError::Usage);
    }
    let Some(drift) = read_drift(shape.drift) else {
        return Err(WordsError::Usage);
    };
    let folders = read_folders(alloc, words)?;
    Ok((folders, drift))
}

// The state at an instant.
fn read_state(alloc: Global, shape: &Shape, words: &[&str]) -> Result<PlainCommand, WordsError>
    requires { shape.now.positional ≡ codes "state" ∷ map (λ w. w.now) words.now }
    ensures found { IfOk result (λ c. IsAsked shape.now c) }
    ensures usage { result ≡ Err Usage → (c : PlainCommand) → ¬ (IsAsked shape.now c) }
{
    if shape.attribute.is_some() || !is_unasked(shape) {
        return Err(WordsError::Usage);
    }
    if !has_no_window(shape) || !is_unmade(shape) {
        return Err(WordsError::Usage);
    }
    let Some(at) = read_instant(shape.at) else {
        return Err(WordsError::Usage);
    };
    let input = read_input(alloc, shape, words)?;
    Ok(PlainCommand::State { input, at })
}

// The answers to questions.
fn read_ask(alloc: Global, shape: &Shape, words: &[&str]) -> Result<PlainCommand, WordsError>
    requires { shape.now.positional ≡ codes "ask" ∷ map (λ w. w.now) words.now }
    ensures found { IfOk result (λ c. IsAsked shape.now c) }
    ensures usage { result ≡ Err Usage → (c : PlainCommand) → ¬ (IsAsked shape.now c) }
{
    if shape.at.is_some() || shape.attribute.is_some() {
        return Err(WordsError::Usage);
    }
    if !has_no_window(shape) || !is_unmade(shape) {
        return Err(WordsError::Usage);
    }
    if !are_workers(shape.workers) {
        return Err(WordsError::Usage);
    }
    let Some(questions) = file_name(shape.questions) else {
        return Err(WordsError::Usage);
    };
    let input = read_input(alloc, shape, words)?;
    let questions = Text::from_bytes(alloc, questions.as_bytes())?;
    let once = shape.once.is_some();
    Ok(PlainCommand::Ask {
        input,
        questions,
        once,
    })
}

// The requests of disks.
fn read_disks(alloc: Global, shape: &Shape, words: &[&str]) -> Result<PlainCommand, WordsError>
    requires { shape.now.positional ≡ codes "disks" ∷ map (λ w. w.now) words.now }
    ensures found { IfOk result (λ c. IsAsked shape.now c) }
    ensures usage { result ≡ Err Usage → (c : PlainCommand) → ¬ (IsAsked shape.now c) }
{
    if shape.at.is_some() || shape.attribute.is_some() || !is_unasked(shape) {
        return Err(WordsError::Usage);
    }
    if !has_no_window(shape) || !is_unmade(shape) {
        return Err(WordsError::Usage);
    }
    let input = read_input(alloc, shape, words)?;
    Ok(PlainCommand::Disks { input })
}

/// Where events come from: an event list, or the traces in folders. `Usage` comes exactly where the words give neither.
pub fn read_input(alloc: Global, shape: &Shape, words: &[&str]) -> Result<Input, WordsError>
    ensures found { IfOk result (λ i. GivesInput shape.now (map (λ w. w.now) words.now) i) }
    ensures usage { result ≡ Err Usage → (i : Input) → ¬ (GivesInput shape.now (map (λ w. w.now) words.now) i) }
{
    if shape.list.is_none() {
        return read_traces(alloc, shape, words);
    }
    let Some(file) = file_name(shape.list) else {
        return Err(WordsError::Usage);
    };
    if !words.is_empty() || shape.drift.is_some() {
        return Err(WordsError::Usage);
    }
    Ok(Input::List(Text::from_bytes(alloc, file.as_bytes())?))
}

// Folders, and the drift of their clocks.
fn read_traces(alloc: Global, shape: &Shape, words: &[&str]) -> Result<Input, WordsError>
    requires { shape.now.list ≡ None }
    ensures found { IfOk result (λ i. GivesInput shape.now (map (λ w. w.now) words.now) i) }
    ensures usage { result ≡ Err Usage → (i : Input) → ¬ (GivesInput shape.now (map (λ w. w.now) words.now) i) }
{
    let Some(drift) = read_drift(shape.drift) else {
        return Err(WordsError::Usage);
    };
    let dirs = read_folders(alloc, words)?;
    Ok(Input::Folders { dirs, drift })
}

// One or more folders.
fn read_folders(alloc: Global, words: &[&str]) -> Result<Items<Text>, WordsError>
    ensures found { IfOk result (λ folders. (folders ≡ map (λ w. w.now) words.now) × AreFolders (map (λ w. w.now) words.now)) }
    ensures usage { result ≡ Err Usage → ¬ (AreFolders (map (λ w. w.now) words.now)) }
{
    if words.is_empty() {
        return Err(WordsError::Usage);
    }
    let mut folders = Items::new(alloc);
    for word in words {
        if word.is_empty() {
            return Err(WordsError::Usage);
        }
        folders.push(Text::from_bytes(alloc, word.as_bytes())?)?;
    }
    Ok(folders)
}

// A drift, in parts per million.
fn read_drift(text: Option<&str>) -> Option<u32>
    ensures found { IfSome result (λ d. GivesDrift (option_map (λ t. t.now) text.entry) d) }
    ensures none { IfNone result ((d : ℕ) → ¬ (GivesDrift (option_map (λ t. t.now) text.entry) d)) }
{
    let Some(text) = text else {
        return Some(DRIFT);
    };
    let drift = read_number_below(text.as_bytes(), MAX_DRIFT as u64 + 1)? as u32;
    if drift == 0 { None } else { Some(drift) }
}

/// An instant, in ns, below 2^62. `None` comes exactly where the text is none.
pub fn read_instant(text: Option<&str>) -> Option<u64>
    ensures found { IfSome result (λ n. (option_map (λ t. t.now) text.entry ≡ Some (decimal n)) × (n < 2 ^ 62)) }
    ensures none { IfNone result ((n : ℕ) → n < 2 ^ 62 → option_map (λ t. t.now) text.entry ≢ Some (decimal n)) }
{
    read_number_below(text?.as_bytes(), TIME_END)
}

// The name of a file, which isn't empty.
fn file_name(text: Option<&str>) -> Option<&str>
    ensures found { IfSome result (λ name. (option_map (λ t. t.now) text.entry ≡ Some name.now) × (name.now ≢ [])) }
    ensures none { IfNone result ((name : List ℕ) → name ≢ [] → option_map (λ t. t.now) text.entry ≢ Some name) }
{
    let name = text?;
    if name.is_empty() { None } else { Some(name) }
}

// Whether the number of workers is absent, or 0.
fn are_workers(text: Option<&str>) -> bool
    ensures { IsTrue result ↔ GivesWorkers (option_map (λ t. t.now) text.entry) }
{
    match text {
        None => true,
        Some(text) => read_number_below(text.as_bytes(), 1).is_some(),
    }
}

/// Whether no option of `ask` is given but those of INPUT.
pub fn is_unasked(shape: &Shape) -> bool
    ensures { IsTrue result ↔ IsUnasked shape.now }
{
    shape.once.is_none() && shape.questions.is_none() && shape.workers.is_none()
}

// Whether no option is given but the drift.
fn is_bare(shape: &Shape) -> bool
    ensures { IsTrue result ↔ IsBare shape.now }
{
    shape.at.is_none()
        && shape.list.is_none()
        && shape.attribute.is_none()
        && is_unasked(shape)
        && has_no_window(shape)
        && is_unmade(shape)
}

/// Whether no option of a window is given.
pub fn has_no_window(shape: &Shape) -> bool
    ensures { IsTrue result ↔ HasNoWindow shape.now }
{
    shape.host.is_none() && shape.tid.is_none() && shape.from.is_none() && shape.to.is_none()
}

/// Whether no option of `make` is given.
pub fn is_unmade(shape: &Shape) -> bool
    ensures { IsTrue result ↔ IsUnmade shape.now }
{
    shape.number.is_none() && shape.hosts.is_none() && shape.rounds.is_none()
}
