//! The words of the command `path`.
ghost use Rattle.std.specs.Prelude.{◌≡◌, ◌≢◌, ◌∷◌, ◌<◌, ◌≤◌, ◌^◌, IfOk, IfSome, IfNone, Err, ℕ, Some, codes, map, option_map};
ghost use Rattle.std.specs.Fmt.{decimal};
ghost use Rattle.command_words.specs.Words.{GivesWindow, IsAsked};
ghost use Rattle.command_words.specs.declared.command.PlainCommand.{PlainCommand};
ghost use Rattle.command_words.specs.declared.words.WordsError.TheVariants.{Usage};

use crate::command::PlainCommand;
use crate::shape::Shape;
use crate::table::{is_unasked, is_unmade, read_input, read_instant};
use crate::words::WordsError;
use std::alloc::Global;
use trace_types::{MAX_HOSTS, read_number_below};

/// One more than the largest number of a thread.
const THREADS_END: u64 = 1 << 31;

// A thread, and two instants, in ns.
#[derive(Clone, Copy)]
struct Window {
    host: u32,
    tid: u32,
    from: u64,
    to: u64,
}

/// The critical path of a thread. `Usage` comes exactly where the words don't ask for one.
pub fn read_path(alloc: Global, shape: &Shape, words: &[&str]) -> Result<PlainCommand, WordsError>
    requires { shape.now.positional ≡ codes "path" ∷ map (λ w. w.now) words.now }
    ensures found { IfOk result (λ c. IsAsked shape.now c) }
    ensures usage { result ≡ Err Usage → (c : PlainCommand) → ¬ (IsAsked shape.now c) }
{
    if shape.at.is_some() || shape.attribute.is_some() {
        return Err(WordsError::Usage);
    }
    if !is_unasked(shape) || !is_unmade(shape) {
        return Err(WordsError::Usage);
    }
    let Some(window) = read_window(shape) else {
        return Err(WordsError::Usage);
    };
    let input = read_input(alloc, shape, words)?;
    let Window {
        host,
        tid,
        from,
        to,
    } = window;
    Ok(PlainCommand::Path {
        input,
        host,
        tid,
        from,
        to,
    })
}

// The window of a thread.
fn read_window(shape: &Shape) -> Option<Window>
    ensures found { IfSome result (λ w. GivesWindow shape.now w.host w.tid w.from w.to) }
    ensures none { IfNone result ((host tid from to : ℕ) → ¬ (GivesWindow shape.now host tid from to)) }
{
    let host = read_host(shape.host)?;
    let tid = read_thread(shape.tid)?;
    let (from, to) = read_span(shape.from, shape.to)?;
    Some(Window {
        host,
        tid,
        from,
        to,
    })
}

// A host, from 0 to 63.
fn read_host(text: Option<&str>) -> Option<u32>
    ensures found { IfSome result (λ n. (option_map (λ t. t.now) text.entry ≡ Some (decimal n)) × (n < 64)) }
    ensures none { IfNone result ((n : ℕ) → n < 64 → option_map (λ t. t.now) text.entry ≢ Some (decimal n)) }
{
    Some(read_number_below(text?.as_bytes(), MAX_HOSTS as u64)? as u32)
}

// A thread, from 1 to 2^31 - 1.
fn read_thread(text: Option<&str>) -> Option<u32>
    ensures found { IfSome result (λ n. (option_map (λ t. t.now) text.entry ≡ Some (decimal n)) × (1 ≤ n) × (n < 2 ^ 31)) }
    ensures none { IfNone result ((n : ℕ) → 1 ≤ n → n < 2 ^ 31 → option_map (λ t. t.now) text.entry ≢ Some (decimal n)) }
{
    let tid = read_number_below(text?.as_bytes(), THREADS_END)? as u32;
    if tid == 0 { None } else { Some(tid) }
}

/// Two instants, in ns, one before the other. `None` comes exactly where the texts are none.
pub fn read_span(from: Option<&str>, to: Option<&str>) -> Option<(u64, u64)>
    ensures found { IfSome result (λ s. (option_map (λ t. t.now) from.entry ≡ Some (decimal s.0)) × (option_map (λ t. t.now) to.entry ≡ Some (decimal s.1)) × (s.0 < s.1) × (s.1 < 2 ^ 62)) }
    ensures none { IfNone result ((f t : ℕ) → f < t → t < 2 ^ 62 → option_map (λ t. t.now) from.entry ≡ Some (decimal f) → option_map (λ t. t.now) to.entry ≢ Some (decimal t)) }
{
    let from = read_instant(from)?;
    let to = read_instant(to)?;
    if from < to { Some((from, to)) } else { None }
}
