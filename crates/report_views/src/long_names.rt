//! Names that are too long to be copied into each line. The words that stand for them are made once.
ghost use Rattle.std.specs.Prelude.{◌≡◌, ◌<◌, ◌≤◌, ◌↔◌, true, All, IfNone, IfOk, IfSome, IsTrue, OnSome, length, map};
ghost use Rattle.trace_types.specs.ByteTexts.{byte_text};
ghost use Rattle.event_list.specs.Names.{carries_name, names_at};
ghost use Rattle.event_list.specs.Written.{name_parsed};
ghost use Rattle.report_views.specs.LongNames.{AreSpelled};
ghost use Rattle.report_views.specs.Stretches.{AreShort};

use event_list::{name_of, names_of};
use sqlite_items::Items;
use std::alloc::Global;
use trace_types::{Merged, OutOfMemory, Text, write_byte_text};

/// A name of more bytes is long.
pub const LONG_NAME: usize = 1_024;

/// The words that stand in lines for all names of all hosts, where some name is long; else none. The only error is
/// lack of memory.
pub fn spelled_names(
    alloc: Global,
    names: &[Items<Text>],
) -> Result<Option<Vec<Items<Text>>>, OutOfMemory>
    ensures some { IfOk result (λ words. IfSome words (λ w. AreSpelled names.now w.items)) }
    ensures long { IfOk result (λ words. OnSome words (¬ (All (AreShort LONG_NAME) names.now))) }
    ensures none { IfOk result (λ words. IfNone words (All (AreShort LONG_NAME) names.now)) }
{
    if are_all_short(names, LONG_NAME) {
        return Ok(None);
    }
    Ok(Some(spell_lists(alloc, names)?))
}

/// Whether no name of any host has more bytes.
pub fn are_all_short(names: &[Items<Text>], most: usize) -> bool
    ensures { IsTrue result ↔ All (AreShort most) names.now }
{
    names.iter().all(|names| are_short(names.as_slice(), most))
}

fn are_short(names: &[Text], most: usize) -> bool
    ensures { IsTrue result ↔ AreShort most names.now }
{
    names.iter().all(|name| name.as_bytes().len() <= most)
}

// The words of all hosts' names.
fn spell_lists(alloc: Global, names: &[Items<Text>]) -> Result<Vec<Items<Text>>, OutOfMemory>
    ensures { IfOk result (λ words. AreSpelled names.now words.items) }
{
    let mut words = Vec::new(alloc);
    for list in names {
        words.push(spell_list(alloc, list.as_slice())?)?;
    }
    Ok(words)
}

// The words of a host's names.
fn spell_list(alloc: Global, names: &[Text]) -> Result<Items<Text>, OutOfMemory>
    ensures { IfOk result (λ words. words ≡ map byte_text names.now) }
{
    let mut words = Vec::new(alloc);
    for name in names {
        words.push(spell_name(alloc, name.as_bytes())?)?;
    }
    Ok(Items::from_vec(words))
}

fn spell_name(alloc: Global, name: &[u8]) -> Result<Text, OutOfMemory>
    ensures { IfOk result (λ word. word ≡ byte_text name.now) }
{
    let mut word = Vec::with_capacity(alloc, name.len())?;
    write_byte_text(name, &mut word)?;
    Ok(Text::from_vec(word))
}

/// The word that stands for the name of an event, where that name is long. `words` are those of all names.
pub fn long_word<'a>(
    names: &[Items<Text>],
    words: &'a [Items<Text>],
    event: &Merged,
) -> Option<&'a [u8]>
    requires { AreSpelled names.now words.now }
    ensures some { IfSome result (λ word. word.now ≡ byte_text (name_parsed (names_at names.now event.now.event.host) event.now.event.kind)) }
    ensures long { OnSome result (LONG_NAME < length (name_parsed (names_at names.now event.now.event.host) event.now.event.kind)) }
    ensures carries { OnSome result (carries_name event.now.event.kind ≡ true) }
    ensures none { IfNone result (length (name_parsed (names_at names.now event.now.event.host) event.now.event.kind) ≤ LONG_NAME) }
{
    let host = event.event.host;
    let name = name_of(names_of(names, host), &event.event.kind);
    if name.len() <= LONG_NAME {
        return None;
    }
    Some(name_of(names_of(words, host), &event.event.kind))
}
