//! The summary of made traces.
ghost use Rattle.std.specs.Prelude.{◌≡◌, ◌++◌, ◌^◌, ◌<◌, IfOk, OnOk, OnErr, length};
ghost use Rattle.report_views.specs.Made.{inverted_count_line, made_line, made_text};

use crate::clock_lines::write_trees;
use crate::host_report::write_messages_line;
use host_merge::{Placed, inverted};
use host_tree::Parent;
use message_match::Messages;
use std::alloc::Global;
use std::io::Write;
use trace_types::{Merged, OutOfMemory};

/// Appends the summary of so many made hosts and rounds: how many events they have, and how messages and clocks fit. The only
/// error is lack of memory, after which nothing has changed.
pub fn made_text(
    alloc: Global,
    hosts: u32,
    rounds: u32,
    messages: &Messages,
    forest: &[Parent],
    merged: &[Merged],
    placed: &[Placed],
    out: &mut Vec<u8>,
) -> Result<(), OutOfMemory>
    requires { length placed.now < 2 ^ 32 }
    ensures text { OnOk result (out.new.items ≡ out.old.items ++ made_text hosts rounds messages.now.matched.items messages.now.ambiguous forest.now merged.now placed.now) }
    ensures err { OnErr result (out.new.items ≡ out.old.items) }
{
    let mut text = made_lines(alloc, hosts, rounds, messages, forest, merged, placed)?;
    out.append(&mut text)?;
    Ok(())
}

fn made_lines(
    alloc: Global,
    hosts: u32,
    rounds: u32,
    messages: &Messages,
    forest: &[Parent],
    merged: &[Merged],
    placed: &[Placed],
) -> Result<Vec<u8>, OutOfMemory>
    requires { length placed.now < 2 ^ 32 }
    ensures { IfOk result (λ text. text.items ≡ made_text hosts rounds messages.now.matched.items messages.now.ambiguous forest.now merged.now placed.now) }
{
    let mut text = Vec::new(alloc);
    write_made_line(hosts, rounds, merged.len(), &mut text)?;
    write_messages_line(messages, &mut text)?;
    write_trees(forest, &mut text)?;
    write_inverted_count(alloc, placed, &mut text)?;
    Ok(text)
}

fn write_made_line(
    hosts: u32,
    rounds: u32,
    events: usize,
    out: &mut Vec<u8>,
) -> Result<(), OutOfMemory>
    ensures { OnOk result (out.new.items ≡ out.old.items ++ made_line hosts rounds events) }
{
    writeln!(out, "made hosts {hosts} rounds {rounds} events {events}").map_err(|_| OutOfMemory)
}

fn write_inverted_count(
    alloc: Global,
    placed: &[Placed],
    out: &mut Vec<u8>,
) -> Result<(), OutOfMemory>
    requires { length placed.now < 2 ^ 32 }
    ensures { OnOk result (out.new.items ≡ out.old.items ++ inverted_count_line placed.now) }
{
    let count = inverted(alloc, placed)?.len();
    writeln!(out, "inverted {count}").map_err(|_| OutOfMemory)
}
