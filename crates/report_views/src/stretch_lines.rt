//! The text of how an attribute's value changed over a range.
ghost use Rattle.std.specs.Prelude.{◌≡◌, ◌++◌, ◌<◌, ℕ, List, IfOk, OnOk, OnErr, flat_map};
ghost use Rattle.event_list.specs.Names.{names_at};
ghost use Rattle.kernel_provider.specs.Replay.{state_at};
ghost use Rattle.kernel_provider.specs.Steps.{steps_of};
ghost use Rattle.history_core.specs.Agreement.{IsMerge};
ghost use Rattle.history_core.specs.Stands.{Stands};
ghost use Rattle.report_views.specs.StretchesText.{IsRangeText, stretch_text};
ghost use Rattle.trace_types.specs.declared.event.Merged.{Merged};
ghost use Rattle.trace_types.specs.declared.limits.TheConstants.{TIME_END};

use crate::value_text::write_value;
use event_list::MergedTrace;
use history_core::{History, history_of};
use range_query::{Stretch, range};
use sqlite_items::Items;
use std::alloc::Global;
use std::io::Write;
use trace_types::{OutOfMemory, Path, Text};

/// Appends how the value of an attribute changed from one instant up to another, in ns. The only error is lack of memory, after
/// which nothing has changed.
pub fn range_text(
    alloc: Global,
    trace: &MergedTrace,
    from: u64,
    to: u64,
    path: Path,
    out: &mut Vec<u8>,
) -> Result<(), OutOfMemory>
    requires merge { IsMerge trace.now.events.items }
    requires order { from < to }
    requires time { to < TIME_END }
    ensures text { OnOk result ((text : List ℕ) × IsRangeText (names_at trace.now.names.items) (state_at trace.now.events.items) from to path text × (out.new.items ≡ out.old.items ++ text)) }
    ensures err { OnErr result (out.new.items ≡ out.old.items) }
{
    out.append(&mut range_lines(alloc, trace, from, to, path)?)?;
    Ok(())
}

/// Appends the stretches of an attribute's value, a line each, in their order. A call has its name, among those of the path's
/// host in `names`. The only error is lack of memory, after which nothing has changed.
pub fn stretches_text(
    alloc: Global,
    names: &[Items<Text>],
    path: Path,
    stretches: &[Stretch],
    out: &mut Vec<u8>,
) -> Result<(), OutOfMemory>
    ensures text { OnOk result (out.new.items ≡ out.old.items ++ flat_map (stretch_text (names_at names.now) path) stretches.now) }
    ensures err { OnErr result (out.new.items ≡ out.old.items) }
{
    out.append(&mut lines_of(alloc, names, path, stretches)?)?;
    Ok(())
}

fn range_lines(
    alloc: Global,
    trace: &MergedTrace,
    from: u64,
    to: u64,
    path: Path,
) -> Result<Vec<u8>, OutOfMemory>
    requires merge { IsMerge trace.now.events.items }
    requires order { from < to }
    requires time { to < TIME_END }
    ensures { IfOk result (λ text. IsRangeText (names_at trace.now.names.items) (state_at trace.now.events.items) from to path text.items) }
{
    let history = history_of(alloc, &trace.events)?;
    lines_over(alloc, &trace.names, &history, from, to, path)
}

// The same, of the history of a whole merge.
fn lines_over(
    alloc: Global,
    names: &[Items<Text>],
    history: &History,
    from: u64,
    to: u64,
    path: Path,
) -> Result<Vec<u8>, OutOfMemory>
    requires order { from < to }
    requires time { to < TIME_END }
    ensures { IfOk result (λ text. (merge : List Merged) → IsMerge merge → Stands (steps_of merge) history.now → IsRangeText (names_at names.now) (state_at merge) from to path text.items) }
{
    let answer = range(alloc, history, from, to, path)?;
    lines_of(alloc, names, path, &answer.stretches)
}

// A line for each stretch.
fn lines_of(
    alloc: Global,
    names: &[Items<Text>],
    path: Path,
    stretches: &[Stretch],
) -> Result<Vec<u8>, OutOfMemory>
    ensures { IfOk result (λ text. text.items ≡ flat_map (stretch_text (names_at names.now) path) stretches.now) }
{
    let mut text = Vec::new(alloc);
    for stretch in stretches {
        write_stretch(alloc, names, path, stretch, &mut text)?;
    }
    Ok(text)
}

fn write_stretch(
    alloc: Global,
    names: &[Items<Text>],
    path: Path,
    stretch: &Stretch,
    out: &mut Vec<u8>,
) -> Result<(), OutOfMemory>
    ensures { OnOk result (out.new.items ≡ out.old.items ++ stretch_text (names_at names.now) path stretch.now) }
{
    let Stretch { from, to, value } = *stretch;
    write!(out, "stretch {from} {to} {path} ").map_err(|_| OutOfMemory)?;
    write_value(alloc, names, path, &value, out)?;
    out.push(b'\n')?;
    Ok(())
}
