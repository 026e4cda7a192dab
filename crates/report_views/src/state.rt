//! The text of the state at an instant.
ghost use Rattle.std.specs.Prelude.{◌≡◌, ◌++◌, ◌∷◌, [], ℕ, List, IfOk, OnOk, OnErr, flat_map, filter, IsPermutation};
ghost use Rattle.std.specs.List.{AllPairs};
ghost use Rattle.trace_types.specs.Paths.{rank_of};
ghost use Rattle.event_list.specs.Names.{names_at};
ghost use Rattle.event_list.specs.Order.{RiseFrom};
ghost use Rattle.kernel_provider.specs.Replay.{state_at};
ghost use Rattle.report_views.specs.StateText.{IsStateText, IsNotAfter, row_text, has_value};

use crate::rows::{Row, rows_at};
use crate::value_text::write_value;
use event_list::MergedTrace;
use sqlite_items::Items;
use std::alloc::Global;
use std::io::Write;
use trace_types::{OutOfMemory, Text, Value};

/// Appends the text of the state at an instant. The only error is lack of memory, after which nothing has changed.
pub fn state_text(
    alloc: Global,
    trace: &MergedTrace,
    at: u64,
    out: &mut Vec<u8>,
) -> Result<(), OutOfMemory>
    requires { RiseFrom 0 trace.now.events.items }
    ensures text { OnOk result ((text : List ℕ) × IsStateText (names_at trace.now.names.items) (state_at trace.now.events.items at) text × (out.new.items ≡ out.old.items ++ text)) }
    ensures err { OnErr result (out.new.items ≡ out.old.items) }
{
    out.append(&mut state_lines(alloc, trace, at)?)?;
    Ok(())
}

fn state_lines(alloc: Global, trace: &MergedTrace, at: u64) -> Result<Vec<u8>, OutOfMemory>
    requires { RiseFrom 0 trace.now.events.items }
    ensures { IfOk result (λ text. IsStateText (names_at trace.now.names.items) (state_at trace.now.events.items at) text.items) }
{
    let mut rows = rows_at(alloc, &trace.events, at)?;
    sort_rows(&mut rows);
    rows_text(alloc, &trace.names, &rows)
}

// Puts rows into the order in which they are listed.
fn sort_rows(rows: &mut [Row])
    ensures permutation { IsPermutation rows.old rows.new }
    ensures order { AllPairs IsNotAfter rows.new }
{
    rows.sort_unstable_by_key(
        |row: &Row|
            ensures { result ≡ rank_of row.now.path }
        { row.path.rank() },
    );
}

// A line for each row that has a value.
fn rows_text(alloc: Global, names: &[Items<Text>], rows: &[Row]) -> Result<Vec<u8>, OutOfMemory>
    ensures { IfOk result (λ text. text.items ≡ flat_map (row_text (names_at names.now)) (filter has_value rows.now)) }
{
    let mut text = Vec::new(alloc);
    for row in rows {
        if row.value != Value::Null {
            write_row(alloc, names, row, &mut text)?;
        }
    }
    Ok(text)
}

fn write_row(
    alloc: Global,
    names: &[Items<Text>],
    row: &Row,
    out: &mut Vec<u8>,
) -> Result<(), OutOfMemory>
    ensures { OnOk result (out.new.items ≡ out.old.items ++ row_text (names_at names.now) row.now) }
{
    let path = row.path;
    write!(out, "{path} ").map_err(|_| OutOfMemory)?;
    write_value(alloc, names, path, &row.value, out)?;
    out.push(b'\n')?;
    Ok(())
}
