//! The text of a value.
ghost use Rattle.std.specs.Prelude.{◌≡◌, ◌++◌, OnOk};
ghost use Rattle.event_list.specs.Lines.{name_at};
ghost use Rattle.event_list.specs.Names.{names_at};
ghost use Rattle.report_views.specs.Values.{host_of, int_text, value_text};

use crate::call_name::call_name;
use sqlite_items::Items;
use std::alloc::Global;
use std::io::Write;
use trace_types::{OutOfMemory, Path, Text, ThreadLeaf, Value, thread_status, write_byte_text};

/// Appends a path's value: its kind and itself. A call has its name, among those of the path's host in `names`.
pub fn write_value(
    alloc: Global,
    names: &[Items<Text>],
    path: Path,
    value: &Value,
    out: &mut Vec<u8>,
) -> Result<(), OutOfMemory>
    ensures { OnOk result (out.new.items ≡ out.old.items ++ value_text (names_at names.now) path value.now) }
{
    match *value {
        Value::Null => append(b"null", out),
        Value::Int(number) => write_number(path, number, out),
        Value::Comm(comm) => {
            append(b"comm ", out)?;
            write_byte_text(comm.as_bytes(), out)
        }
        Value::Call(number) => {
            let name = call_name(alloc, name_of(names, host_of(path), number))?;
            append(b"call ", out)?;
            write_byte_text(&name, out)
        }
    }
}

// The name of a number, among those of a host; the empty one where there is none.
fn name_of(names: &[Items<Text>], host: u32, number: u32) -> &[u8]
    ensures { result.now ≡ name_at (names_at names.now host) number }
{
    let Some(names) = names.get(host as usize) else {
        return &[];
    };
    match names.as_slice().get(number as usize) {
        Some(name) => name.as_bytes(),
        None => &[],
    }
}

// The host of a path.
fn host_of(path: Path) -> u32
    ensures { result ≡ host_of path }
{
    match path {
        Path::Cpu { host, .. } | Path::Thread { host, .. } => host,
    }
}

// A number, which on a Status path is the word of a status.
fn write_number(path: Path, number: i64, out: &mut Vec<u8>) -> Result<(), OutOfMemory>
    ensures { OnOk result (out.new.items ≡ out.old.items ++ int_text path number) }
{
    let is_status = matches!(
        path,
        Path::Thread {
            leaf: ThreadLeaf::Status,
            ..
        }
    );
    match number {
        thread_status::RUNNING if is_status => append(b"status running", out),
        thread_status::READY if is_status => append(b"status ready", out),
        thread_status::BLOCKED if is_status => append(b"status blocked", out),
        thread_status::ENDED if is_status => append(b"status ended", out),
        _ => write!(out, "int {number}").map_err(|_| OutOfMemory),
    }
}

fn append(bytes: &[u8], out: &mut Vec<u8>) -> Result<(), OutOfMemory>
    ensures { OnOk result (out.new.items ≡ out.old.items ++ bytes.now) }
{
    out.extend_from_slice(bytes)?;
    Ok(())
}
