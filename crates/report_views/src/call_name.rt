//! The names of system calls.
ghost use Rattle.std.specs.Prelude.{◌≡◌, IfOk};
ghost use Rattle.report_views.specs.Values.{call_name};

use std::alloc::Global;
use trace_types::{CALL_ENTRY, OutOfMemory};

/// A name without the first place of these bytes in it, as `openat` of `syscall_entry_openat`.
pub fn call_name(alloc: Global, name: &[u8]) -> Result<Vec<u8>, OutOfMemory>
    ensures { IfOk result (λ kept. kept.items ≡ call_name name.now) }
{
    let mut kept = Vec::new(alloc);
    let mut rest = name;
    while let [byte, after @ ..] = rest {
        if rest.starts_with(CALL_ENTRY) {
            kept.extend_from_slice(&rest[CALL_ENTRY.len()..])?;
            return Ok(kept);
        }
        kept.push(*byte)?;
        rest = after;
    }
    Ok(kept)
}
