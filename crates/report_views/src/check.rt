//! What a host's trace declares, as a line.
ghost use Rattle.std.specs.Prelude.{◌≡◌, ◌++◌, IfOk, OnOk, OnErr};
ghost use Rattle.type_scope.specs.Traces.{trace};
ghost use Rattle.report_views.specs.CheckText.{host_line};

use std::alloc::Global;
use std::io::Write;
use trace_types::OutOfMemory;
use type_table::TraceMeta;

/// Appends the line of a host: how many streams, events and clocks its trace declares. The only error is lack of memory,
/// after which nothing has changed.
pub fn check_text(
    alloc: Global,
    host: u32,
    meta: &TraceMeta,
    out: &mut Vec<u8>,
) -> Result<(), OutOfMemory>
    ensures text { OnOk result (out.new.items ≡ out.old.items ++ host_line host (trace meta.now)) }
    ensures err { OnErr result (out.new.items ≡ out.old.items) }
{
    out.append(&mut line_of(alloc, host, meta)?)?;
    Ok(())
}

#[tactic(auto, unfolding(type_scope::specs::Traces::trace))]
fn line_of(alloc: Global, host: u32, meta: &TraceMeta) -> Result<Vec<u8>, OutOfMemory>
    ensures { IfOk result (λ line. line.items ≡ host_line host (trace meta.now)) }
{
    let mut line = Vec::new(alloc);
    let streams = meta.stream_count();
    let events = meta.event_count();
    let clocks = meta.clock_count();
    writeln!(
        line,
        "host {host} streams {streams} events {events} clocks {clocks}"
    )
    .map_err(|_| OutOfMemory)?;
    Ok(line)
}
