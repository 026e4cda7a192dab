//! Feeds the steps of a merge to a shared history.
ghost use Rattle.std.specs.Prelude.{◌≡◌, IfOk, OnOk};
ghost use Rattle.history_core.specs.Agreement.{IsMerge};
ghost use Rattle.history_tests.specs.Fed.{IsAt};

use history_lock::{Builder, Pass, SharedHistory};
use ht_outside::{Gate, Point, Who};
use kernel_provider::Provider;
use std::alloc::Global;
use std::sync::Wait;
use trace_types::{Merged, OutOfMemory};

/// A shared history of a merge, its builder with the provider of its steps, and its first pass.
pub fn opened(
    alloc: Global,
    events: &[Merged],
) -> Result<(SharedHistory, Builder, Provider, Pass), OutOfMemory>
    requires merge { IsMerge events.now }
    ensures own { IfOk result (λ r. (r.1.table ≡ r.0) × (r.3.table ≡ r.0)) }
    ensures at { IfOk result (λ r. IsAt events.now r.1 r.2) }
{
    let provider = Provider::new(alloc);
    let (shared, builder, pass) = SharedHistory::open(alloc, events)?;
    Ok((shared, builder, provider, pass))
}

/// Feeds the next steps of a merge, at most so many, and comes to the gate before each.
pub fn feed_some<R: Wait, G: Gate>(
    rt: &R,
    shared: &SharedHistory,
    builder: &mut Builder,
    provider: &mut Provider,
    events: &[Merged],
    steps: u32,
    gate: &G,
) -> Result<(), OutOfMemory>
    requires own { builder.old.table ≡ shared.now }
    requires at { IsAt events.now builder.old provider.old }
    ensures own { builder.new.table ≡ shared.now }
    ensures at { OnOk result (IsAt events.now builder.new provider.new) }
{
    for _ in 0..steps {
        gate.pass(Who::Builder, Point::BeforeEvent);
        let Some(step) = provider.next_step(events)? else {
            break;
        };
        shared.feed(rt, builder, step, gate)?;
    }
    Ok(())
}
