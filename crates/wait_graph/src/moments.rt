//! What the processors do before each event of a merge.
ghost use Rattle.std.specs.Prelude.{◌≡◌, ◌<◌, ◌≤◌, List, IfOk, None, Some, length, replicate, slice_set};
ghost use Rattle.trace_types.specs.declared.limits.TheConstants.{MAX_EVENTS};
ghost use Rattle.host_merge.specs.declared.placed.Placed.{Placed as PlacedMessage};
ghost use Rattle.wait_graph.specs.Graph.{AreMessagePlaces};
ghost use Rattle.wait_graph.specs.Moments.{AreMoments, AreSends, StepsTo, moment_in};

use crate::moment::{CpuName, Moment};
use host_merge::Placed;
use indexmap::IndexMap;
use std::alloc::Global;
use trace_types::{Event, Merged, OutOfMemory};

/// For each place where a matched message was received after its send, the place of the send.
pub fn sends_by_place(
    alloc: Global,
    merged: &[Merged],
    placed: &[Placed],
) -> Result<Vec<Option<u32>>, OutOfMemory>
    requires messages { AreMessagePlaces merged.now placed.now }
    ensures { IfOk result (λ sends. AreSends merged.now placed.now sends.items) }
{
    let mut sends = vec![in alloc; None; merged.len()]?;
    note_sends(&mut sends, merged, placed);
    Ok(sends)
}

fn note_sends(sends: &mut [Option<u32>], merged: &[Merged], placed: &[Placed])
    requires messages { AreMessagePlaces merged.now placed.now }
    requires none { sends.old ≡ replicate (length merged.now) None }
    ensures { AreSends merged.now placed.now sends.new }
{
    for message in placed {
        note_send(sends, message);
    }
}

fn note_send(sends: &mut [Option<u32>], message: &Placed)
    requires within { message.now.receive < length sends.old }
    ensures put { message.now.send < message.now.receive → sends.new ≡ slice_set sends.old message.now.receive (Some message.now.send) }
    ensures skip { message.now.receive ≤ message.now.send → sends.new ≡ sends.old }
{
    if message.send < message.receive {
        sends[message.receive as usize] = Some(message.send);
    }
}

/// The moments of the events' processors before each event. The only error is lack of memory.
pub fn moments(
    alloc: Global,
    merged: &[Merged],
    sends: &[Option<u32>],
) -> Result<Vec<Moment>, OutOfMemory>
    requires few { length merged.now ≤ MAX_EVENTS }
    requires sends { length sends.now ≡ length merged.now }
    ensures { IfOk result (λ moments. (placed : List PlacedMessage) → AreMessagePlaces merged.now placed → AreSends merged.now placed sends.now → AreMoments merged.now placed moments.items) }
{
    let mut cpus = IndexMap::new(alloc);
    let mut moments = Vec::new(alloc);
    for (place, event) in merged.iter().enumerate() {
        let matched = sends[place].is_some();
        let before = step(&mut cpus, &event.event, place as u32, matched)?;
        moments.push(before)?;
    }
    Ok(moments)
}

// The moment before the event, while the table goes on to that after it.
fn step(
    cpus: &mut IndexMap<CpuName, Moment>,
    event: &Event,
    place: u32,
    matched: bool,
) -> Result<Moment, OutOfMemory>
    ensures { IfOk result (λ before. StepsTo event.now place matched cpus.old.entries before cpus.new.entries) }
{
    let name = CpuName {
        host: event.host,
        cpu: event.cpu,
    };
    let before = moment_of(cpus, name);
    cpus.insert(name, before.after(&event.kind, place, matched))?;
    Ok(before)
}

fn moment_of(cpus: &IndexMap<CpuName, Moment>, name: CpuName) -> Moment
    ensures { result ≡ moment_in cpus.now.entries name }
{
    match cpus.get(&name) {
        Some(moment) => *moment,
        None => Moment {
            thread: None,
            irq: None,
            softirq: None,
            receive: None,
        },
    }
}
