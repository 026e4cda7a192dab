//! Who received what was sent.
ghost use Rattle.std.specs.Prelude.{◌≡◌, [], OnOk, IfOk, count_by};
ghost use Rattle.std.specs.List.{filter_map};
ghost use Rattle.indexmap.specs.IndexMap.{values};
ghost use Rattle.message_match.specs.Messages.{AreMessages, AreNumbered, AreSmall};
ghost use Rattle.message_match.specs.Standings.{Notes, is_ambiguous, message_in, no_events, receives, sends};

use crate::message::{Message, Messages};
use crate::segments::{Segments, note_receive, note_send};
use crate::standing::Placed;
use indexmap::IndexMap;
use std::alloc::{AllocError, Global};
use trace_types::{Event, HostEvents, KernelEvent, OutOfMemory};

// How many events' keys are looked up in a row.
const BLOCK: usize = 32;

/// Matches the segments that one host sent with those that another received, first with first.
///
/// What was sent by several hosts, received by several, or sent and received by one host can't be
/// matched: such keys are counted. What was only sent or only received is neither.
pub fn matches(alloc: Global, hosts: &[HostEvents]) -> Result<Messages, OutOfMemory>
    requires numbered { AreNumbered hosts.now }
    requires small { AreSmall hosts.now }
    ensures exact { IfOk result (λ r. AreMessages hosts.now r.matched.items r.ambiguous) }
{
    let mut segments = IndexMap::with_capacity(alloc, count_sends(hosts))?;
    note_sends(&mut segments, hosts)?;
    note_receives(&mut segments, hosts);
    messages_of(alloc, &segments)
}

// How many sends there are, for which the table has room: most keys are sent once.
fn count_sends(hosts: &[HostEvents]) -> usize {
    let mut count = 0usize;
    for host in hosts {
        let sends = host
            .events
            .iter()
            .filter(|event| matches!(&event.kind, KernelEvent::Send { .. }))
            .count();
        count = count.saturating_add(sends);
    }
    count
}

// Looks the sends of a block up before they are noted, and makes room for those that are new. The
// look-ups wait for memory side by side, where notes would wait one after the other.
fn make_room(segments: &mut Segments, events: &[Event]) -> Result<(), AllocError>
    ensures { segments.new.entries ≡ segments.old.entries }
{
    let new = events
        .iter()
        .take(BLOCK)
        .filter(|event| match event.kind {
            KernelEvent::Send { key } => segments.get_index_of(&key).is_none(),
            _ => false,
        })
        .count();
    segments.reserve(new)
}

// All sends first, in the order of hosts and places: so the table is in the order of its messages.
fn note_sends(segments: &mut Segments, hosts: &[HostEvents]) -> Result<(), OutOfMemory>
    requires numbered { AreNumbered hosts.now }
    requires small { AreSmall hosts.now }
    requires empty { segments.old.entries ≡ [] }
    ensures { OnOk result (Notes (sends hosts.now) no_events segments.new.entries) }
{
    for host in hosts {
        for (place, event) in host.events.iter().enumerate() {
            if place % BLOCK == 0 {
                make_room(segments, &host.events[place..])?;
            }
            if let KernelEvent::Send { key } = event.kind {
                let send = Placed {
                    time: event.time,
                    host: host.host,
                    place: place as u32,
                };
                note_send(segments, key, send)?;
            }
        }
    }
    Ok(())
}

fn note_receives(segments: &mut Segments, hosts: &[HostEvents])
    requires numbered { AreNumbered hosts.now }
    requires small { AreSmall hosts.now }
    requires sent { Notes (sends hosts.now) no_events segments.old.entries }
    ensures { Notes (sends hosts.now) (receives hosts.now) segments.new.entries }
{
    let mut guess = 0;
    for host in hosts {
        for (place, event) in host.events.iter().enumerate() {
            if let KernelEvent::Receive { key } = event.kind {
                let receive = Placed {
                    time: event.time,
                    host: host.host,
                    place: place as u32,
                };
                guess = note_receive(segments, key, receive, guess);
            }
        }
    }
}

fn messages_of(alloc: Global, segments: &Segments) -> Result<Messages, OutOfMemory>
    ensures matched { IfOk result (λ r. r.matched.items ≡ filter_map message_in (values segments.now)) }
    ensures ambiguous { IfOk result (λ r. r.ambiguous ≡ count_by is_ambiguous (values segments.now)) }
{
    let matched = matched_in(alloc, segments)?;
    let ambiguous = segments
        .values()
        .filter(|standing| standing.is_ambiguous())
        .count() as u64;
    Ok(Messages { matched, ambiguous })
}

fn matched_in(alloc: Global, segments: &Segments) -> Result<Vec<Message>, AllocError>
    ensures { IfOk result (λ v. v.items ≡ filter_map message_in (values segments.now)) }
{
    segments
        .values()
        .filter_map(|standing| standing.message())
        .collect(alloc)
}
