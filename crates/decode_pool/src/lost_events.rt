//! What is missing between packets.
ghost use Rattle.std.specs.Prelude.{◌≡◌, ◌≤◌, ◌<◌, ◌^◌};
ghost use Rattle.decode_pool.specs.Marks.{plus_lost, is_gap, lost_since, span_of, value_of};

use packet_decoder::Counter;

/// How many events are missing, 2^64 - 1 where they are more, and whether packets are.
#[derive(Clone, Copy, Debug, PartialEq, Eq)]
pub struct LostEvents {
    pub events: u64,
    pub gap: bool,
}

/// A packet's number and its count of lost events.
#[derive(Clone, Copy, Debug, PartialEq, Eq)]
pub struct Counts {
    pub seq: Option<Counter>,
    pub discarded: Option<Counter>,
}

/// What is missing so far, and between two packets.
pub fn plus_lost(lost: LostEvents, before: Counts, now: Counts) -> LostEvents
    ensures { result ≡ plus_lost lost before now }
{
    LostEvents {
        events: lost
            .events
            .saturating_add(lost_since(before.discarded, now.discarded)),
        gap: lost.gap || is_gap(before.seq, now.seq),
    }
}

// After how many counts a counter begins again.
fn span_of(counter: Counter) -> u128
    ensures is { result ≡ span_of counter }
    ensures within { (1 ≤ result) × (result ≤ 2 ^ 64) }
{
    1 << counter.size.min(64)
}

// Whether packets are missing between these two.
fn is_gap(before: Option<Counter>, now: Option<Counter>) -> bool
    ensures { result ≡ is_gap before now }
{
    match (before, now) {
        (Some(before), Some(now)) => {
            u128::from(now.value) != (u128::from(before.value) + 1) % span_of(now)
        }
        _ => false,
    }
}

// How many events were lost between two packets.
fn lost_since(before: Option<Counter>, now: Option<Counter>) -> u64
    ensures { result ≡ lost_since before now }
{
    let Some(now) = now else {
        return 0;
    };
    let span = span_of(now);
    let lost = (u128::from(now.value) + (span - u128::from(value_of(before)) % span)) % span;
    lost as u64
}

fn value_of(counter: Option<Counter>) -> u64
    ensures { result ≡ value_of counter }
{
    match counter {
        Some(counter) => counter.value,
        None => 0,
    }
}
