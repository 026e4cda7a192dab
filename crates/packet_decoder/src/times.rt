//! Clock values and times.
ghost use Rattle.std.specs.Prelude.{◌≡◌, ◌≤◌, IfSome};
ghost use Rattle.packet_decoder.specs.Times.{clock_after, clock_of, in_range, only_rate, rate_of, timestamp_in, time_of, time_after};
ghost use Rattle.type_table.specs.TraceMetas.{IsRate};

use ctf_fields::{below_64, integer_type};
use trace_types::Cause;
use type_table::{ClockRate, Table, TraceMeta};

/// Nanoseconds in a second.
const SECOND: i128 = 1_000_000_000;

/// The greatest time, in ns.
const LAST_TIME: i128 = 0x3FFF_FFFF_FFFF_FFFF;

/// The timestamp of an event's header, of `size` bits from 1 to 64, and the index of the clock that its type names.
#[derive(Clone, Copy, Debug, PartialEq, Eq)]
pub struct Timestamp {
    pub value: u64,
    pub size: u32,
    pub clock: Option<u32>,
}

/// The timestamp that a number is, with the index of its type.
#[inline(always)]
pub fn timestamp_in(table: &Table, number: Option<(i128, u32)>) -> Option<Timestamp>
    ensures is { result ≡ timestamp_in table.now number }
    ensures sized { IfSome result (λ s. (1 ≤ s.size) × (s.size ≤ 64)) }
{
    let (value, ty) = number?;
    let integer = integer_type(table, ty)?;
    let value = below_64(Some(value))?;
    Some(Timestamp {
        value,
        size: integer.size,
        clock: integer.clock,
    })
}

/// The clock's value after a timestamp, and the time then, in ns.
#[tactic(auto, unfolding(crate::specs::Times::time_after))]
pub fn time_after(
    meta: &TraceMeta,
    timestamp: Option<Timestamp>,
    clock: u64,
) -> Result<(u64, u64), Cause>
    requires { IfSome timestamp (λ s. (1 ≤ s.size) × (s.size ≤ 64)) }
    ensures { result ≡ time_after meta.now timestamp clock }
{
    let value = clock_after(clock, timestamp)?;
    let time = in_range(time_of(rate_of(meta, timestamp), value))?;
    Ok((value, time))
}

// The clock's value after a timestamp.
fn clock_after(clock: u64, timestamp: Option<Timestamp>) -> Result<u64, Cause>
    requires { IfSome timestamp (λ s. (1 ≤ s.size) × (s.size ≤ 64)) }
    ensures { result ≡ clock_after clock timestamp }
{
    let Some(timestamp) = timestamp else {
        return Ok(clock);
    };
    if timestamp.size >= 64 {
        if timestamp.value < clock {
            return Err(Cause::TimeBack);
        }
        return Ok(timestamp.value);
    }
    let span = 1u64 << timestamp.size;
    let low = clock % span;
    let carry = if timestamp.value < low { span } else { 0 };
    let next = u128::from(clock - low) + u128::from(timestamp.value) + u128::from(carry);
    if next > u128::from(u64::MAX) {
        return Err(Cause::TimeRange);
    }
    Ok(next as u64)
}

// How the clock counts that a timestamp's type names, and else the only one that is declared.
fn rate_of(meta: &TraceMeta, timestamp: Option<Timestamp>) -> ClockRate
    ensures is { result ≡ rate_of meta.now (clock_of timestamp) }
    ensures rate { IsRate result }
{
    if let Some(
        Timestamp {
            clock: Some(index),
            ..
        },
    ) = timestamp
    {
        if let Some(rate) = meta.clock(index) {
            return rate;
        }
    }
    match only_rate(meta) {
        Some(rate) => rate,
        None => ClockRate {
            freq: 1_000_000_000,
            offset: 0,
            offset_s: 0,
        },
    }
}

fn only_rate(meta: &TraceMeta) -> Option<ClockRate>
    ensures is { result ≡ only_rate meta.now }
    ensures rate { IfSome result IsRate }
{
    if meta.clock_count() == 1 {
        meta.clock(0)
    } else {
        None
    }
}

// The time of a clock's value in ns, rounded down.
fn time_of(rate: ClockRate, value: u64) -> i128
    requires { IsRate rate }
    ensures { result ≡ time_of rate value }
{
    let counts = rate.offset + i128::from(value);
    if rate.freq == 1_000_000_000 {
        return rate.offset_s * SECOND + counts;
    }
    rate.offset_s * SECOND + (counts * SECOND).div_euclid(i128::from(rate.freq))
}

// A time from 1 to 2^62 - 1 ns.
fn in_range(time: i128) -> Result<u64, Cause>
    ensures { result ≡ in_range time }
{
    if time < 1 || time > LAST_TIME {
        return Err(Cause::TimeRange);
    }
    Ok(time as u64)
}
