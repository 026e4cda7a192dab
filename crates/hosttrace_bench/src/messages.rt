//! The messages between two hosts, whose network events are made in memory.
ghost use Rattle.std.specs.Prelude.{◌≡◌, ◌≤◌, length};
ghost use Rattle.trace_types.specs.declared.limits.TheConstants.{MAX_EVENTS};
ghost use Rattle.message_match.specs.Messages.{AreNumbered, AreSmall};

use crate::nanoseconds_since;
use anyhow::bail;
use message_match::{Messages, matches};
use std::alloc::{AllocError, Global};
use std::process::ExitCode;
use std::time::Instant;
use trace_types::{Event, HostEvents, KernelEvent, MAX_EVENTS, OutOfMemory, SegKey, Text};

const RUNS: u32 = 5;

const SEED: u64 = 42;

/// Prints one line for a number of network events, of which one half are sends and the other
/// receives: the fewest nanoseconds of five runs of matching them, how many messages and ambiguous
/// keys there are, and the sum of the messages' places.
pub fn print_matches_time(rt: &HostRuntime, events: &str) -> anyhow::Result<ExitCode> {
    let events = events.parse::<u32>()?;
    let traffic = traffic_of(rt.alloc(), events / 2)?;
    print_time_of(rt, events, traffic)
}

fn print_time_of(rt: &HostRuntime, events: u32, traffic: Traffic) -> anyhow::Result<ExitCode> {
    let Traffic { first, second, .. } = traffic;
    if first.len() as u64 > MAX_EVENTS || second.len() as u64 > MAX_EVENTS {
        bail!("more events than a list may have");
    }
    let hosts = [
        host_of(rt.alloc(), 0, first),
        host_of(rt.alloc(), 1, second),
    ];
    print_fewest(rt, events, &hosts)
}

// So many segments.
fn traffic_of(alloc: Global, segments: u32) -> Result<Traffic, AllocError> {
    let mut traffic = Traffic {
        random: SEED,
        time: 0,
        last: key_of(SEED, false),
        first: Vec::new(alloc),
        second: Vec::new(alloc),
    };
    for _ in 0..segments {
        traffic.add()?;
    }
    Ok(traffic)
}

fn print_fewest(rt: &HostRuntime, events: u32, hosts: &[HostEvents]) -> anyhow::Result<ExitCode>
    requires numbered { AreNumbered hosts.now }
    requires small { AreSmall hosts.now }
{
    let mut fewest = u128::MAX;
    for _ in 0..RUNS {
        fewest = fewest.min(one_run(rt, hosts)?);
    }
    let (messages, ambiguous, places) = matched(rt.alloc(), hosts)?;
    println!(rt;
        "matches {events} nanoseconds {fewest} messages {messages} ambiguous {ambiguous} places {places}"
    )?;
    Ok(ExitCode::SUCCESS)
}

fn one_run(rt: &HostRuntime, hosts: &[HostEvents]) -> anyhow::Result<u128>
    requires numbered { AreNumbered hosts.now }
    requires small { AreSmall hosts.now }
{
    let begun = Instant::now(rt)?;
    let _found = matches(rt.alloc(), hosts)?;
    nanoseconds_since(rt, begun)
}

// How many messages and ambiguous keys there are, and the sum of the messages' places.
fn matched(alloc: Global, hosts: &[HostEvents]) -> Result<(usize, u64, u64), OutOfMemory>
    requires numbered { AreNumbered hosts.now }
    requires small { AreSmall hosts.now }
{
    let found = matches(alloc, hosts)?;
    Ok((found.matched.len(), found.ambiguous, places(&found)))
}

// A sum that another program can compare.
fn places(found: &Messages) -> u64 {
    let mut sum = 0u64;
    for message in &found.matched {
        sum = sum
            .wrapping_mul(31)
            .wrapping_add(u64::from(message.send))
            .wrapping_add(u64::from(message.receive));
    }
    sum
}

fn host_of(alloc: Global, number: u32, events: Vec<Event>) -> HostEvents
    ensures number { result.host ≡ number }
    ensures events { result.events ≡ events }
{
    HostEvents {
        host: number,
        hostname: Text::from_vec(Vec::new(alloc)),
        names: Vec::new(alloc),
        events,
        refused: Vec::new(alloc),
        packets: 0,
        incomplete: 0,
    }
}

// The events of two hosts that send segments to one another.
#[derive(Drop)]
struct Traffic {
    random: u64,
    time: u64,
    last: SegKey,
    first: Vec<Event>,
    second: Vec<Event>,
}

impl Traffic {
    // One more segment: of 16 one has the key of the segment before, and of 256 one is received by its
    // own sender.
    fn add(&mut self) -> Result<(), AllocError> {
        self.random = self
            .random
            .wrapping_mul(6364136223846793005)
            .wrapping_add(1442695040888963407);
        let draw = self.random >> 32;
        if draw & 15 != 0 {
            self.last = key_of(self.random, draw & 16 != 0);
        }
        let key = self.last;
        let from_second = key.saddr == 2;
        let to_second = from_second == ((draw >> 5) & 255 == 0);
        self.time = self.time.wrapping_add(draw & 1023);
        self.push(from_second, self.time, KernelEvent::Send { key })?;
        self.push(
            to_second,
            self.time.wrapping_add(500),
            KernelEvent::Receive { key },
        )
    }

    fn push(&mut self, at_second: bool, time: u64, kind: KernelEvent) -> Result<(), AllocError> {
        let event = Event {
            time,
            host: u32::from(at_second),
            cpu: 0,
            kind,
        };
        if at_second {
            self.second.push(event)?;
        } else {
            self.first.push(event)?;
        }
        Ok(())
    }
}

// The key of a segment of one of 64 connections, from the first host or from the second.
fn key_of(random: u64, from_second: bool) -> SegKey {
    SegKey {
        saddr: if from_second { 2 } else { 1 },
        daddr: if from_second { 1 } else { 2 },
        seq: (random >> 32) as u32,
        ack_seq: (random & 0xffff_ffff) as u32,
        source_port: 40000 + ((random >> 20) & 63) as u16,
        dest_port: 80,
        flags: 16,
    }
}
