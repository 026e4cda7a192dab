//! Which system calls were made on each host, and how often.
ghost use Rattle.std.specs.Prelude.{◌≡◌, ◌<◌, ◌^◌, ◌++◌, ◌∷◌, [], if◌then◌else◌, nat_lt, All, IfOk, OnOk, flat_map, get_or, length, IsPermutation};
ghost use Rattle.std.specs.List.{AllPairs};
ghost use Rattle.report_views.specs.CallLines.{AreCalls, IsNotLess, call_line, call_lines, call_of, calls_below, compare_calls, counted_kind, counted_lines, set_more};

use crate::call_name::call_name;
use std::alloc::Global;
use std::cmp::Ordering;
use std::io::Write;
use trace_types::{Event, HostEvents, KernelEvent, OutOfMemory, Text, write_byte_text};

/// A system call that was made: its name, and the number of its event's name.
#[derive(Debug, Drop)]
pub struct Call {
    pub name: Text,
    pub number: usize,
}

/// Appends the lines of calls, host by host.
pub fn write_calls(
    alloc: Global,
    hosts: &[HostEvents],
    out: &mut Vec<u8>,
) -> Result<(), OutOfMemory>
    ensures { OnOk result (out.new.items ≡ out.old.items ++ flat_map call_lines hosts.now) }
{
    for host in hosts {
        write_host_calls(alloc, host, out)?;
    }
    Ok(())
}

fn write_host_calls(alloc: Global, host: &HostEvents, out: &mut Vec<u8>) -> Result<(), OutOfMemory>
    ensures { OnOk result (out.new.items ≡ out.old.items ++ call_lines host.now) }
{
    let counts = count_calls(alloc, &host.events, host.names.len())?;
    write_counted(alloc, host.host, &host.names, &counts, out)
}

// How often each call was made, by the number of its event's name.
fn count_calls(alloc: Global, events: &[Event], names: usize) -> Result<Vec<u64>, OutOfMemory>
    requires { length events.now < 2 ^ 60 }
    ensures { IfOk result (λ counts. AreCalls names events.now counts.items) }
{
    let mut counts: Vec<u64> = vec![in alloc; 0; names]?;
    for event in events {
        count_event(event.kind, &mut counts);
    }
    Ok(counts)
}

// Counts an event where it is an entry into a call that has a name.
fn count_event(kind: KernelEvent, counts: &mut Vec<u64>)
    requires { All (λ n. n < 2 ^ 60) counts.old.items }
    ensures { counts.new.items ≡ counted_kind kind counts.old.items }
{
    if let KernelEvent::CallIn { name } = kind {
        count_name(name as usize, counts);
    }
}

fn count_name(number: usize, counts: &mut Vec<u64>)
    requires { All (λ n. n < 2 ^ 60) counts.old.items }
    ensures { counts.new.items ≡ set_more counts.old.items number }
{
    if let Some(count) = counts.get_mut(number) {
        *count += 1;
    }
}

// The lines of the names that these counts, at the places of the names' numbers, are of.
fn write_counted(
    alloc: Global,
    host: u32,
    names: &[Text],
    counts: &[u64],
    out: &mut Vec<u8>,
) -> Result<(), OutOfMemory>
    requires { length counts.now ≡ length names.now }
    ensures { OnOk result (out.new.items ≡ out.old.items ++ counted_lines host names.now (λ n. get_or counts.now n 0)) }
{
    let mut calls = counted_calls(alloc, names, counts)?;
    sort_calls(&mut calls);
    write_lines(host, &calls, counts, out)
}

// The calls that were made, by their numbers.
fn counted_calls(alloc: Global, names: &[Text], counts: &[u64]) -> Result<Vec<Call>, OutOfMemory>
    requires { length counts.now ≡ length names.now }
    ensures { IfOk result (λ calls. calls.items ≡ calls_below names.now (λ n. get_or counts.now n 0) (length names.now)) }
{
    let mut calls = Vec::new(alloc);
    for number in 0..names.len() {
        keep(alloc, names, count_at(counts, number), number, &mut calls)?;
    }
    Ok(calls)
}

// Keeps a call where it was made.
fn keep(
    alloc: Global,
    names: &[Text],
    count: u64,
    number: usize,
    calls: &mut Vec<Call>,
) -> Result<(), OutOfMemory>
    requires { number < length names.now }
    ensures { OnOk result (calls.new.items ≡ calls.old.items ++ (if nat_lt 0 count then call_of names.now number ∷ [] else [])) }
{
    if count > 0 {
        calls.push(call_of(alloc, names, number)?)?;
    }
    Ok(())
}

fn call_of(alloc: Global, names: &[Text], number: usize) -> Result<Call, OutOfMemory>
    requires { number < length names.now }
    ensures { IfOk result (λ call. call ≡ call_of names.now number) }
{
    let name = call_name(alloc, names[number].as_bytes())?;
    Ok(Call {
        name: Text::from_vec(name),
        number,
    })
}

fn sort_calls(calls: &mut [Call])
    ensures permutation { IsPermutation calls.old calls.new }
    ensures order { AllPairs IsNotLess calls.new }
{
    calls.sort_unstable_by(
        |a: &Call, b: &Call| -> Ordering
            ensures { result ≡ compare_calls a.now b.now }
        { compare_calls(a, b) },
    );
}

fn compare_calls(a: &Call, b: &Call) -> Ordering
    ensures { result ≡ compare_calls a.now b.now }
{
    a.name
        .as_bytes()
        .cmp(b.name.as_bytes())
        .then(a.number.cmp(&b.number))
}

fn write_lines(
    host: u32,
    calls: &[Call],
    counts: &[u64],
    out: &mut Vec<u8>,
) -> Result<(), OutOfMemory>
    ensures { OnOk result (out.new.items ≡ out.old.items ++ flat_map (call_line host (λ n. get_or counts.now n 0)) calls.now) }
{
    for call in calls {
        write_line(host, call, counts, out)?;
    }
    Ok(())
}

fn write_line(host: u32, call: &Call, counts: &[u64], out: &mut Vec<u8>) -> Result<(), OutOfMemory>
    ensures { OnOk result (out.new.items ≡ out.old.items ++ call_line host (λ n. get_or counts.now n 0) call.now) }
{
    let count = count_at(counts, call.number);
    write!(out, "calls {host} ").map_err(|_| OutOfMemory)?;
    write_byte_text(call.name.as_bytes(), out)?;
    writeln!(out, " {count}").map_err(|_| OutOfMemory)
}

// The count of a number; 0 where there is none.
fn count_at(counts: &[u64], number: usize) -> u64
    ensures { result ≡ get_or counts.now number 0 }
{
    counts.get(number).copied().unwrap_or(0)
}
