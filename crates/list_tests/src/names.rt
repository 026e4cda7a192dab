//! Lists of many names and of many hosts.
use event_list::{MergedTrace, read_list, split_hosts};
use sqlite_items::Items;
use std::alloc::AllocGlobal;
use std::io::Write;
use std::process::Abort;
use std::test::Fail;
use std::thread::Threads;
use trace_types::KernelEvent;

// A list of so many events of host 0, each with a name of its own.
fn list<R: AllocGlobal + Threads + Sync>(rt: &R, count: u32) -> Result<Vec<u8>, Fail> {
    let mut list = Vec::from_slice(rt.alloc(), b"hosttrace events 1\n")?;
    for number in 0..count {
        write!(list, "1 0 0 1 other n{number}\n")?;
    }
    Ok(list)
}

// How many names the host of such a list has, and the last event.
fn named<R: AllocGlobal + Threads + Sync>(
    rt: &R,
    count: u32,
) -> Result<(Option<usize>, Option<KernelEvent>), Fail> {
    let list = list(rt, count)?;
    let trace = read_list(rt.alloc(), &list)?;
    let names = trace.names.first().map(|names| names.as_slice().len());
    Ok((names, trace.events.last().map(|event| event.event.kind)))
}

// The number of the last of so many hosts without events, at most 100,000.
fn last_host<R: AllocGlobal + Threads + Sync + Abort>(
    rt: &R,
    count: u32,
) -> Result<Option<u32>, Fail> {
    let mut names = Vec::new(rt.alloc());
    for _ in 0..count {
        names.push(Items::new(rt.alloc()))?;
    }
    if names.len() > 100_000 {
        panic!(rt; "at most 100,000 hosts");
    }
    let events = Vec::new(rt.alloc());
    let hosts = split_hosts(&MergedTrace { events, names })?;
    Ok(hosts.last().map(|host| host.host))
}

#[test]
fn names_are_numbered_past_16_bits(rt: HostRuntime) -> Result<(), Fail> {
    let found = named(&rt, 65_537)?;
    assert_eq!(rt; found.0, Some(65_537));
    assert_eq!(rt; found.1, Some(KernelEvent::Other { name: 65_536 }));
    Ok(())
}

#[test]
fn hosts_are_numbered_past_16_bits(rt: HostRuntime) -> Result<(), Fail> {
    assert_eq!(rt; last_host(&rt, 65_537)?, Some(65_536));
    Ok(())
}
