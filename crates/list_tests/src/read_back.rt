//! Lines of events that are read and written again.
use event_list::{read_list, write_line};
use std::alloc::AllocGlobal;
use std::test::Fail;
use std::thread::Threads;

const FIRST_LINE: &[u8] = b"hosttrace events 1\n";

// Two events, as `events` writes those of a folder.
const TWO_EVENTS: &[u8] = b"1005 0 0 1005 other a\n1007 0 0 1007 other a\n";

// The lines of a list's events, of which all are host 0's.
fn written<R: AllocGlobal + Threads + Sync>(rt: &R, events: &[u8]) -> Result<Vec<u8>, Fail> {
    let mut list = Vec::from_slice(rt.alloc(), FIRST_LINE)?;
    list.extend_from_slice(events)?;
    let trace = read_list(rt.alloc(), &list)?;
    let mut lines = Vec::new(rt.alloc());
    for names in &trace.names {
        for event in &trace.events {
            write_line(event, names.as_slice(), &mut lines)?;
        }
    }
    Ok(lines)
}

#[test]
fn events_that_were_read_have_their_lines(rt: HostRuntime) -> Result<(), Fail> {
    assert_eq!(rt; written(&rt, TWO_EVENTS)?.as_slice(), TWO_EVENTS);
    Ok(())
}
