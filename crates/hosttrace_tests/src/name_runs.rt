//! The names of events in event lists.
use event_list::{read_list, split_hosts, write_line};
use std::str;
use std::test::Fail;

// One thread enters and leaves system calls, of 64 bits and of 32 bits.
const CALLS: &[u8] = b"hosttrace events 1\n\
    10 0 0 10 switch 0 swapper/0 20 0 7 bash 20\n\
    20 0 0 20 call-in syscall_entry_openat\n\
    30 0 0 30 call-out syscall_exit_openat\n\
    40 0 0 40 call-in compat_syscall_entry_read\n\
    50 0 0 50 other sched_stat%20%25\n\
    60 0 0 60 call-in syscall_entry_\n\
    70 0 0 70 call-in syscall_entry_syscall_entry_x\n\
    70 1 0 90 call-in syscall_entry_openat\n";

#[test]
fn names_count_from_0_on_each_host(rt: HostRuntime) -> Result<(), Fail> {
    let trace = read_list(rt.alloc(), CALLS)?;
    assert_eq!(&rt; trace.names.len(), 2);
    assert_eq!(&rt; trace.names[0].as_slice().len(), 6);
    assert_eq!(&rt; trace.names[1].as_slice().len(), 1);
    assert_eq!(&rt;
        trace.names[0].as_slice()[3].as_bytes(),
        b"sched_stat %".as_slice()
    );
    assert_eq!(&rt;
        trace.names[1].as_slice()[0].as_bytes(),
        b"syscall_entry_openat".as_slice()
    );
    Ok(())
}

#[test]
fn a_merge_splits_into_its_hosts(rt: HostRuntime) -> Result<(), Fail> {
    let trace = read_list(rt.alloc(), CALLS)?;
    let hosts = split_hosts(&trace)?;
    assert_eq!(&rt; hosts.len(), 2);
    assert_eq!(&rt; hosts[0].host, 0);
    assert_eq!(&rt; hosts[0].events.len(), 7);
    assert_eq!(&rt; hosts[0].names.len(), 6);
    assert_eq!(&rt; hosts[1].host, 1);
    assert_eq!(&rt; hosts[1].hostname.as_bytes(), b"".as_slice());
    assert_eq!(&rt; hosts[1].packets, 0);
    assert_eq!(&rt; hosts[1].names.len(), 1);
    assert_eq!(&rt;
        hosts[1].names[0].as_bytes(),
        b"syscall_entry_openat".as_slice()
    );
    assert_eq!(&rt; hosts[1].events.len(), 1);
    assert_eq!(&rt; hosts[1].events[0].time, 90);
    Ok(())
}

#[test]
fn lines_that_were_read_are_written_again(rt: HostRuntime) -> Result<(), Fail> {
    let trace = read_list(rt.alloc(), CALLS)?;
    let mut text = Vec::from_slice(rt.alloc(), b"hosttrace events 1\n")?;
    for event in &trace.events {
        let names = trace.names.get(event.event.host as usize);
        write_line(
            event,
            names.expect(&rt, "a list for each host").as_slice(),
            &mut text,
        )?;
    }
    assert_eq!(&rt; str::from_utf8(&text)?, str::from_utf8(CALLS)?);
    Ok(())
}
