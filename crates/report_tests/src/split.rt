//! A report on the hosts of an event list, which no packets tell.
use crate::answers::report_of;
use event_list::{read_list, split_hosts};
use std::alloc::AllocGlobal;
use std::process::Abort;
use std::test::Fail;

// Processor 0 goes from idle to bash at 100, and back at 250.
const TWO_SWITCHES: &[u8] = b"hosttrace events 1\n\
    100 0 0 100 switch 0 swapper/0 20 0 7 bash 20\n\
    250 0 0 250 switch 7 bash 20 1 0 swapper/0 20\n";

const REPORT: &[u8] = b"hosttrace report 1\n\
    drift 1000\n\
    host 0 % events 2 packets 0 refused 0 incomplete 0\n\
    messages matched 0 ambiguous 0\n\
    tree 0 root\n\
    inverted 0\n\
    window 100 250\n\
    cpu 0 0 busy 150 idle 0 unknown 0 irq 0 softirq 0\n\
    thread 0 0_0 swapper/0 running 0\n\
    thread 0 7 bash running 150\n\
    end\n";

// The report on a list's hosts, between which no messages went.
fn report_on<R: Abort + AllocGlobal>(rt: &R, list: &[u8]) -> Result<Vec<u8>, Fail> {
    let trace = read_list(rt.alloc(), list)?;
    let hosts = split_hosts(&trace)?;
    report_of(rt, &hosts, &[], &trace.events, &[])
}

#[test]
fn hosts_of_a_list_have_no_packets(rt: HostRuntime) -> Result<(), Fail> {
    assert_eq!(rt; report_on(&rt, TWO_SWITCHES)?.as_slice(), REPORT);
    Ok(())
}
