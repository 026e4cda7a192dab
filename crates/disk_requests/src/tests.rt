//! Merges with few events, whose pairs are known.
use crate::act::Disk;
use crate::device::Device;
use crate::table::requests;
use std::alloc::AllocGlobal;
use std::process::Abort;
use std::test::Fail;
use trace_types::{Event, KernelEvent, Merged};

fn event(key: u64, host: u32, kind: KernelEvent) -> Merged {
    let event = Event {
        time: key,
        host,
        cpu: 0,
        kind,
    };
    Merged { key, event }
}

fn issue(key: u64, host: u32, dev: u32, sector: u64, nr_sector: u32) -> Merged {
    let kind = KernelEvent::DiskIssue {
        sector,
        dev,
        nr_sector,
    };
    event(key, host, kind)
}

fn done(key: u64, host: u32, dev: u32, sector: u64, nr_sector: u32) -> Merged {
    let kind = KernelEvent::DiskDone {
        sector,
        dev,
        nr_sector,
    };
    event(key, host, kind)
}

// A device without requests.
fn blank(host: u32, dev: u32) -> Device {
    Device::blank(Disk { host, dev })
}

fn assert_devices(
    rt: &(impl Abort + AllocGlobal),
    merged: &[Merged],
    devices: &[Device],
) -> Result<(), Fail> {
    let table = requests(rt.alloc(), merged)?;
    assert_eq!(rt; table.devices.as_slice(), devices);
    Ok(())
}

#[test]
fn no_event(rt: HostRuntime) -> Result<(), Fail> {
    assert_devices(&rt, &[], &[])
}

// Two requests, and a completion that nothing was issued for.
#[test]
fn two_requests(rt: HostRuntime) -> Result<(), Fail> {
    let merged = [
        issue(10, 0, 8, 100, 16),
        issue(15, 0, 8, 200, 8),
        done(18, 0, 8, 100, 16),
        done(30, 0, 8, 300, 8),
        done(40, 0, 8, 200, 8),
    ];
    let mut device = Device {
        requests: 2,
        sectors: 24,
        total: 33,
        least: 8,
        greatest: 25,
        lone_dones: 1,
        ..blank(0, 8)
    };
    device.digits[4] = 1;
    device.digits[5] = 1;
    assert_devices(&rt, &merged, &[device])
}

// The same request is issued twice, and completed once at the time of the second issue.
#[test]
fn issued_twice(rt: HostRuntime) -> Result<(), Fail> {
    let merged = [
        issue(10, 0, 8, 100, 16),
        issue(12, 0, 8, 100, 16),
        done(12, 0, 8, 100, 16),
    ];
    let mut device = Device {
        requests: 1,
        sectors: 16,
        lone_issues: 1,
        ..blank(0, 8)
    };
    device.digits[0] = 1;
    assert_devices(&rt, &merged, &[device])
}

// The sectors are those of the issue. A latency of 2^62 - 1 has 62 digits, one of 1 has 1.
#[test]
fn great_numbers(rt: HostRuntime) -> Result<(), Fail> {
    let merged = [
        issue(0, 0, 0xffff_ffff, 0xffff_ffff_ffff_ffff, 0xffff_ffff),
        issue(0, 0, 0xffff_ffff, 0, 0xffff_ffff),
        done(1, 0, 0xffff_ffff, 0, 0),
        done(
            0x3fff_ffff_ffff_ffff,
            0,
            0xffff_ffff,
            0xffff_ffff_ffff_ffff,
            1,
        ),
        done(
            0x3fff_ffff_ffff_ffff,
            0,
            0xffff_ffff,
            0xffff_ffff_ffff_ffff,
            1,
        ),
    ];
    let mut device = Device {
        requests: 2,
        sectors: 0x1_ffff_fffe,
        total: 0x4000_0000_0000_0000,
        least: 1,
        greatest: 0x3fff_ffff_ffff_ffff,
        lone_dones: 1,
        ..blank(0, 0xffff_ffff)
    };
    device.digits[1] = 1;
    device.digits[62] = 1;
    assert_devices(&rt, &merged, &[device])
}

// One sector of two hosts and of two devices of one: each has its own requests. Other events between
// don't matter, lost ones neither.
#[test]
fn apart(rt: HostRuntime) -> Result<(), Fail> {
    let lost = KernelEvent::Lost {
        events: 3,
        gap: true,
    };
    let merged = [
        issue(1, 1, 7, 5, 1),
        issue(2, 0, 9, 5, 2),
        issue(3, 0, 8, 5, 4),
        event(3, 0, lost),
        done(5, 0, 8, 5, 4),
        done(6, 1, 8, 5, 4),
    ];
    let mut served = Device {
        requests: 1,
        sectors: 4,
        total: 2,
        least: 2,
        greatest: 2,
        ..blank(0, 8)
    };
    served.digits[2] = 1;
    let lone = Device {
        lone_issues: 1,
        ..blank(0, 9)
    };
    let other = Device {
        lone_issues: 1,
        ..blank(1, 7)
    };
    let completed = Device {
        lone_dones: 1,
        ..blank(1, 8)
    };
    assert_devices(&rt, &merged, &[served, lone, other, completed])
}
