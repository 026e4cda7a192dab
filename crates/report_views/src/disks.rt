//! The text of the requests of disks.
ghost use Rattle.std.specs.Prelude.{◌≡◌, ◌++◌, IfOk, OnErr, OnOk};
ghost use Rattle.report_views.specs.DisksText.{bounds_text, device_lines, disks_text, latency_lines, latency_told, sums_text};

use disk_requests::{Device, DiskTable};
use std::alloc::Global;
use std::io::Write;
use trace_types::OutOfMemory;

/// Appends the lines of each device, in their order: what its requests come to, and how many of them
/// had a latency of so many binary digits. The only error is lack of memory, after which nothing has
/// changed.
pub fn disks_text(alloc: Global, table: &DiskTable, out: &mut Vec<u8>) -> Result<(), OutOfMemory>
    ensures text { OnOk result (out.new.items ≡ out.old.items ++ disks_text table.now.devices.items) }
    ensures err { OnErr result (out.new.items ≡ out.old.items) }
{
    out.append(&mut disk_lines(alloc, table)?)?;
    Ok(())
}

fn disk_lines(alloc: Global, table: &DiskTable) -> Result<Vec<u8>, OutOfMemory>
    ensures { IfOk result (λ text. text.items ≡ disks_text table.now.devices.items) }
{
    let mut text = Vec::new(alloc);
    for device in &table.devices {
        write_device(device, &mut text)?;
    }
    Ok(text)
}

fn write_device(device: &Device, out: &mut Vec<u8>) -> Result<(), OutOfMemory>
    ensures { OnOk result (out.new.items ≡ out.old.items ++ device_lines device.now) }
{
    write_sums(device, out)?;
    write_bounds(device, out)?;
    write_latencies(device, &device.digits, out)
}

fn write_sums(device: &Device, out: &mut Vec<u8>) -> Result<(), OutOfMemory>
    ensures { OnOk result (out.new.items ≡ out.old.items ++ sums_text device.now) }
{
    let Device {
        host,
        dev,
        requests,
        sectors,
        total,
        ..
    } = *device;
    write!(
        out,
        "disk {host} {dev} requests {requests} sectors {sectors} total {total}"
    )
    .map_err(|_| OutOfMemory)
}

fn write_bounds(device: &Device, out: &mut Vec<u8>) -> Result<(), OutOfMemory>
    ensures { OnOk result (out.new.items ≡ out.old.items ++ bounds_text device.now) }
{
    let Device {
        least,
        greatest,
        lone_issues,
        lone_dones,
        ..
    } = *device;
    writeln!(
        out,
        " least {least} greatest {greatest} lone-issues {lone_issues} lone-completions {lone_dones}"
    )
    .map_err(|_| OutOfMemory)
}

fn write_latencies(device: &Device, digits: &[u64], out: &mut Vec<u8>) -> Result<(), OutOfMemory>
    ensures { OnOk result (out.new.items ≡ out.old.items ++ latency_lines device.now.host device.now.dev 0 digits.now) }
{
    for (place, count) in digits.iter().enumerate() {
        write_latency(device, place, *count, out)?;
    }
    Ok(())
}

// How many requests had a latency of so many binary digits: nothing where there is none.
fn write_latency(
    device: &Device,
    place: usize,
    count: u64,
    out: &mut Vec<u8>,
) -> Result<(), OutOfMemory>
    ensures { OnOk result (out.new.items ≡ out.old.items ++ latency_told device.now.host device.now.dev place count) }
{
    if count == 0 {
        return Ok(());
    }
    let Device { host, dev, .. } = *device;
    writeln!(out, "latency {host} {dev} {place} {count}").map_err(|_| OutOfMemory)
}
