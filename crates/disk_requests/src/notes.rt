//! The tables of what is known after some events: the issues that wait, and the devices.
ghost use Rattle.std.specs.Prelude.{◌≡◌, ◌+◌, ◌<◌, ℕ, None, Some, OnOk, IsSome};
ghost use Rattle.indexmap.specs.IndexMap.{get, IsUnique, Updates};
ghost use Rattle.disk_requests.specs.declared.act.Disk.{Disk};
ghost use Rattle.disk_requests.specs.declared.act.Target.{Target};
ghost use Rattle.disk_requests.specs.Requests.{same_disk, same_target};
ghost use Rattle.disk_requests.specs.Steps.{AreSmall, CanTake, HasRoom, IsSmall, completed, device_in, rows_after, waits_after, with_issue};

use crate::act::{Act, Disk, Target};
use crate::device::{Device, Waiting};
use indexmap::IndexMap;
use trace_types::OutOfMemory;

/// The issues that wait for their completions.
pub type Waits = IndexMap<Target, Waiting>;

/// The devices that were named so far.
pub type Devices = IndexMap<Disk, Device>;

/// Notes what an event of this key does.
pub fn note(waits: &mut Waits, devices: &mut Devices, act: Act, key: u64) -> Result<(), OutOfMemory>
    requires room { CanTake act (get same_target waits.old) (get same_disk devices.old) }
    requires unique { IsUnique same_disk devices.old }
    ensures waits { OnOk result ((t : Target) → get same_target waits.new t ≡ waits_after key act (get same_target waits.old) t) }
    ensures devices { OnOk result ((d : Disk) → get same_disk devices.new d ≡ rows_after key act (get same_target waits.old) (get same_disk devices.old) d) }
    ensures unique { OnOk result (IsUnique same_disk devices.new) }
    ensures small { OnOk result ((n : ℕ) → AreSmall n (get same_disk devices.old) → AreSmall (n + 1) (get same_disk devices.new)) }
{
    match act {
        Act::Issue { target, sectors } => {
            waits.insert(target, Waiting { key, sectors })?;
            let device = device_in(devices, target.disk).with_issue();
            devices.insert(target.disk, device)?;
        }
        Act::Done { target } => {
            let device = device_in(devices, target.disk);
            let device = match waits.swap_remove(&target) {
                Some(issue) => device.with_served(issue.sectors, key.saturating_sub(issue.key)),
                None => device.with_lone_done(),
            };
            devices.insert(target.disk, device)?;
        }
        Act::Other => {}
    }
    Ok(())
}

// The device of a disk, as it is so far.
fn device_in(devices: &Devices, disk: Disk) -> Device
    ensures { result ≡ device_in (get same_disk devices.now) disk }
{
    match devices.get(&disk) {
        Some(device) => *device,
        None => Device::blank(disk),
    }
}
