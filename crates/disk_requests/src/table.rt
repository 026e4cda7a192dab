//! The devices of a merge.
ghost use Rattle.std.specs.Prelude.{◌≡◌, [], false, IfOk, OnOk, IsPermutation};
ghost use Rattle.std.specs.List.{AllPairs};
ghost use Rattle.indexmap.specs.IndexMap.{IsUnique, get, values};
ghost use Rattle.disk_requests.specs.Devices.{AreDevices};
ghost use Rattle.disk_requests.specs.Order.{IsNotAfter, compare_devices};
ghost use Rattle.disk_requests.specs.Requests.{same_disk, same_target};
ghost use Rattle.disk_requests.specs.Notes.{Notes};

use crate::act::act_of;
use crate::device::Device;
use crate::notes::{Devices, Waits, note};
use indexmap::IndexMap;
use std::alloc::Global;
use std::cmp::Ordering;
use trace_types::{Merged, OutOfMemory};

/// The devices of a merge, in the order of their hosts and then of their numbers.
#[derive(Debug, Drop)]
pub struct DiskTable {
    pub devices: Vec<Device>,
}

/// What a merge tells of the requests of disks: a completion belongs to an issue of the same host,
/// device and first sector, if no issue or completion of these stands between. The only error is lack
/// of memory.
pub fn requests(alloc: Global, merged: &[Merged]) -> Result<DiskTable, OutOfMemory>
    ensures { IfOk result (λ table. AreDevices merged.now table.devices.items) }
{
    let mut waits = IndexMap::new(alloc);
    let mut noted = IndexMap::new(alloc);
    note_all(&mut waits, &mut noted, merged)?;
    let devices = in_order(alloc, &noted)?;
    Ok(DiskTable { devices })
}

fn note_all(waits: &mut Waits, devices: &mut Devices, merged: &[Merged]) -> Result<(), OutOfMemory>
    requires waits { waits.old.entries ≡ [] }
    requires devices { devices.old.entries ≡ [] }
    requires unique { IsUnique same_disk devices.old }
    ensures notes { OnOk result (Notes merged.now (get same_target waits.new) (get same_disk devices.new)) }
    ensures unique { OnOk result (IsUnique same_disk devices.new) }
{
    for event in merged {
        note(waits, devices, act_of(event), event.key)?;
    }
    Ok(())
}

// The devices of the table, in the order in which they are listed.
fn in_order(alloc: Global, noted: &Devices) -> Result<Vec<Device>, OutOfMemory>
    ensures permutation { IfOk result (λ devices. IsPermutation (values noted.now) devices.items) }
    ensures order { IfOk result (λ devices. AllPairs IsNotAfter devices.items) }
{
    let mut devices = as_noted(alloc, noted)?;
    sort_devices(&mut devices);
    Ok(devices)
}

fn as_noted(alloc: Global, noted: &Devices) -> Result<Vec<Device>, OutOfMemory>
    ensures { IfOk result (λ devices. devices.items ≡ values noted.now) }
{
    let devices = noted.values().copied().collect(alloc)?;
    Ok(devices)
}

fn sort_devices(devices: &mut [Device])
    ensures permutation { IsPermutation devices.old devices.new }
    ensures order { AllPairs IsNotAfter devices.new }
{
    devices.sort_unstable_by(
        |a: &Device, b: &Device| -> Ordering
            ensures { result ≡ compare_devices a.now b.now }
        { compare_devices(a, b) },
    );
}

fn compare_devices(a: &Device, b: &Device) -> Ordering
    ensures { result ≡ compare_devices a.now b.now }
{
    a.host.cmp(&b.host).then(a.dev.cmp(&b.dev))
}
