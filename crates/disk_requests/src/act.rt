//! What an event does to the requests of disks.
ghost use Rattle.std.specs.Prelude.{◌≡◌};
ghost use Rattle.disk_requests.specs.Requests.{act_of, target_of};

use trace_types::{KernelEvent, Merged};

/// A disk: its host and its device number there.
#[derive(Clone, Copy, Debug, PartialEq, Eq, Hash)]
pub struct Disk {
    pub host: u32,
    pub dev: u32,
}

/// What tells a request from others: its disk and its first sector.
#[derive(Clone, Copy, Debug, PartialEq, Eq, Hash)]
pub struct Target {
    pub sector: u64,
    pub disk: Disk,
}

/// What an event does to the requests of disks.
#[derive(Clone, Copy, Debug)]
pub enum Act {
    /// It hands this request, of so many sectors, to its disk.
    Issue { target: Target, sectors: u32 },
    /// The disk is done with this request.
    Done { target: Target },
    /// It is about none.
    Other,
}

/// What an event does to the requests of disks.
pub fn act_of(merged: &Merged) -> Act
    ensures { result ≡ act_of merged.now }
{
    let host = merged.event.host;
    match merged.event.kind {
        KernelEvent::DiskIssue {
            sector,
            dev,
            nr_sector,
        } => Act::Issue {
            target: target_of(host, dev, sector),
            sectors: nr_sector,
        },
        KernelEvent::DiskDone { sector, dev, .. } => Act::Done {
            target: target_of(host, dev, sector),
        },
        _ => Act::Other,
    }
}

fn target_of(host: u32, dev: u32, sector: u64) -> Target
    ensures { result ≡ target_of host dev sector }
{
    Target {
        sector,
        disk: Disk { host, dev },
    }
}
