//! What the two events of a disk's request record.
ghost use Rattle.std.specs.Prelude.{◌≡◌};

use crate::KernelEvent;

/// A request of a disk: its first sector, its device and its number of sectors.
#[derive(Drop)]
pub struct Request {
    pub sector: u64,
    pub dev: u32,
    pub nr_sector: u32,
}

impl Request {
    ghost use Rattle.trace_types.specs.declared.event.KernelEvent.TheVariants as kind;

    pub fn issue(self) -> KernelEvent
        ensures { result ≡ kind.DiskIssue self.sector self.dev self.nr_sector }
    {
        KernelEvent::DiskIssue {
            sector: self.sector,
            dev: self.dev,
            nr_sector: self.nr_sector,
        }
    }

    pub fn done(self) -> KernelEvent
        ensures { result ≡ kind.DiskDone self.sector self.dev self.nr_sector }
    {
        KernelEvent::DiskDone {
            sector: self.sector,
            dev: self.dev,
            nr_sector: self.nr_sector,
        }
    }
}
