//! What the three events of a wakeup record.
ghost use Rattle.std.specs.Prelude.{◌≡◌};

use crate::{Comm, KernelEvent};

/// The fields of a wakeup of any of its three kinds.
#[derive(Drop)]
pub struct Woken {
    pub tid: u32,
    pub comm: Comm,
    pub prio: i32,
    pub target_cpu: u32,
}

impl Woken {
    ghost use Rattle.trace_types.specs.declared.event.KernelEvent.TheVariants as kind;

    pub fn wakeup(self) -> KernelEvent
        ensures { result ≡ kind.Wakeup self.tid self.comm self.prio self.target_cpu }
    {
        KernelEvent::Wakeup {
            tid: self.tid,
            comm: self.comm,
            prio: self.prio,
            target_cpu: self.target_cpu,
        }
    }

    pub fn wakeup_new(self) -> KernelEvent
        ensures { result ≡ kind.WakeupNew self.tid self.comm self.prio self.target_cpu }
    {
        KernelEvent::WakeupNew {
            tid: self.tid,
            comm: self.comm,
            prio: self.prio,
            target_cpu: self.target_cpu,
        }
    }

    pub fn waking(self) -> KernelEvent
        ensures { result ≡ kind.Waking self.tid self.comm self.prio self.target_cpu }
    {
        KernelEvent::Waking {
            tid: self.tid,
            comm: self.comm,
            prio: self.prio,
            target_cpu: self.target_cpu,
        }
    }
}
