//! What a processor does at a moment.
ghost use Rattle.std.specs.Prelude.{◌≡◌};
ghost use Rattle.wait_graph.specs.Moments.{moment_after, receive_after};

use trace_types::KernelEvent;

/// What a processor does: the tid of its thread, the numbers of the interrupt and the soft interrupt that it runs, and the
/// place of the last matched message that it received since its last soft interrupt began.
#[derive(Clone, Copy, Debug)]
pub struct Moment {
    pub thread: Option<u32>,
    pub irq: Option<u32>,
    pub softirq: Option<u32>,
    pub receive: Option<u32>,
}

/// A processor of a host.
#[derive(Clone, Copy, Debug, PartialEq, Eq, Hash)]
pub struct CpuName {
    pub host: u32,
    pub cpu: u32,
}

impl Moment {
    /// After an event there. `matched` tells whether the event is the receive of a matched message.
    pub fn after(self, kind: &KernelEvent, place: u32, matched: bool) -> Moment
        ensures { result ≡ moment_after self kind.now place matched }
    {
        let receive = receive_after(self.receive, kind, place, matched);
        match *kind {
            KernelEvent::Switch { next_tid, .. } => Moment {
                thread: Some(next_tid),
                irq: self.irq,
                softirq: self.softirq,
                receive,
            },
            KernelEvent::IrqIn { irq } => Moment {
                thread: self.thread,
                irq: Some(irq),
                softirq: self.softirq,
                receive,
            },
            KernelEvent::IrqOut { .. } => Moment {
                thread: self.thread,
                irq: None,
                softirq: self.softirq,
                receive,
            },
            KernelEvent::SoftIn { vec } => Moment {
                thread: self.thread,
                irq: self.irq,
                softirq: Some(vec),
                receive,
            },
            KernelEvent::SoftOut { .. } => Moment {
                thread: self.thread,
                irq: self.irq,
                softirq: None,
                receive,
            },
            KernelEvent::Lost { .. } => Moment {
                thread: None,
                irq: None,
                softirq: None,
                receive,
            },
            _ => Moment {
                thread: self.thread,
                irq: self.irq,
                softirq: self.softirq,
                receive,
            },
        }
    }
}

fn receive_after(receive: Option<u32>, kind: &KernelEvent, place: u32, matched: bool) -> Option<u32>
    ensures { result ≡ receive_after receive kind.now place matched }
{
    if matched {
        return Some(place);
    }
    match *kind {
        KernelEvent::SoftIn { .. } => None,
        _ => receive,
    }
}
