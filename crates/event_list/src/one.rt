//! Events of a single number.
ghost use Rattle.std.specs.Prelude.{◌≡◌, IfSome, IfNone, ℕ, map};
ghost use Rattle.event_list.specs.Kinds.{IsOne};

use crate::thread::read_small;
use trace_types::KernelEvent;

/// The number that is the one field of an event, of any of six kinds.
#[derive(Drop)]
pub struct One {
    pub number: u32,
}

impl One {
    ghost use Rattle.trace_types.specs.declared.event.KernelEvent.TheVariants as kind;

    pub fn exit(self) -> KernelEvent
        ensures { result ≡ kind.Exit self.number }
    {
        KernelEvent::Exit { tid: self.number }
    }

    pub fn free(self) -> KernelEvent
        ensures { result ≡ kind.Free self.number }
    {
        KernelEvent::Free { tid: self.number }
    }

    pub fn irq_in(self) -> KernelEvent
        ensures { result ≡ kind.IrqIn self.number }
    {
        KernelEvent::IrqIn { irq: self.number }
    }

    pub fn irq_out(self) -> KernelEvent
        ensures { result ≡ kind.IrqOut self.number }
    {
        KernelEvent::IrqOut { irq: self.number }
    }

    pub fn soft_in(self) -> KernelEvent
        ensures { result ≡ kind.SoftIn self.number }
    {
        KernelEvent::SoftIn { vec: self.number }
    }

    pub fn soft_out(self) -> KernelEvent
        ensures { result ≡ kind.SoftOut self.number }
    {
        KernelEvent::SoftOut { vec: self.number }
    }
}

/// Reads a single field, a number below 2^31.
pub fn read_one(fields: &[&[u8]]) -> Option<One>
    ensures found { IfSome result (λ one. IsOne (map (λ w. w.now) fields.now) one.number) }
    ensures none { IfNone result ((n : ℕ) → ¬ (IsOne (map (λ w. w.now) fields.now) n)) }
{
    let [number] = fields else {
        return None;
    };
    let number = read_small(number)?;
    Some(One { number })
}
