//! The kinds of kernel events, and their words.
ghost use Rattle.std.specs.Prelude.{◌≡◌, ◌≢◌, IfNone, IfSome};
ghost use Rattle.trace_types.specs.EventKinds.{kind_of_event, word_of};
ghost use Rattle.trace_types.specs.declared.event_kind.EventKind.{EventKind};

use crate::KernelEvent;

/// What kind of event a `KernelEvent` is, without what it records.
#[derive(Clone, Copy, Debug, PartialEq, Eq)]
pub enum EventKind {
    Switch,
    Wakeup,
    WakeupNew,
    Waking,
    Fork,
    Exit,
    Free,
    Migrate,
    IrqIn,
    IrqOut,
    SoftIn,
    SoftOut,
    Process,
    CallIn,
    CallOut,
    Send,
    Receive,
    DiskIssue,
    DiskDone,
    Lost,
    Other,
}

impl EventKind {
    /// The word that an event list has for it.
    pub fn word(self) -> &'static [u8]
        ensures { result.now ≡ word_of self }
    {
        match self {
            EventKind::Switch => b"switch",
            EventKind::Wakeup => b"wakeup",
            EventKind::WakeupNew => b"wakeup-new",
            EventKind::Waking => b"waking",
            EventKind::Fork => b"fork",
            EventKind::Exit => b"exit",
            EventKind::Free => b"free",
            EventKind::Migrate => b"migrate",
            EventKind::IrqIn => b"irq-in",
            EventKind::IrqOut => b"irq-out",
            EventKind::SoftIn => b"soft-in",
            EventKind::SoftOut => b"soft-out",
            EventKind::Process => b"process",
            EventKind::CallIn => b"call-in",
            EventKind::CallOut => b"call-out",
            EventKind::Send => b"send",
            EventKind::Receive => b"receive",
            EventKind::DiskIssue => b"disk-issue",
            EventKind::DiskDone => b"disk-done",
            EventKind::Lost => b"lost",
            EventKind::Other => b"other",
        }
    }
}

/// The kind of a word. `None` comes exactly where it is the word of no kind.
pub fn read_kind(word: &[u8]) -> Option<EventKind>
    ensures found { IfSome result (λ kind. word.now ≡ word_of kind) }
    ensures none { IfNone result ((kind : EventKind) → word.now ≢ word_of kind) }
{
    Some(match word {
        b"switch" => EventKind::Switch,
        b"wakeup" => EventKind::Wakeup,
        b"wakeup-new" => EventKind::WakeupNew,
        b"waking" => EventKind::Waking,
        b"fork" => EventKind::Fork,
        b"exit" => EventKind::Exit,
        b"free" => EventKind::Free,
        b"migrate" => EventKind::Migrate,
        b"irq-in" => EventKind::IrqIn,
        b"irq-out" => EventKind::IrqOut,
        b"soft-in" => EventKind::SoftIn,
        b"soft-out" => EventKind::SoftOut,
        b"process" => EventKind::Process,
        b"call-in" => EventKind::CallIn,
        b"call-out" => EventKind::CallOut,
        b"send" => EventKind::Send,
        b"receive" => EventKind::Receive,
        b"disk-issue" => EventKind::DiskIssue,
        b"disk-done" => EventKind::DiskDone,
        b"lost" => EventKind::Lost,
        b"other" => EventKind::Other,
        _ => return None,
    })
}

impl KernelEvent {
    /// Its kind.
    pub fn kind(&self) -> EventKind
        ensures { result ≡ kind_of_event self.now }
    {
        match self {
            KernelEvent::Switch { .. } => EventKind::Switch,
            KernelEvent::Wakeup { .. } => EventKind::Wakeup,
            KernelEvent::WakeupNew { .. } => EventKind::WakeupNew,
            KernelEvent::Waking { .. } => EventKind::Waking,
            KernelEvent::Fork { .. } => EventKind::Fork,
            KernelEvent::Exit { .. } => EventKind::Exit,
            KernelEvent::Free { .. } => EventKind::Free,
            KernelEvent::Migrate { .. } => EventKind::Migrate,
            KernelEvent::IrqIn { .. } => EventKind::IrqIn,
            KernelEvent::IrqOut { .. } => EventKind::IrqOut,
            KernelEvent::SoftIn { .. } => EventKind::SoftIn,
            KernelEvent::SoftOut { .. } => EventKind::SoftOut,
            KernelEvent::Process { .. } => EventKind::Process,
            KernelEvent::CallIn { .. } => EventKind::CallIn,
            KernelEvent::CallOut { .. } => EventKind::CallOut,
            KernelEvent::Send { .. } => EventKind::Send,
            KernelEvent::Receive { .. } => EventKind::Receive,
            KernelEvent::DiskIssue { .. } => EventKind::DiskIssue,
            KernelEvent::DiskDone { .. } => EventKind::DiskDone,
            KernelEvent::Lost { .. } => EventKind::Lost,
            KernelEvent::Other { .. } => EventKind::Other,
        }
    }
}
