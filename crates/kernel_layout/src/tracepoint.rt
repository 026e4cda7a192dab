//! The kinds of events by the names of their tracepoints.
ghost use Rattle.std.specs.Prelude.{◌≡◌};
ghost use Rattle.trace_types.specs.Texts.{is_text};
ghost use Rattle.kernel_layout.specs.Tracepoints.{call_kind, device_kind, interrupt_kind, kind_named, scheduler_kind};

use trace_types::{EventKind, is_call_in, is_call_out, is_text};

/// The kind of the events of this name.
pub fn kind_named(name: &[u8]) -> EventKind
    ensures { result ≡ kind_named name.now }
{
    if let Some(found) = scheduler_kind(name) {
        return found;
    }
    if let Some(found) = interrupt_kind(name) {
        return found;
    }
    match device_kind(name) {
        Some(found) => found,
        None => call_kind(name),
    }
}

#[tactic(auto, unfolding(crate::specs::Tracepoints::scheduler_kind))]
fn scheduler_kind(name: &[u8]) -> Option<EventKind>
    ensures { result ≡ scheduler_kind name.now }
{
    if is_text(name, b"sched_switch") {
        Some(EventKind::Switch)
    } else if is_text(name, b"sched_wakeup") {
        Some(EventKind::Wakeup)
    } else if is_text(name, b"sched_wakeup_new") {
        Some(EventKind::WakeupNew)
    } else if is_text(name, b"sched_waking") {
        Some(EventKind::Waking)
    } else if is_text(name, b"sched_process_fork") {
        Some(EventKind::Fork)
    } else if is_text(name, b"sched_process_exit") {
        Some(EventKind::Exit)
    } else if is_text(name, b"sched_process_free") {
        Some(EventKind::Free)
    } else if is_text(name, b"sched_migrate_task") {
        Some(EventKind::Migrate)
    } else if is_text(name, b"lttng_statedump_process_state") {
        Some(EventKind::Process)
    } else {
        None
    }
}

#[tactic(auto, unfolding(crate::specs::Tracepoints::interrupt_kind))]
fn interrupt_kind(name: &[u8]) -> Option<EventKind>
    ensures { result ≡ interrupt_kind name.now }
{
    if is_text(name, b"irq_handler_entry") {
        Some(EventKind::IrqIn)
    } else if is_text(name, b"irq_handler_exit") {
        Some(EventKind::IrqOut)
    } else if is_text(name, b"irq_softirq_entry") {
        Some(EventKind::SoftIn)
    } else if is_text(name, b"irq_softirq_exit") {
        Some(EventKind::SoftOut)
    } else {
        None
    }
}

#[tactic(auto, unfolding(crate::specs::Tracepoints::device_kind))]
fn device_kind(name: &[u8]) -> Option<EventKind>
    ensures { result ≡ device_kind name.now }
{
    if is_text(name, b"net_dev_queue") {
        Some(EventKind::Send)
    } else if is_text(name, b"netif_receive_skb") || is_text(name, b"net_if_receive_skb") {
        Some(EventKind::Receive)
    } else if is_text(name, b"block_rq_issue") {
        Some(EventKind::DiskIssue)
    } else if is_text(name, b"block_rq_complete") {
        Some(EventKind::DiskDone)
    } else {
        None
    }
}

fn call_kind(name: &[u8]) -> EventKind
    ensures { result ≡ call_kind name.now }
{
    if is_call_in(name) {
        EventKind::CallIn
    } else if is_call_out(name) {
        EventKind::CallOut
    } else {
        EventKind::Other
    }
}
