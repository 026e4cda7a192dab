//! What events do to a thread's state.
ghost use Rattle.std.specs.Prelude.{◌≡◌, ◌≢◌, ◌⊎◌};
ghost use Rattle.wait_graph.specs.States.{found_state, left_state, state_by, woken_state};
ghost use Rattle.wait_graph.specs.Changes.{touched};

use crate::ThreadState;
use trace_types::KernelEvent;

/// The state of a thread after an event of its host on a processor that ran the thread `current`.
pub fn state_by(current: Option<u32>, tid: u32, old: ThreadState, kind: &KernelEvent) -> ThreadState
    ensures { result ≡ state_by current tid old kind.now }
{
    match *kind {
        KernelEvent::Switch {
            prev_state,
            prev_tid,
            next_tid,
            ..
        } => {
            if next_tid == tid {
                ThreadState::Running
            } else if prev_tid == tid {
                left_state(prev_state)
            } else {
                old
            }
        }
        KernelEvent::Wakeup { tid: woken, .. } if woken == tid => woken_state(old),
        KernelEvent::WakeupNew { tid: woken, .. } if woken == tid => woken_state(old),
        KernelEvent::Waking { tid: woken, .. } if woken == tid => woken_state(old),
        KernelEvent::Fork { child_tid, .. } if child_tid == tid => ThreadState::Waiting,
        KernelEvent::Process {
            tid: found,
            status,
            ..
        } if found == tid => found_state(status, old),
        KernelEvent::Free { tid: freed } if freed == tid => ThreadState::Unknown,
        KernelEvent::Lost { .. } if current == Some(tid) => ThreadState::Unknown,
        _ => old,
    }
}

/// The tids of which the event may change the states; 0 where there is none.
pub fn touched(current: Option<u32>, kind: &KernelEvent) -> (u32, u32)
    ensures { result ≡ touched current kind.now }
{
    match *kind {
        KernelEvent::Switch {
            prev_tid,
            next_tid,
            ..
        } => (next_tid, prev_tid),
        KernelEvent::Wakeup { tid, .. } => (tid, 0),
        KernelEvent::WakeupNew { tid, .. } => (tid, 0),
        KernelEvent::Waking { tid, .. } => (tid, 0),
        KernelEvent::Fork { child_tid, .. } => (child_tid, 0),
        KernelEvent::Process { tid, .. } => (tid, 0),
        KernelEvent::Free { tid } => (tid, 0),
        KernelEvent::Lost { .. } => (current.unwrap_or(0), 0),
        _ => (0, 0),
    }
}

fn left_state(state: i64) -> ThreadState
    ensures { result ≡ left_state state }
{
    if state.cast_unsigned() % 256 == 0 {
        ThreadState::Waiting
    } else {
        ThreadState::Blocked
    }
}

fn woken_state(old: ThreadState) -> ThreadState
    ensures { result ≡ woken_state old }
{
    match old {
        ThreadState::Unknown | ThreadState::Blocked => ThreadState::Waiting,
        _ => old,
    }
}

fn found_state(status: u32, old: ThreadState) -> ThreadState
    ensures { result ≡ found_state status old }
{
    match old {
        ThreadState::Unknown if status == 2 => ThreadState::Waiting,
        ThreadState::Unknown if status == 5 => ThreadState::Blocked,
        _ => old,
    }
}
