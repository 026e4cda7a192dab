//! Where and when an event was, as the first four words of its line tell it.
ghost use Rattle.std.specs.Prelude.{IfSome, IfNone};
ghost use Rattle.event_list.specs.Lines.{IsLineHead};
ghost use Rattle.event_list.specs.declared.line_head.LineHead.{LineHead};

use trace_types::{MAX_HOSTS, TIME_END, read_number_below};

/// Key and time in ns, host and processor.
#[derive(Clone, Copy)]
pub struct LineHead {
    pub key: u64,
    pub host: u32,
    pub cpu: u32,
    pub time: u64,
}

/// Reads a key, a host, a processor and a time.
pub fn read_line_head(key: &[u8], host: &[u8], cpu: &[u8], time: &[u8]) -> Option<LineHead>
    ensures found { IfSome result (λ p. IsLineHead key.now host.now cpu.now time.now p) }
    ensures none { IfNone result ((p : LineHead) → ¬ (IsLineHead key.now host.now cpu.now time.now p)) }
{
    let key = read_number_below(key, TIME_END)?;
    let host = read_number_below(host, MAX_HOSTS as u64)? as u32;
    let cpu = read_number_below(cpu, 1 << 32)? as u32;
    let time = read_number_below(time, TIME_END)?;
    if time == 0 {
        return None;
    }
    Some(LineHead {
        key,
        host,
        cpu,
        time,
    })
}
