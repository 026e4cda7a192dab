//! The fields of segments, of requests of disks and of lost events, as words.
ghost use Rattle.std.specs.Prelude.{◌≡◌, ◌<◌, ◌^◌, IfSome, IfNone, Bool, ℕ, List, map, if◌then◌else◌};
ghost use Rattle.std.specs.Fmt.{decimal};
ghost use Rattle.trace_types.specs.Numbers.{IsNumber};
ghost use Rattle.trace_types.specs.declared.segment.SegKey.{SegKey};
ghost use Rattle.event_list.specs.Kinds.{IsLost, IsOf, IsRequest, IsSegment};
ghost use Rattle.trace_types.specs.declared.event_kind.EventKind.TheVariants.{Lost};
ghost use Rattle.trace_types.specs.declared.event.KernelEvent.{KernelEvent};

use trace_types::{KernelEvent, Request, SegKey, read_number, read_number_below};

/// Reads the seven fields of a segment.
pub fn read_segment(fields: &[&[u8]]) -> Option<SegKey>
    ensures found { IfSome result (λ key. IsSegment (map (λ w. w.now) fields.now) key) }
    ensures none { IfNone result ((key : SegKey) → ¬ (IsSegment (map (λ w. w.now) fields.now) key)) }
{
    let [saddr, daddr, source_port, dest_port, seq, ack_seq, flags] = fields else {
        return None;
    };
    Some(SegKey {
        saddr: read_number(saddr)?,
        daddr: read_number(daddr)?,
        seq: read_32(seq)?,
        ack_seq: read_32(ack_seq)?,
        source_port: read_16(source_port)?,
        dest_port: read_16(dest_port)?,
        flags: read_16(flags)?,
    })
}

/// Reads the three fields of a request.
pub fn read_request(fields: &[&[u8]]) -> Option<Request>
    ensures found { IfSome result (λ r. IsRequest (map (λ w. w.now) fields.now) r.sector r.dev r.nr_sector) }
    ensures none { IfNone result ((sector dev count : ℕ) → ¬ (IsRequest (map (λ w. w.now) fields.now) sector dev count)) }
{
    let [dev, sector, nr_sector] = fields else {
        return None;
    };
    Some(Request {
        dev: read_32(dev)?,
        sector: read_64(sector)?,
        nr_sector: read_32(nr_sector)?,
    })
}

/// Reads the two fields of a mark of lost events.
pub fn read_lost(fields: &[&[u8]]) -> Option<KernelEvent>
    ensures found { IfSome result (λ k. IsOf Lost (map (λ w. w.now) fields.now) k) }
    ensures none { IfNone result ((k : KernelEvent) → ¬ (IsOf Lost (map (λ w. w.now) fields.now) k)) }
{
    let [events, gap] = fields else {
        return None;
    };
    Some(KernelEvent::Lost {
        events: read_64(events)?,
        gap: read_gap(gap)?,
    })
}

// 1 where packets are missing, and else 0.
fn read_gap(word: &[u8]) -> Option<bool>
    ensures found { IfSome result (λ gap. IsNumber word.now (if gap then 1 else 0)) }
    ensures none { IfNone result ((gap : Bool) → ¬ (IsNumber word.now (if gap then 1 else 0))) }
{
    Some(read_number_below(word, 2)? == 1)
}

fn read_16(word: &[u8]) -> Option<u16>
    ensures found { IfSome result (λ n. IsNumber word.now n × (n < 2 ^ 16)) }
    ensures none { IfNone result ((n : ℕ) → n < 2 ^ 16 → ¬ (IsNumber word.now n)) }
{
    Some(read_number_below(word, 1 << 16)? as u16)
}

fn read_32(word: &[u8]) -> Option<u32>
    ensures found { IfSome result (λ n. IsNumber word.now n × (n < 2 ^ 32)) }
    ensures none { IfNone result ((n : ℕ) → n < 2 ^ 32 → ¬ (IsNumber word.now n)) }
{
    Some(read_number_below(word, 1 << 32)? as u32)
}

fn read_64(word: &[u8]) -> Option<u64>
    ensures found { IfSome result (λ n. IsNumber word.now n × (n < 2 ^ 64)) }
    ensures none { IfNone result ((n : ℕ) → n < 2 ^ 64 → ¬ (IsNumber word.now n)) }
{
    let number = read_number(word)?;
    if number < 1 << 64 {
        Some(number as u64)
    } else {
        None
    }
}
