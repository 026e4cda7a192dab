//! The text that declares what the files of a trace hold.
ghost use Rattle.std.specs.Prelude.{◌≡◌, ◌++◌, OnOk};
ghost use Rattle.std.specs.Fmt.{decimal};
ghost use Rattle.trace_gen.specs.Metadata.{metadata_text, text_after, text_before};

use std::io::Write;
use trace_types::OutOfMemory;

const TEXT_BEFORE: &[u8] = b"/* CTF 1.8 */
typealias integer { size = 8; } := uint8_t;
typealias integer { size = 16; } := uint16_t;
typealias integer { size = 32; } := uint32_t;
typealias integer { size = 32; signed = true; } := int32_t;
typealias integer { size = 64; } := uint64_t;
typealias integer { size = 64; signed = true; } := int64_t;
typealias integer { size = 64; } := unsigned long;
typealias integer { size = 5; align = 1; } := uint5_t;
trace { major = 1; minor = 8; byte_order = le;
packet.header := struct { uint32_t magic; uint32_t stream_id; }; };
env { hostname = \"node";

const TEXT_AFTER: &[u8] = b"\"; domain = \"kernel\"; };
clock { name = \"mono\"; freq = 1000000000; offset = 0; };
typealias integer { size = 27; align = 1; map = clock.mono.value; } := uint27_clock_t;
typealias integer { size = 64; map = clock.mono.value; } := uint64_clock_t;
struct packet_context { uint64_clock_t timestamp_begin; uint64_clock_t timestamp_end;
uint64_t content_size; uint64_t packet_size; uint64_t packet_seq_num;
unsigned long events_discarded; uint32_t cpu_id; };
struct event_header_compact {
enum : uint5_t { compact = 0 ... 30, extended = 31 } id;
variant <id> { struct { uint27_clock_t timestamp; } compact;
struct { uint32_t id; uint64_clock_t timestamp; } extended; } v; } align(8);
struct net { enum : uint8_t { \"unknown\" = 0, \"ipv4\" = 4 } _network_header_type;
variant <_network_header_type> { struct { } _unknown;
struct { uint8_t _saddr[4]; uint8_t _daddr[4]; uint16_t _source_port;
uint16_t _dest_port; uint32_t _seq; uint32_t _ack_seq; uint16_t _flags; } _ipv4;
} _network_header; };
stream { id = 0; event.header := struct event_header_compact;
packet.context := struct packet_context; };
event { name = \"sched_switch\"; id = 0; stream_id = 0; fields := struct {
uint8_t _prev_comm[16]; int32_t _prev_tid; int32_t _prev_prio; int64_t _prev_state;
uint8_t _next_comm[16]; int32_t _next_tid; int32_t _next_prio; }; };
event { name = \"net_dev_queue\"; id = 1; stream_id = 0; fields := struct net; };
event { name = \"netif_receive_skb\"; id = 2; stream_id = 0; fields := struct net; };
";

/// Appends the text of a host. The only error is lack of memory.
pub fn put_metadata(host: u8, out: &mut Vec<u8>) -> Result<(), OutOfMemory>
    ensures { OnOk result (out.new.items ≡ out.old.items ++ metadata_text host) }
{
    put_before(out)?;
    put_number(host, out)?;
    put_after(out)
}

fn put_before(out: &mut Vec<u8>) -> Result<(), OutOfMemory>
    ensures { OnOk result (out.new.items ≡ out.old.items ++ text_before) }
{
    out.extend_from_slice(TEXT_BEFORE)?;
    Ok(())
}

/// Appends a number's decimal digits. The only error is lack of memory.
pub fn put_number(number: u8, out: &mut Vec<u8>) -> Result<(), OutOfMemory>
    ensures { OnOk result (out.new.items ≡ out.old.items ++ decimal number) }
{
    write!(out, "{number}").map_err(|_| OutOfMemory)
}

fn put_after(out: &mut Vec<u8>) -> Result<(), OutOfMemory>
    ensures { OnOk result (out.new.items ≡ out.old.items ++ text_after) }
{
    out.extend_from_slice(TEXT_AFTER)?;
    Ok(())
}
