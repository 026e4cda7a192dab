//! The header of a metadata packet, and its checks.
ghost use Rattle.std.specs.Prelude.{◌≡◌, ◌<◌, ◌≤◌, ◌%◌, length, take, drop, None, IfSome, IfNone, IsTrue};
ghost use Rattle.trace_types.specs.Texts.{same_bytes};
ghost use Rattle.meta_packets.specs.Packets.{MAGIC, HEADER, number, uuid_of, content_bits, packet_bits, is_coded, is_missized, cause_of, IsPackets, IsPlain};

use byteorder::{BigEndian, ByteOrder, LittleEndian};
use std::fmt;
use trace_types::ByteOrderKind;

/// The bytes of a header.
pub const HEADER: usize = 37;

const MAGIC: u32 = 0x75D1_1D57;

/// Why a metadata packet was refused, in the order of the checks.
#[derive(Clone, Copy, Debug, PartialEq, Eq)]
pub enum MetaPacketCause {
    /// Fewer bytes are left than a header has.
    ShortHeader,
    /// It doesn't begin with the magic number in the file's byte order.
    BadMagic,
    /// It is compressed or encrypted.
    Scheme,
    /// A size isn't whole bytes, or the header, the content, the packet and the file don't nest.
    BadSize,
    /// Its uuid isn't that of the first packet.
    MixedUuid,
}

impl fmt::Display for MetaPacketCause {
    ghost use Rattle.std.specs.Prelude.{Some};
    ghost use Rattle.meta_packets.specs.Packets.{cause_text};

    ghost output = { λ cause. Some (cause_text cause) };

    fn fmt<W: fmt::Write>(&self, f: &mut fmt::Formatter<W>) -> fmt::Result {
        f.write_str(match self {
            MetaPacketCause::ShortHeader => "ShortHeader",
            MetaPacketCause::BadMagic => "BadMagic",
            MetaPacketCause::Scheme => "Scheme",
            MetaPacketCause::BadSize => "BadSize",
            MetaPacketCause::MixedUuid => "MixedUuid",
        })
    }
}

/// The byte order in which a file begins with the magic number.
pub fn order_of(bytes: &[u8]) -> Option<ByteOrderKind>
    ensures found { IfSome result (λ order. IsPackets order bytes.now) }
    ensures none { IfNone result (IsPlain bytes.now) }
{
    if bytes.len() < 4 {
        return None;
    }
    if number(ByteOrderKind::Big, bytes) == MAGIC {
        return Some(ByteOrderKind::Big);
    }
    if number(ByteOrderKind::Little, bytes) == MAGIC {
        return Some(ByteOrderKind::Little);
    }
    None
}

// The number in the first four bytes.
fn number(order: ByteOrderKind, bytes: &[u8]) -> u32
    requires { 4 ≤ length bytes.now }
    ensures { result ≡ number order bytes.now }
{
    match order {
        ByteOrderKind::Big => BigEndian::read_u32(bytes),
        ByteOrderKind::Little => LittleEndian::read_u32(bytes),
    }
}

/// A packet's uuid, or what is there of it.
pub fn uuid_of(packet: &[u8]) -> &[u8]
    ensures { result.now ≡ uuid_of packet.now }
{
    &packet[packet.len().min(4)..packet.len().min(20)]
}

/// The sizes of a packet's content and of the packet, header included, in bits.
#[derive(Clone, Copy, Debug, PartialEq, Eq)]
pub struct Sizes {
    pub content: u32,
    pub packet: u32,
}

/// The sizes that a header tells.
pub fn sizes_of(order: ByteOrderKind, packet: &[u8]) -> Sizes
    requires { HEADER ≤ length packet.now }
    ensures content { result.content ≡ content_bits order packet.now }
    ensures packet { result.packet ≡ packet_bits order packet.now }
{
    Sizes {
        content: number(order, &packet[24..]),
        packet: number(order, &packet[28..]),
    }
}

/// The first check that the packet at the front of a file's rest fails.
pub fn cause_of(order: ByteOrderKind, uuid: &[u8], rest: &[u8]) -> Option<MetaPacketCause>
    ensures { result ≡ cause_of order uuid.now rest.now }
{
    if rest.len() < HEADER {
        return Some(MetaPacketCause::ShortHeader);
    }
    if number(order, rest) != MAGIC {
        return Some(MetaPacketCause::BadMagic);
    }
    if is_coded(rest) {
        return Some(MetaPacketCause::Scheme);
    }
    if is_missized(&sizes_of(order, rest), rest.len()) {
        return Some(MetaPacketCause::BadSize);
    }
    if uuid_of(rest) != uuid {
        return Some(MetaPacketCause::MixedUuid);
    }
    None
}

// Whether the packet is compressed or encrypted.
fn is_coded(packet: &[u8]) -> bool
    requires { HEADER ≤ length packet.now }
    ensures { result ≡ is_coded packet.now }
{
    packet[32] != 0 || packet[33] != 0
}

// Whether the sizes don't fit one another and the bytes that are left.
fn is_missized(sizes: &Sizes, left: usize) -> bool
    ensures { result ≡ is_missized sizes.now.content sizes.now.packet left }
{
    let Sizes { content, packet } = *sizes;
    content % 8 != 0
        || packet % 8 != 0
        || content < 8 * HEADER as u32
        || packet < content
        || 8 * (left as u128) < u128::from(packet)
}
