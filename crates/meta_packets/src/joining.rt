//! Joining the texts of metadata packets.
ghost use Rattle.std.specs.Prelude.{◌≡◌, ◌<◌, ◌≤◌, ℕ, List, length, IfOk, None, Err};
ghost use Rattle.meta_packets.specs.Packets.{IsText, IsJoin, IsRefused, IsPackets, IsPacket, content_of, behind, cause_of};
ghost use Rattle.meta_packets.specs.declared.header.MetaPacketCause.{MetaPacketCause};
ghost use Rattle.trace_types.specs.declared.byte_order.ByteOrderKind.{ByteOrderKind};
ghost use Rattle.meta_packets.specs.declared.joining.MetaPacketError.TheVariants.{At};

use crate::header::{HEADER, MetaPacketCause, cause_of, order_of, sizes_of, uuid_of};
use std::alloc::{AllocError, Global};
use std::error::Error;
use std::fmt;
use trace_types::ByteOrderKind;

/// Why the packets of a metadata file have no text. The offset of the packet is in bytes.
#[derive(Clone, Copy, Debug, PartialEq, Eq)]
pub enum MetaPacketError {
    At { offset: u64, cause: MetaPacketCause },
    OutOfMemory,
}

impl fmt::Display for MetaPacketError {
    fn fmt<W: fmt::Write>(&self, f: &mut fmt::Formatter<W>) -> fmt::Result {
        match self {
            MetaPacketError::At { offset, cause } => {
                write!(f, "the packet at byte {offset}: {cause}")
            }
            MetaPacketError::OutOfMemory => write!(f, "out of memory"),
        }
    }
}

impl Error for MetaPacketError {}

impl From<AllocError> for MetaPacketError {
    ghost use Rattle.std.specs.Prelude.{◌≡◌};
    ghost use Rattle.meta_packets.specs.declared.joining.MetaPacketError.TheVariants as variant;

    ghost from_gives = { λ _ e. e ≡ variant.OutOfMemory };

    fn from(_error: AllocError) -> MetaPacketError {
        MetaPacketError::OutOfMemory
    }
}

/// The text of a metadata file: its packets' contents, joined, or the file itself where it doesn't
/// begin with the magic number of a packet. The first packet that fails a check is refused.
pub fn join(alloc: Global, bytes: &[u8]) -> Result<Vec<u8>, MetaPacketError>
    ensures text { IfOk result (λ text. IsText bytes.now text.items) }
    ensures refused { (offset : ℕ) (cause : MetaPacketCause) → result ≡ Err (At offset cause) → (order : ByteOrderKind) × IsRefused order bytes.now offset cause }
{
    match order_of(bytes) {
        Some(order) => join_packets(alloc, order, bytes),
        None => {
            let mut text = Vec::new(alloc);
            text.extend_from_slice(bytes)?;
            Ok(text)
        }
    }
}

// The joined contents of packets of one byte order.
fn join_packets(
    alloc: Global,
    order: ByteOrderKind,
    bytes: &[u8],
) -> Result<Vec<u8>, MetaPacketError>
    requires { IsPackets order bytes.now }
    ensures text { IfOk result (λ text. IsJoin order bytes.now text.items) }
    ensures refused { (offset : ℕ) (cause : MetaPacketCause) → result ≡ Err (At offset cause) → IsRefused order bytes.now offset cause }
{
    let uuid = uuid_of(bytes);
    let mut text = Vec::new(alloc);
    let mut rest = bytes;
    while !rest.is_empty() {
        if let Some(cause) = cause_of(order, uuid, rest) {
            let offset = (bytes.len() - rest.len()) as u64;
            return Err(MetaPacketError::At { offset, cause });
        }
        let (content, after) = cut(order, rest);
        text.extend_from_slice(content)?;
        rest = after;
    }
    Ok(text)
}

// The text of the packet at the front, which passes all checks, and what is left after it.
fn cut(order: ByteOrderKind, rest: &[u8]) -> (&[u8], &[u8])
    requires { (uuid : List ℕ) × (cause_of order uuid rest.now ≡ None) }
    ensures content { result.0.now ≡ content_of order rest.now }
    ensures behind { result.1.now ≡ behind order rest.now }
    ensures shorter { length result.1.now < length rest.now }
{
    let sizes = sizes_of(order, rest);
    let content = sizes.content as usize / 8;
    let packet = sizes.packet as usize / 8;
    (&rest[HEADER..content], &rest[packet..])
}
