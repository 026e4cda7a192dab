//! Integers of any size at any bit.
ghost use Rattle.std.specs.Prelude.{◌≡◌, ◌+◌, ◌*◌, ◌/◌, ◌%◌, ◌^◌, ◌<◌, ◌≤◌, length, IfSome, IfNone};
ghost use Rattle.bit_reader.specs.Bits.{integer};
ghost use Rattle.trace_types.specs.declared.byte_order.ByteOrderKind.TheVariants.{Little, Big};

use byteorder::{BigEndian, ByteOrder, LittleEndian};
use trace_types::ByteOrderKind;

/// The integer of `size` bits at bit `at`, from 1 to 64. `None` comes exactly where a bit of it lies
/// past the end. It takes no memory.
pub fn read_bits(bytes: &[u8], at: u64, size: u32, order: ByteOrderKind) -> Option<u64>
    requires { (1 ≤ size) × (size ≤ 64) }
    ensures found { IfSome result (λ n. (at + size ≤ 8 * length bytes.now) × (n ≡ integer order bytes.now at size)) }
    ensures none { IfNone result (8 * length bytes.now < at + size) }
{
    if u128::from(at) + u128::from(size) > 8 * bytes.len() as u128 {
        return None;
    }
    let rest = &bytes[(at / 8) as usize..];
    let skipped = (at % 8) as u32;
    Some(if skipped + size <= 64 && rest.len() >= 8 {
        within_word(rest, skipped, size, order)
    } else {
        match order {
            ByteOrderKind::Little => byte_by_byte_up(rest, skipped, size),
            ByteOrderKind::Big => byte_by_byte_down(rest, skipped, size),
        }
    })
}

// All bits stand in the first eight bytes: what is above and below them is shifted out of the word.
fn within_word(bytes: &[u8], skipped: u32, size: u32, order: ByteOrderKind) -> u64
    requires { (1 ≤ size) × (skipped + size ≤ 64) × (8 ≤ length bytes.now) }
    ensures { result ≡ integer order bytes.now skipped size }
{
    match order {
        ByteOrderKind::Little => {
            let word = LittleEndian::read_u64(bytes);
            (word << (64 - skipped - size)) >> (64 - size)
        }
        ByteOrderKind::Big => (BigEndian::read_u64(bytes) << skipped) >> (64 - size),
    }
}

// Little endian: each further byte's bits stand above those before.
fn byte_by_byte_up(bytes: &[u8], first: u32, size: u32) -> u64
    requires { (first < 8) × (size ≤ 64) × (first + size ≤ 8 * length bytes.now) }
    ensures { result ≡ integer Little bytes.now first size }
{
    let mut number = 0;
    let mut done = 0;
    while done < size {
        let place = first + done;
        let skipped = place % 8;
        let taken = (8 - skipped).min(size - done);
        let part = part_of(bytes[(place / 8) as usize], skipped, taken);
        number += u64::from(part) << done;
        done += taken;
    }
    number
}

// Big endian: each further byte's bits stand below those before.
fn byte_by_byte_down(bytes: &[u8], first: u32, size: u32) -> u64
    requires { (first < 8) × (size ≤ 64) × (first + size ≤ 8 * length bytes.now) }
    ensures { result ≡ integer Big bytes.now first size }
{
    let mut number = 0;
    let mut done = 0;
    while done < size {
        let place = first + done;
        let skipped = place % 8;
        let taken = (8 - skipped).min(size - done);
        let part = part_of(bytes[(place / 8) as usize], 8 - skipped - taken, taken);
        number = (number << taken) + u64::from(part);
        done += taken;
    }
    number
}

// So many bits of a byte, from this one up.
#[tactic(auto, using(crate::proofs::Words::masked))]
fn part_of(byte: u8, lowest: u32, size: u32) -> u8
    requires { lowest + size ≤ 8 }
    ensures { result ≡ byte / 2 ^ lowest % 2 ^ size }
{
    ((u32::from(byte) >> lowest) & ((1 << size) - 1)) as u8
}
