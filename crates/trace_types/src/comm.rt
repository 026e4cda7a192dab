//! A thread's name as the kernel keeps it.
ghost use Rattle.std.specs.Prelude.{◌≡◌, ◌≤◌, ℕ, List, length, take, IfSome, IfNone, nat_lt};
ghost use Rattle.std.specs.List.{prefix_len};
ghost use Rattle.trace_types.specs.Padding.{name_in};
ghost use Rattle.trace_types.specs.Comms.{IsComm, SpellsName};

use crate::byte_text::read_byte;
use std::fmt;
use std::marker::Model;

/// A thread's name: at most 15 bytes, none of them zero. Contracts see these bytes.
#[derive(Clone, Copy, Debug)]
pub struct Comm {
    // the name, and then zeros
    bytes: [u8; 16],
}

impl Model for Comm {
    ghost use Rattle.std.specs.Prelude.{List, ℕ};
    ghost use Rattle.std.proofs.Common.{sym, ap};
    ghost use Rattle.trace_types.specs.Padding.{name_in, IsPadded, padded};

    ghost Value = { List ℕ };

    ghost view = { λ c. name_in c.bytes };

    ghost invariant = { λ c. IsPadded c.bytes };

    ghost inverse = { λ name. record { bytes = padded name } };

    ghost inverse_ok = { λ a h. ap (λ b. record { bytes = b }) (sym h.0) };
}

impl PartialEq for Comm {
    ghost use Rattle.std.specs.Prelude.{nat_eq};
    ghost use Rattle.std.specs.Cmp as Cmp;
    ghost use Rattle.std.specs.Cmp.Lexicographic.{pointwise, nat_list_eq_equiv};

    ghost eq = { pointwise nat_eq };

    ghost laws = { Cmp.partial_equiv_from_equiv nat_list_eq_equiv };

    fn eq(&self, other: &Comm) -> bool {
        self.bytes == other.bytes
    }
}

impl Eq for Comm {
    ghost use Rattle.std.specs.Cmp.Lexicographic.{nat_list_eq_equiv};

    ghost laws = { nat_list_eq_equiv };
}

impl Comm {
    /// The name that these bytes begin with: those before the first zero, and the first 15 of these where there are
    /// more, as the kernel cuts it.
    pub fn first_of(bytes: &[u8]) -> Comm
        ensures { result ≡ take 15 (name_in bytes.now) }
    {
        let len = name_len(bytes).min(15);
        let mut padded = [0; 16];
        padded[..len].copy_from_slice(&bytes[..len]);
        Comm { bytes: padded }
    }

    /// The bytes of the name.
    pub fn as_bytes(&self) -> &[u8]
        ensures { result.now ≡ self.now }
    {
        &self.bytes[..name_len(&self.bytes)]
    }
}

// How many bytes stand before the first zero.
fn name_len(bytes: &[u8]) -> usize
    ensures { result ≡ prefix_len (λ b. nat_lt 0 b) bytes.now }
{
    bytes.iter().take_while(|byte| **byte > 0).count()
}

/// Reads a word that spells a thread's name. `None` comes exactly where it spells none.
pub fn read_comm(text: &[u8]) -> Option<Comm>
    ensures found { IfSome result (λ comm. IsComm text.now comm) }
    ensures none { IfNone result ((name : List ℕ) → ¬ (IsComm text.now name)) }
{
    match text {
        [] => None,
        [b'%'] => Some(Comm { bytes: [0; 16] }),
        _ => read_spelled(text),
    }
}

// Reads a text that is the spelling of each byte of a name, one after the other.
fn read_spelled(text: &[u8]) -> Option<Comm>
    ensures found { IfSome result (λ comm. SpellsName text.now comm) }
    ensures none { IfNone result ((name : List ℕ) → ¬ (SpellsName text.now name)) }
{
    let mut bytes = [0u8; 16];
    let mut len = 0;
    let mut rest = text;
    while !rest.is_empty() {
        let (byte, after) = read_byte(rest)?;
        if byte == 0 || len == 15 {
            return None;
        }
        bytes[len] = byte;
        len += 1;
        rest = after;
    }
    Some(Comm { bytes })
}
