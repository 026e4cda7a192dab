//! What holds of all metadata files.
ghost use Rattle.std.specs.Prelude.{◌≡◌, ℕ, List};
ghost use Rattle.trace_types.specs.declared.byte_order.ByteOrderKind.{ByteOrderKind};
ghost use Rattle.meta_packets.specs.Packets.{IsText, IsRefused};
ghost use Rattle.meta_packets.specs.declared.header.MetaPacketCause.{MetaPacketCause};

/// A file has at most one text, and where it has one it is refused nowhere. It is refused at one offset at most, for one cause.
pub fn one_text()
    ensures text { (bytes a b : List ℕ) → IsText bytes a → IsText bytes b → a ≡ b }
    ensures refused { (bytes text : List ℕ) (order : ByteOrderKind) (offset : ℕ) (cause : MetaPacketCause) → IsText bytes text → ¬ (IsRefused order bytes offset cause) }
    ensures one_refusal { (bytes : List ℕ) (m n : ByteOrderKind) (i j : ℕ) (a b : MetaPacketCause) → IsRefused m bytes i a → IsRefused n bytes j b → (i ≡ j) × (a ≡ b) }
{}
