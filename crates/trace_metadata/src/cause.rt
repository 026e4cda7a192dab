//! Why a metadata file declares no trace.
use meta_packets::MetaPacketCause;
use std::fmt;
use type_table::MetaItemCause;

/// The first place where a metadata file is refused, and why.
#[derive(Clone, Copy, Debug, PartialEq, Eq)]
pub enum MetaCause {
    /// The packet at this offset, in bytes.
    Packet { offset: u64, cause: MetaPacketCause },
    /// At this byte of the text, from 0, no token begins.
    Byte { at: u64 },
    /// After this token, from 1, more braces are open than may be.
    Token { token: u64 },
    /// Where this item, from 1, would begin, none does.
    Syntax { item: u64 },
    /// This item, from 1, breaks a rule; 0 where no item tells of the trace.
    Item { item: u64, cause: MetaItemCause },
}

impl fmt::Display for MetaCause {
    ghost use Rattle.std.specs.Prelude.{Some};
    ghost use Rattle.trace_metadata.specs.Causes.{cause_text};

    ghost output = { λ cause. Some (cause_text cause) };

    fn fmt<W: fmt::Write>(&self, f: &mut fmt::Formatter<W>) -> fmt::Result {
        match *self {
            MetaCause::Packet { offset, cause } => write!(f, "packet at {offset}: {cause}"),
            MetaCause::Byte { at } => write!(f, "byte {at}: no token"),
            MetaCause::Token { token } => write!(f, "token {token}: TooDeep"),
            MetaCause::Syntax { item } => write!(f, "item {item}: Syntax"),
            MetaCause::Item { item, cause } => write!(f, "item {item}: {cause}"),
        }
    }
}
