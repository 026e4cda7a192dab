//! Why a metadata text declares no trace.
use std::fmt;

/// What is wrong with an item. Where two causes stand at one point, the first of this order counts.
#[derive(Clone, Copy, Debug, PartialEq, Eq)]
pub enum MetaItemCause {
    /// A floating point type.
    FloatType,
    /// A name of a type that nothing before declared.
    UnknownType,
    /// A second declaration of what may be declared once.
    DuplicateId,
    /// An attribute that is missing, stands twice or is out of range, or a type past a limit.
    BadAttribute,
    /// A tag, a length, a clock or a stream that isn't there.
    BadReference,
    /// No block tells of the trace.
    NoTrace,
}

impl fmt::Display for MetaItemCause {
    ghost use Rattle.std.specs.Prelude.{Some};
    ghost use Rattle.type_table.specs.Causes.{cause_text};

    ghost output = { λ cause. Some (cause_text cause) };

    fn fmt<W: fmt::Write>(&self, f: &mut fmt::Formatter<W>) -> fmt::Result {
        f.write_str(match self {
            MetaItemCause::FloatType => "FloatType",
            MetaItemCause::UnknownType => "UnknownType",
            MetaItemCause::DuplicateId => "DuplicateId",
            MetaItemCause::BadAttribute => "BadAttribute",
            MetaItemCause::BadReference => "BadReference",
            MetaItemCause::NoTrace => "NoTrace",
        })
    }
}
