//! The types of a trace's metadata, by their indices.
use crate::integer::Integer;
use crate::labels::Labels;
use crate::variant_fields::VariantFields;
use sqlite_items::Items;

/// An index in `types`, below that of the type that names it.
type TypeIndex = u32;

#[derive(Debug, Drop)]
pub enum TypeMeta {
    /// `size` bits, from 1 to 64, aligned to `align` bits, a power of two. `clock` is an index among the clocks.
    Integer(Integer),
    Enum {
        base: TypeIndex,
        labels: Labels,
    },
    /// Bytes up to a zero byte.
    Str,
    /// `align` is the greatest alignment of a field, or a greater one that was asked for.
    Struct {
        align: u32,
        fields: Items<FieldMeta>,
    },
    Variant {
        tag: Reference,
        fields: VariantFields,
    },
    Array {
        length: u64,
        item: TypeIndex,
    },
    Sequence {
        length: Reference,
        item: TypeIndex,
    },
}

/// A label for the values from `low` to `high`. `name` is an index in `names`.
#[derive(Clone, Copy, Debug, PartialEq, Eq)]
pub struct LabelMeta {
    pub name: u32,
    pub low: i128,
    pub high: i128,
}

/// A field. `name` is an index in `names`.
#[derive(Clone, Copy, Debug, PartialEq, Eq)]
pub struct FieldMeta {
    pub name: u32,
    pub ty: TypeIndex,
}

/// A field path to a field that was read before: from a scope's type where it begins with one, else from the
/// structures around it. The words are indices in `names`.
#[derive(Debug, Drop)]
pub struct Reference {
    pub scope: Option<ScopeName>,
    pub words: Items<u32>,
}

/// What is read of a packet and an event, in this order.
#[derive(Clone, Copy, Debug, PartialEq, Eq)]
pub enum ScopeName {
    PacketHeader,
    PacketContext,
    EventHeader,
    StreamContext,
    EventContext,
    EventFields,
}
