//! What a reference is for.

/// The field that a reference leads to.
#[derive(Clone, Copy, Debug, PartialEq, Eq)]
pub enum PathUse {
    /// An enumeration, the tag of a variant.
    Tag,
    /// An unsigned integer, the length of a list.
    Length,
}

/// What is said of a reference where it stands.
#[derive(Clone, Copy, Debug, PartialEq, Eq)]
pub enum Resolution {
    Resolved,
    Invalid,
    /// The end of the block decides, for the scope's entry is still to come.
    Deferred,
}

/// What a type is used as.
#[derive(Clone, Copy, Debug, PartialEq, Eq)]
pub enum Use {
    /// The type of a field, or of what is in a list.
    Field,
    /// The type of an alias, an item or an entry.
    Alone,
}
