//! Fields that were read.
use sqlite_items::{Boxed, Items};
use trace_types::Text;

/// A field. Names are indices in the names of the trace's types, and `ty` is an index among the types.
#[cycle(field)]
#[derive(Debug, Drop)]
pub enum Field {
    /// An integer, or an enumeration's. `ty` is its own type, which tells its size, its sign and its labels.
    Int { ty: u32, value: i128 },
    /// A string, without its zero byte.
    Text(Text),
    Struct(Items<Member>),
    /// The field of a variant that was chosen.
    Choice { name: u32, field: Boxed<Field> },
    /// An array or a sequence. `item` is the type of its items.
    List { item: u32, items: Items<Field> },
}

/// A field of a structure.
#[cycle(field)]
#[derive(Debug, Drop)]
pub struct Member {
    pub name: u32,
    pub field: Field,
}
