//! The grammar of TSDL, the language of CTF metadata (CTF 1.8, section 7.3): from tokens to
//! declarations.
#![tactic(auto)]

mod cursor;
mod declarations;
mod enumerations;
mod fault;
mod laws;
mod symbol;
mod text;
mod tree;
mod types;
mod values;

pub use laws::one_reading;
pub use text::{ParseError, parse};
pub use tree::{
    Attr, AttrValue, BlockKind, Decl, Dim, Entry, EnumBase, EnumTree, FieldTree, Item, Label,
    StructBody, StructTree, TypeTree, VariantTree,
};
