//! The types that a text of metadata declares, kept in a table, and what its blocks tell.
#![tactic(auto)]

mod cause;
mod declared;
mod fault;
mod few;
mod integer;
mod labels;
mod laws;
mod meta;
mod names;
mod per_scope;
mod scope;
mod table;
mod trace_meta;
mod type_size;
mod variant_fields;

pub use cause::MetaItemCause;
pub use declared::{ClockRate, Declared, EventId, EventParts, StreamScopes};
pub use fault::Fault;
pub use integer::Integer;
pub use labels::Labels;
pub use laws::small_types;
pub use meta::{FieldMeta, LabelMeta, Reference, ScopeName, TypeMeta};
pub use names::{NameKind, bare, is_same_name, spaced};
pub use per_scope::PerScope;
pub use scope::split_scope;
pub use table::Table;
pub use trace_meta::TraceMeta;
pub use type_size::{MAX_NODES, TypeSize};
pub use variant_fields::{FEW_FIELDS, VariantFields};
