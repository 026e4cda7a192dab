//! The rules of types in a text of metadata (CTF 1.8, sections 4 and 7.3.2).
#![tactic(auto)]

mod enums;
mod integer;
mod lists;
mod seen;
mod types;
mod typing;
mod values;

pub use enums::enum_type;
pub use seen::SeenPaths;
pub use types::{struct_type, used_as, variant_type};
pub use typing::{declare, new_name};
pub use values::{dotted, freq_said, id_said, is_version, offset_said, trace_order_said};
