//! What is known at a point in a text of metadata: the types of names, the structures that are being read, scopes,
//! where the field paths of tags and lengths lead, and what blocks declared.
#![tactic(auto)]

mod block_context;
mod field_path;
mod labels;
mod name_map;
mod said;
mod scope;

pub use block_context::{BlockContext, Written};
pub use field_path::{PathUse, Resolution, Use};
pub use labels::{HIGHEST, LOWEST};
pub use said::{is_named, is_only, is_signed, is_word, sign_said, value_named};
pub use scope::TypeScope;
