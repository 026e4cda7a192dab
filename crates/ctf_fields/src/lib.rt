//! Fields of packets and events, read from bits by their types (CTF 1.8, section 4).
#![tactic(auto)]

mod choice;
mod error;
mod field;
mod field_path;
mod id_and_timestamp;
mod leaves;
mod named;
mod names;
mod numbers;
mod open_struct;
mod raw;
mod read;
mod scratch;
mod source;
mod span;
mod types;
mod values;

pub use error::FieldError;
pub use field::{Field, Member};
pub use id_and_timestamp::{LastAndFirst, last_and_first};
pub use leaves::{read_integer, read_text};
pub use named::{first_named, last_named};
pub use open_struct::Scopes;
pub use raw::RawEvent;
pub use read::{read_type, read_type_within};
pub use scratch::Scratch;
pub use span::BitSpan;
pub use types::{align_at, integer_type, type_at};
pub use values::{below, below_64, number_named, number_of, value_named};
