//! What kernel events are, by their names and fields (LTTng's kernel tracepoints).
#![tactic(auto)]

mod fields;
mod kinds;
mod known;
mod layout;
mod needed;
mod placed;
mod plan;
mod planned;
mod segment_fields;
mod segments;
mod sought;
mod tracepoint;
mod whole;

pub use kinds::kind_of;
pub use layout::Layout;
pub use placed::kind_from;
