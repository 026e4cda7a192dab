//! What all crates of hosttrace share: events, attribute paths, values and their small texts.
#![tactic(auto)]

mod byte_order;
mod byte_text;
mod call_names;
mod cause;
mod comm;
mod cut;
mod event;
mod event_kind;
mod host;
mod limits;
mod memory;
mod number;
mod path;
mod path_text;
mod request;
mod segment;
mod spelling;
mod text;
pub mod thread_status;
mod value;
mod woken;

pub use byte_order::ByteOrderKind;
pub use byte_text::{read_byte_text, write_byte_text};
pub use call_names::{CALL_ENTRY, is_call_in, is_call_out};
pub use cause::Cause;
pub use comm::{Comm, read_comm};
pub use cut::cut_at;
pub use event::{Event, KernelEvent, Merged};
pub use event_kind::{EventKind, read_kind};
pub use host::{HostEvents, RefusedPacket};
pub use limits::{MAX_BRACES, MAX_EVENTS, MAX_HOSTS, MAX_ITEMS, MAX_TYPE_DEPTH, TIME_END};
pub use memory::OutOfMemory;
pub use number::{read_number, read_number_below, read_signed};
pub use path::{CpuLeaf, Path, ThreadKey, ThreadLeaf, write_path};
pub use path_text::read_path;
pub use request::Request;
pub use segment::SegKey;
pub use spelling::is_text;
pub use text::Text;
pub use value::Value;
pub use woken::Woken;
