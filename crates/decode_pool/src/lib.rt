//! The packets of a host's files, decoded into one list of kernel events in order of time.
#![tactic(auto)]

mod all;
mod batches;
mod decoded_packet;
mod decoding;
mod files;
mod gathered;
mod host_lists;
mod hosts;
mod laws;
mod listing;
mod lost_events;
mod pieces;

pub use all::{DecodeError, MAX_PACKETS, decode_all};
pub use files::FileBytes;
pub use hosts::{HostFiles, host_events};
pub use laws::{marks_where_missing, one_list};
