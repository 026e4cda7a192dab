//! The text of merged events.
#![tactic(auto)]

mod fields;
mod io_fields;
mod kind;
mod laws;
mod line;
mod line_head;
mod list;
mod named;
mod names;
mod narrow;
mod numbering;
mod one;
mod parsed_line;
mod spelled;
mod split;
mod thread;
mod trace;
mod words;
mod write;
mod write_fields;

pub use laws::{named_line, one_list};
pub use list::{ListError, read_list};
pub use spelled::{name_of, names_of, spell_bytes};
pub use split::split_hosts;
pub use trace::MergedTrace;
pub use write::{append_head, append_line, write_line};
