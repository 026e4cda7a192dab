//! The commands of hosttrace: words in, a text out, and a status that says what happened.
#![tactic(auto)]

mod causes;
mod clusters;
mod commands;
mod declared;
mod disks;
mod folders;
mod hosts;
mod inputs;
mod laws;
mod long_lines;
mod making;
mod outputs;
mod paths;
mod questions;
mod ranges;
mod reading;
mod status;
mod status_line;
mod streams;
mod trace_files;
mod writing;

pub use command_words::{Command, Input, PlainCommand, WordsError, parse_words};
pub use commands::{run, run_plain};
pub use laws::{one_asking, one_cluster, one_refusal, one_text};
pub use status::{Limit, ListFile, Refusal, Status};
pub use status_line::write_status;
