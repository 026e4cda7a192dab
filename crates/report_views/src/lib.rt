//! The texts of commands.
#![tactic(auto)]

mod answers;
mod call_lines;
mod call_name;
mod cause_word;
mod check;
mod clock_lines;
mod disks;
mod events;
mod host_report;
pub mod laws;
mod long_names;
mod made;
mod marks;
mod pieces;
mod rows;
mod state;
mod stretch_lines;
mod time_lines;
mod value_text;

pub use answers::answers_text;
pub use check::check_text;
pub use disks::disks_text;
pub use events::{BATCH_LENGTH, NAMES_SIZE, batch_length, batch_texts, events_head};
pub use host_report::report;
pub use long_names::{LONG_NAME, long_word, spelled_names};
pub use made::made_text;
pub use pieces::pieces_text;
pub use state::state_text;
pub use stretch_lines::{range_text, stretches_text};
