//! The words of a command line, and what they ask for.
#![tactic(auto)]

mod command;
mod command_name;
pub mod laws;
mod make;
mod matched;
mod option_name;
mod ordered;
mod part;
mod parts;
mod path;
mod range;
mod shape;
mod table;
mod words;

pub use command::{Command, Input, PlainCommand};
pub use words::{WordsError, parse_words};
