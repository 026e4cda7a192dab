//! The critical path of a thread: who holds it up at each instant.
#![tactic(auto)]

mod holder;
pub mod laws;
mod path;
mod piece;

pub use path::{PathError, critical};
pub use piece::{Holder, PathPiece, What};
