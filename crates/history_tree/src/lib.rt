//! The tree of a history's nodes: where intervals are placed, and how they are found.
#![tactic(auto)]

mod branch;
mod earlier;
mod over;
mod places;
mod room;
mod shortcuts;
mod tree;
mod visit;

pub use tree::Tree;
pub use visit::Visit;
