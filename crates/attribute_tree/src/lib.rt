//! The attributes that have a number: their paths, in the order in which they were added.
#![tactic(auto)]

mod attributes;
mod children;
mod links;
mod nodes;
mod owner;
mod prefix;
mod rows;

pub use attributes::Attributes;
pub use children::Children;
