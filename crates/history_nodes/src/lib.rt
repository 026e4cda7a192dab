//! The nodes of a history's tree: records, links and ranges, and a count of the nodes that were read.
#![tactic(auto)]

mod children;
mod interval;
mod node;
mod nodes;
mod reads;
mod records;

pub use children::{Children, MAX_CHILDREN};
pub use interval::Interval;
pub use node::{Node, Shape};
pub use nodes::Nodes;
pub use reads::Reads;
pub use records::{MAX_RECORDS, Records};
