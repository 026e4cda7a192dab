//! What each thread waits for: the stretches of all threads' states, and what ended each wait.
#![tactic(auto)]

mod change;
mod changes;
mod cuts;
mod find;
mod links;
mod moment;
mod moments;
mod named;
mod ordered;
mod sorting;
mod states;
mod stretches;
mod vertex;
mod waits;
mod wake;
mod weaving;

pub use named::ThreadName;
pub use vertex::{Link, ThreadState, Vertex};
pub use waits::{Waits, graph};
