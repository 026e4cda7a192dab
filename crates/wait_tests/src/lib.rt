//! Tests of the graph of waits and of critical paths.
#![tactic(auto)]

#[cfg(test)]
mod graphs;
#[cfg(test)]
mod lists;
#[cfg(test)]
mod merges;
#[cfg(test)]
mod paths;
#[cfg(test)]
mod windows;
