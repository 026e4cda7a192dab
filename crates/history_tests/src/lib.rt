//! Tests of the history's tree, of a history over it beside a plain list, and of one that threads share.
#![tactic(auto)]

#[cfg(test)]
mod alike;
#[cfg(test)]
mod beside;
#[cfg(test)]
mod closed;
#[cfg(test)]
mod drawn;
#[cfg(test)]
mod fed;
#[cfg(test)]
mod gates;
#[cfg(test)]
mod grown;
pub mod job;
#[cfg(test)]
mod listed;
#[cfg(test)]
mod placed;
#[cfg(test)]
mod ranged;
#[cfg(test)]
mod replay;
#[cfg(test)]
mod shared;
