//! Tests of the messages between hosts.
#![tactic(auto)]

#[cfg(test)]
mod matched;
#[cfg(test)]
mod refused;
#[cfg(test)]
mod traffic;
