//! Tests of the crates that read stream files: calls that no packet leads to.
#![tactic(auto)]

#[cfg(test)]
mod bits;
