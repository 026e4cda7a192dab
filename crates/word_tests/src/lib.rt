//! Tests of the words of a command line: what the words that are a command ask for.
#![tactic(auto)]

#[cfg(test)]
mod commands;
#[cfg(test)]
mod reading;
