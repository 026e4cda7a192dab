//! Tests of the report on several hosts.
#![tactic(auto)]

#[cfg(test)]
mod answers;
#[cfg(test)]
mod split;
#[cfg(test)]
mod texts;
