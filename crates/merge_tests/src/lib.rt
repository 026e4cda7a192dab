//! Tests of the merge of hosts.
#![tactic(auto)]

#[cfg(test)]
mod hosts;
#[cfg(test)]
mod synced;
#[cfg(test)]
mod worked;
