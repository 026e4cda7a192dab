//! Tests of the forest of hosts.
#![tactic(auto)]

#[cfg(test)]
mod exchanges;
#[cfg(test)]
mod shapes;
#[cfg(test)]
mod worked;
