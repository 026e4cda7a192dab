//! Tests of the clocks of hosts.
#![tactic(auto)]

#[cfg(test)]
mod brute;
#[cfg(test)]
mod heights;
#[cfg(test)]
mod seeds;
#[cfg(test)]
mod worked;
