//! Tests of small texts, of the steps of event lists, and of more names, paths and steps than 16 bits can number.
#![tactic(auto)]

#[cfg(test)]
mod attributes;
#[cfg(test)]
mod histories;
pub mod lists;
#[cfg(test)]
mod names;
#[cfg(test)]
mod read_back;
#[cfg(test)]
mod small_texts;
#[cfg(test)]
mod step_runs;
