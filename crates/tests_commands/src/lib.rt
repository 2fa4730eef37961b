//! Tests of the commands over files in memory: faults, forged logs, both evaluators, what is kept of a run, and arguments.
#![tactic(auto)]

#[cfg(test)]
mod evaluators;
#[cfg(test)]
mod faults;
#[cfg(test)]
mod forged;
#[cfg(test)]
mod programs;
#[cfg(test)]
mod reports;
#[cfg(test)]
mod tool;
#[cfg(test)]
mod words;
