//! Tests of bytes and numbers, files and outputs, each front of a log, and texts that no command prints.
#![tactic(auto)]

#[cfg(test)]
mod bytes;
#[cfg(test)]
mod logs;
#[cfg(test)]
mod stores;
#[cfg(test)]
mod texts;
