//! Tests of recording and replay on threads, with C programs: gates that ranks pass, what they print, and traces; and the turn lock.
#![tactic(auto)]

#[cfg(test)]
mod gates;
#[cfg(test)]
mod locks;
#[cfg(test)]
mod recordings;
#[cfg(test)]
mod regroup;
#[cfg(test)]
mod replays;
#[cfg(test)]
mod starting;
