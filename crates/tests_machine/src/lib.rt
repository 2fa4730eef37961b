//! Tests of what a program in C cannot ask: starts that are refused, a board that is left, replies out of shape, raised bounds.
#![tactic(auto)]

#[cfg(test)]
mod advice;
#[cfg(test)]
mod boards;
#[cfg(test)]
mod shapes;
#[cfg(test)]
mod starting;
