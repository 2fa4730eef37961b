//! Tests of the language: tokens, names, trees, what a program's text is read as, and how programs are evaluated.
#![tactic(auto)]

#[cfg(test)]
mod effects;
#[cfg(test)]
mod names;
#[cfg(test)]
mod programs;
#[cfg(test)]
mod replies;
#[cfg(test)]
mod states;
#[cfg(test)]
mod tokens;
#[cfg(test)]
mod trees;
#[cfg(test)]
mod values;
