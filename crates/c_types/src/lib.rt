//! The typed program of a C text, or the first fault that it has.
#![tactic(auto)]

mod heads;
pub mod meaning;
mod parameters;
mod program;
mod seen;
pub mod typing;

pub use meaning::text_fixes_meaning;
pub use typing::{check, one_program, read_program};
