//! The typed program of a C text, and what it means: the calls that a rank makes, by the replies that it gets.
//!
//! The tree of the grammar (`c_grammar`) has the names of the productions; what one of them means has its name with `Typed` before it.
#![tactic(auto)]

pub mod constants;
pub mod effect;
pub mod expr;
pub mod format;
pub mod mpi;
pub mod program;
pub mod range;
pub mod state;
pub mod statement;

pub use program::CProgram;
