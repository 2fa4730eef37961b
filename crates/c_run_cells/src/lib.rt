//! What a rank of a C program holds: its cells and variables, the values of expressions over them, and what is printed; and the
//! parts of evaluation in which no function of the text is called and nothing is asked.
#![tactic(auto)]

pub mod fail;
pub mod parts;
pub mod print;
pub mod state;
pub mod values;
