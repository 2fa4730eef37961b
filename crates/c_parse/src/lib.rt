//! From the tokens of a C source text to its tree.
#![tactic(auto)]

mod call;
mod comma_list;
mod declaration;
mod expression;
mod external;
mod function_head;
mod jump;
mod laws;
mod parser;
mod read;
mod simple;
mod statement;
mod statement_head;
mod symbols;
mod terminals;

pub use laws::one_reading;
pub use parser::parse;
