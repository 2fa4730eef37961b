//! Tokens of a C source text.
#![tactic(auto)]

mod bytes;
mod comment;
pub mod fault;
mod lexeme;
pub mod lexer;
pub mod limits;
pub mod literal;
mod mark;
mod opening;
mod place;
mod step;
pub mod token;
mod word;

pub use fault::{SourceFault, Why};
pub use lexer::{one_reading, tokens};
pub use literal::literal_value;
pub use place::fault_at;
pub use token::{Token, TokenKind, TokenList};
