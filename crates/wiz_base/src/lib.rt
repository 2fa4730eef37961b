//! Bytes, decimal numbers and lines.
#![tactic(auto)]

pub mod bytes;
pub mod cursor;
pub mod fault;
pub mod number;

pub use bytes::{Bytes, push_text};
pub use cursor::Cursor;
pub use fault::NumberFault;
pub use number::{decimal, is_decimal, number_i64, push_decimal, push_number};
