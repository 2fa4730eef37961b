//! What is compared, of two runs.
pub mod subject;
