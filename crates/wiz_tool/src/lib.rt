//! What a tool says and does with files: input files and refusals, outcomes and statuses, messages, the report.
#![tactic(auto)]

pub mod failure;
pub mod finish;
pub mod inputs;
mod message;
pub mod refusal;
pub mod report;
pub mod status;
pub mod writing;
