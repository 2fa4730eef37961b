//! Why a log cannot be refined by a plan.

use thiserror::Error;

/// The first reason, in this order, why a log cannot be refined by a plan.
#[derive(Clone, Copy, Debug, PartialEq, Eq, Error)]
pub enum RefineFault {
    /// The plan has another number of ranks than the log.
    #[error("plan ranks {plan} log ranks {log}")]
    Ranks { plan: u8, log: u8 },
    /// A group of the plan has ranks inside and outside the log's group, this is the least.
    #[error("plan group {group} crosses")]
    Crosses { group: u8 },
}
