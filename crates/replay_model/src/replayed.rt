//! What a replay gives.
use crate::step::{Divergence, Missing};
use listed::Listed;
use mpi_call::lists::Ranks;
use run_model::history::History;
use run_model::lists::{Outputs, Variables};

/// Where a rank stands when no rank can go on.
#[derive(Drop)]
pub enum Stand {
    /// Its program has ended.
    Ended,
    /// Its entries are used up.
    LogEnded,
    /// It is at its breakpoint, with these variables.
    AtBreak { variables: Variables },
    /// Its call does not fit its entry.
    Diverged(Divergence),
    /// It waits for something that never comes.
    Starved(Missing),
}

/// Where some ranks stand, in order; contracts see a list.
pub type Stands = Listed<Stand>;

/// A whole replay of one group.
#[derive(Drop)]
pub struct Replayed {
    /// The ranks of the group, rising.
    pub group: Ranks,
    /// The events, without mates.
    pub events: History,
    /// What each rank of the group printed.
    pub outputs: Outputs,
    /// Where each rank of the group stands.
    pub ends: Stands,
}

/// The replays of some groups, in order; contracts see a list.
pub type Replays = Listed<Replayed>;
