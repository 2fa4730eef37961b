//! Events.
ghost use Rattle.std.specs.Prelude.{◌≡◌, []};

use listed::Listed;
use mpi_call::call::Call;
use mpi_call::reply::Reply;
use std::marker::Model;

/// A start by its rank and its number there.
pub type StartName = (u8, u32);

/// Pairs of a receive and a send, which contracts see as a list. No pairs take a pointer's room alone.
#[derive(Drop)]
pub struct Meetings {
    pairs: Option<Box<Listed<(StartName, StartName)>>>,
}

impl Model for Meetings {
    ghost use Rattle.std.specs.Prelude.{ℕ, List, [], unwrap_or, option_map, box_value};

    ghost Value = { List ((ℕ × ℕ) × (ℕ × ℕ)) };

    ghost view = { λ m. unwrap_or (option_map box_value m.pairs) [] };
}

impl Meetings {
    /// No pairs.
    pub fn none() -> Self
        ensures { result ≡ [] }
    {
        Meetings { pairs: None }
    }

    /// The pairs in order.
    pub fn as_slice(&self) -> &[(StartName, StartName)]
        ensures { result.now ≡ self.now }
    {
        match &self.pairs {
            Some(pairs) => pairs.as_slice(),
            None => &[],
        }
    }
}

/// One reply given to one call of one rank.
#[derive(Drop)]
pub struct Event {
    pub rank: u8,
    pub call: Call,
    pub reply: Reply,
    /// For the later of two paired starts, the position of the earlier one in the history.
    pub mate: Option<u32>,
    /// The pairs that meet after it and before the next event, in order.
    pub met: Meetings,
}
