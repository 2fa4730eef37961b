//! How far each rank that waits has come in its next entry.
ghost use Rattle.std.specs.Prelude.{◌≡◌, ◌<◌, IfOk, None, length, replicate, slice_index_or, slice_set};

use std::alloc::{AllocError, Global};
use std::marker::Model;

/// For each rank the number of marks of its next entry that an attempt need not look at again, once it has waited at that entry.
/// Contracts see a list.
#[derive(Drop)]
pub struct MarksPassed {
    values: Vec<Option<usize>>,
}

impl Model for MarksPassed {
    ghost use Rattle.std.specs.Prelude.{List, Option, ℕ};

    ghost Value = { List (Option ℕ) };

    ghost view = { λ s. s.values.items };
}

impl MarksPassed {
    /// No places of `ranks` ranks.
    pub fn new(alloc: Global, ranks: u8) -> Result<Self, AllocError>
        ensures { IfOk result (λ places. places ≡ replicate ranks None) }
    {
        let mut values = Vec::new(alloc);
        values.resize(ranks as usize, None)?;
        Ok(MarksPassed { values })
    }

    /// The place of a rank.
    pub fn get(&self, rank: u8) -> Option<usize>
        requires { rank < length self.now }
        ensures { result ≡ slice_index_or self.now rank None }
    {
        let values = self.values.as_slice();
        values[rank as usize]
    }

    /// Notes the place of a rank, or that it has none. Takes no memory.
    pub fn set(&mut self, rank: u8, place: Option<usize>)
        requires { rank < length self.old }
        ensures { self.new ≡ slice_set self.old rank place }
    {
        self.values[rank as usize] = place;
    }
}
