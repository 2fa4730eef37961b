//! A number for each rank.
#![tactic(auto)]

ghost use Rattle.std.specs.Prelude.{◌≡◌, ◌+◌, ◌<◌, ◌^◌, IfOk, length, replicate, slice_index, slice_set};
ghost use Rattle.rank_counts.specs.Greater.{AreGreater};

use std::alloc::{AllocError, Global};
use std::marker::Model;

/// A number for each rank, which contracts see as a list.
#[derive(Drop)]
pub struct RankCounts {
    counts: Vec<u32>,
}

impl Model for RankCounts {
    ghost use Rattle.std.specs.Prelude.{List, ℕ};

    ghost Value = { List ℕ };

    ghost view = { λ s. s.counts.items };
}

impl RankCounts {
    /// Zeros for so many ranks.
    pub fn new(alloc: Global, ranks: usize) -> Result<Self, AllocError>
        ensures { IfOk result (λ counts. counts ≡ replicate ranks 0) }
    {
        Ok(RankCounts {
            counts: vec![in alloc; 0; ranks]?,
        })
    }

    /// The number of a rank.
    pub fn get(&self, rank: u8) -> u32
        requires { rank < length self.now }
        ensures { result ≡ slice_index self.now rank }
    {
        let counts = self.counts.as_slice();
        counts[rank as usize]
    }

    /// Sets the number of a rank.
    pub fn set(&mut self, rank: u8, count: u32)
        requires { rank < length self.old }
        ensures { self.new ≡ slice_set self.old rank count }
    {
        self.counts[rank as usize] = count;
    }

    /// Counts one more of a rank. Takes no memory.
    pub fn rise(&mut self, rank: u8)
        requires rank { rank < length self.old }
        requires few { slice_index self.old rank + 1 < 2 ^ 32 }
        ensures { self.new ≡ slice_set self.old rank (slice_index self.old rank + 1) }
    {
        self.counts[rank as usize] += 1;
    }

    /// For each rank the greater of the two numbers.
    pub fn take_greater(&mut self, other: &RankCounts)
        requires { length other.now ≡ length self.old }
        ensures { AreGreater self.old other.now self.new }
    {
        take_greater(self.counts.as_mut_slice(), other.counts.as_slice());
    }
}

/// Place by place the greater of the two numbers.
fn take_greater(mine: &mut [u32], other: &[u32])
    requires { length other.now ≡ length mine.old }
    ensures { AreGreater mine.old other.now mine.new }
{
    for (rank, count) in other.iter().enumerate() {
        mine[rank] = mine[rank].max(*count);
    }
}
