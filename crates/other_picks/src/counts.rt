//! How many starts each rank has made.
ghost use Rattle.std.specs.Prelude.{◌≡◌, ◌<◌, ◌+◌, ◌^◌, ◌++◌, ◌∷◌, [], IfOk, length, replicate, slice_index, slice_set};
ghost use Rattle.other_picks.specs.inside.Known.{AreStartCounts};

use run_model::event::Event;
use run_model::starts::is_start;
use std::alloc::{AllocError, Global};
use std::marker::Model;

/// How many ranks a byte can name.
const RANKS: usize = 256;

/// A number for each rank, which contracts see as a list.
#[derive(Drop)]
pub struct StartCounts {
    counts: Vec<u32>,
}

impl Model for StartCounts {
    ghost use Rattle.std.specs.Prelude.{◌≡◌, List, ℕ, length};

    ghost Value = { List ℕ };

    ghost view = { λ s. s.counts.items };

    ghost invariant = { λ s. length s.counts.items ≡ 256 };
}

impl StartCounts {
    /// No events.
    pub fn new(alloc: Global) -> Result<Self, AllocError>
        ensures { IfOk result (AreStartCounts []) }
    {
        let counts = zeros(alloc, RANKS)?;
        Ok(StartCounts { counts })
    }

    /// The number of a rank.
    pub fn get(&self, rank: u8) -> u32
        ensures count { result ≡ slice_index self.now rank }
        ensures wide { length self.now ≡ 256 }
    {
        let counts = self.counts.as_slice();
        counts[rank as usize]
    }

    /// Counts the next event.
    pub fn note(&mut self, before: &[Event], event: &Event)
        requires counts { AreStartCounts before.now self.old }
        requires short { length before.now + 1 < 2 ^ 32 }
        ensures { AreStartCounts (before.now ++ event.now ∷ []) self.new }
    {
        if is_start(&event.call, &event.reply) {
            let count = self.get(event.rank) + 1;
            self.set(event.rank, count);
        }
    }

    fn set(&mut self, rank: u8, count: u32)
        ensures { self.new ≡ slice_set self.old rank count }
    {
        self.counts[rank as usize] = count;
    }
}

/// So many zeros.
fn zeros(alloc: Global, count: usize) -> Result<Vec<u32>, AllocError>
    ensures items { IfOk result (λ counts. counts.items ≡ replicate count 0) }
    ensures len { IfOk result (λ counts. length counts.items ≡ count) }
{
    let mut counts = Vec::new(alloc);
    counts.resize(count, 0)?;
    Ok(counts)
}
