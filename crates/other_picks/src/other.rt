//! Other picks than a run's own.
ghost use Rattle.std.specs.Prelude.{◌≡◌, ◌++◌, ◌∷◌, [], OnOk, take};
ghost use Rattle.other_picks.specs.declared.other.TheConstants.{MOST_OTHER_PICKS};

use std::alloc::{AllocError, Global};
use std::marker::Model;

/// The most other picks that are listed.
pub const MOST_OTHER_PICKS: usize = 10_000;

/// A sender that a receive from any source could have taken its message from, and did not.
#[derive(Clone, Copy)]
pub struct OtherPick {
    /// The position of the receive in the history.
    pub at: u32,
    pub rank: u8,
    /// The number of the receive among the starts of its rank.
    pub start: u32,
    pub sender: u8,
}

/// Other picks, at most `MOST_OTHER_PICKS` of them; contracts see a list.
#[derive(Drop)]
pub struct OtherPicks {
    values: Vec<OtherPick>,
}

impl Model for OtherPicks {
    ghost use Rattle.std.specs.Prelude.{List, ◌≤◌, length};
    ghost use Rattle.other_picks.specs.declared.other.OtherPick.{OtherPick};
    ghost use Rattle.other_picks.specs.declared.other.TheConstants.{MOST_OTHER_PICKS};

    ghost Value = { List OtherPick };

    ghost view = { λ s. s.values.items };

    ghost invariant = { λ s. length s.values.items ≤ MOST_OTHER_PICKS };
}

impl OtherPicks {
    /// None.
    pub fn new(alloc: Global) -> Self
        ensures { result ≡ [] }
    {
        OtherPicks {
            values: Vec::new(alloc),
        }
    }

    /// Adds one at the end, where there is room for it.
    pub fn add(&mut self, other: OtherPick) -> Result<(), AllocError>
        ensures { OnOk result (self.new ≡ take MOST_OTHER_PICKS (self.old ++ other ∷ [])) }
    {
        if self.values.len() >= MOST_OTHER_PICKS {
            return Ok(());
        }
        self.values.push(other)?;
        Ok(())
    }

    /// What is cut already stays as it is.
    pub(crate) fn few(&self)
        ensures { take MOST_OTHER_PICKS self.now ≡ self.now }
    {
        let _count = self.values.len();
    }

    /// All in order.
    pub fn as_slice(&self) -> &[OtherPick]
        ensures { result.now ≡ self.now }
    {
        &self.values
    }
}
