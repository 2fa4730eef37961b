//! What a search finds.
ghost use Rattle.std.specs.Prelude.{◌≡◌, ◌++◌, ◌∷◌, [], OnOk};

use listed::Listed;
use picked_runs::turn::Turns;
use run_model::ending::Ending;
use std::alloc::{AllocError, Global};
use std::marker::Model;
use wiz_base::bytes::Bytes;

/// What a whole run comes to: its ending as it is told, and what the ranks that tell of it printed, each with its rank.
#[derive(Drop)]
pub struct Outcome {
    ending: Ending,
    printed: Vec<(u8, Bytes)>,
}

impl Model for Outcome {
    ghost use Rattle.run_states.specs.Outcomes.{RunOutcome};

    ghost Value = { RunOutcome };

    ghost view = { λ s. record { ending = s.ending; printed = s.printed.items } };
}

impl Outcome {
    /// An ending of which no rank tells.
    pub fn new(alloc: Global, ending: Ending) -> Self
        ensures { result ≡ record { ending = ending; printed = [] } }
    {
        Outcome {
            ending,
            printed: Vec::new(alloc),
        }
    }

    /// Adds what a rank printed.
    pub fn push(&mut self, rank: u8, printed: Bytes) -> Result<(), AllocError>
        ensures { OnOk result (self.new ≡ record self.old { printed = self.old.printed ++ (rank, printed) ∷ [] }) }
    {
        self.printed.push((rank, printed))?;
        Ok(())
    }

    /// The ending; that of a mismatch names rank 0.
    pub fn ending(&self) -> Ending
        ensures { result ≡ self.now.ending }
    {
        self.ending
    }

    /// What ranks printed.
    pub fn printed(&self) -> &[(u8, Bytes)]
        ensures { result.now ≡ self.now.printed }
    {
        &self.printed
    }
}

/// An outcome, and the turns of a recording that comes to it.
#[derive(Drop)]
pub struct FoundOutcome {
    pub turns: Turns,
    pub outcome: Outcome,
}

/// States, each as the turns that make it; contracts see a list.
pub type States = Listed<Turns>;

/// What a search answers.
#[derive(Drop)]
pub struct Explored {
    /// The outcomes, in the order in which they were found.
    pub found: Listed<FoundOutcome>,
    /// How many states it met.
    pub states: usize,
    /// The states that it met and did not look at, where they are more than were asked for.
    pub left: States,
    /// Whether a rank was held back that had looked in vain so often.
    pub polled: bool,
}
