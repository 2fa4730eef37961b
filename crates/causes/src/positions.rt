//! Lists of positions.
ghost use Rattle.std.specs.Prelude.{◌≡◌, ◌++◌, ◌∷◌, [], OnOk};
ghost use Rattle.std.specs.Option.{option_to_list};

use std::alloc::{AllocError, Global};
use std::marker::Model;

/// Positions in a history, which contracts see as a list.
#[derive(Drop)]
pub struct Positions {
    values: Vec<u32>,
}

impl Model for Positions {
    ghost use Rattle.std.specs.Prelude.{List, ℕ};

    ghost Value = { List ℕ };

    ghost view = { λ s. s.values.items };
}

impl Positions {
    /// No positions.
    pub fn new(alloc: Global) -> Self
        ensures { result ≡ [] }
    {
        Positions {
            values: Vec::new(alloc),
        }
    }

    /// Adds a position at the end.
    pub fn push(&mut self, at: u32) -> Result<(), AllocError>
        ensures { OnOk result (self.new ≡ self.old ++ at ∷ []) }
    {
        self.values.push(at)?;
        Ok(())
    }

    /// Adds a position at the end, if there is one.
    pub fn push_some(&mut self, at: Option<u32>) -> Result<(), AllocError>
        ensures { OnOk result (self.new ≡ self.old ++ option_to_list at) }
    {
        match at {
            Some(at) => self.push(at),
            None => Ok(()),
        }
    }

    /// The positions in order.
    pub fn as_slice(&self) -> &[u32]
        ensures { result.now ≡ self.now }
    {
        &self.values
    }
}
