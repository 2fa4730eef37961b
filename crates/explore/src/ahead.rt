//! States that were looked at before their turn came.
ghost use Rattle.std.specs.Prelude.{◌≡◌, ◌++◌, ◌∷◌, ◌<◌, [], OnOk, false, if◌then◌else◌, true};
ghost use Rattle.mpi_call.specs.Lists.{IsIn};
ghost use Rattle.explore.specs.QuietFirst.{is_hindered};

use crate::quiet::Look;
use std::alloc::{AllocError, Global};
use std::marker::Model;

/// The places of states that were looked at already, rising; contracts see a list.
#[derive(Drop)]
pub struct PassedStates {
    places: Vec<usize>,
    /// How many of them a search has come to.
    come: usize,
}

impl Model for PassedStates {
    ghost use Rattle.std.specs.Prelude.{List, ℕ, vec_len, ◌≤◌};

    ghost Value = { List ℕ };

    ghost view = { λ s. s.places.items };

    ghost invariant = { λ s. s.come ≤ vec_len s.places };
}

impl PassedStates {
    /// None.
    pub fn new(alloc: Global) -> Self
        ensures { result ≡ [] }
    {
        PassedStates {
            places: Vec::new(alloc),
            come: 0,
        }
    }

    /// Notes one.
    pub fn push(&mut self, place: usize) -> Result<(), AllocError>
        ensures { OnOk result (self.new ≡ self.old ++ place ∷ []) }
    {
        self.places.push(place)?;
        Ok(())
    }

    /// How many of them a search has not come to yet.
    pub fn ahead(&self) -> usize {
        self.places.len().saturating_sub(self.come)
    }

    /// Whether a place, to which a search comes now, is the next of these.
    pub fn comes_to(&mut self, place: usize) -> bool
        ensures there { result ≡ true → IsIn place self.old }
        ensures same { self.new ≡ self.old }
    {
        match self.places.get(self.come) {
            Some(next) => {
                if *next != place {
                    return false;
                }
                self.come += 1;
                true
            }
            None => false,
        }
    }
}

/// Notes the place of a state, where it was looked at.
pub fn note_passed(passed: &mut PassedStates, place: usize, look: Look) -> Result<(), AllocError>
    ensures { OnOk result (passed.new ≡ (if is_hindered look then passed.old else passed.old ++ place ∷ [])) }
{
    match look {
        Look::Hindered(_) => Ok(()),
        _ => passed.push(place),
    }
}
