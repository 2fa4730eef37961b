//! What a search has met.
ghost use Rattle.std.specs.Prelude.{◌≡◌, ◌++◌, ◌∷◌, [], MatchBool, OnOk, IfOk, false};
ghost use Rattle.mpi_call.specs.Lists.{IsIn};
ghost use Rattle.explore.specs.Explored.{IsListed};
ghost use Rattle.explore.specs.Meeting.{IsFoundAdded, IsStateAdded};

use crate::found::{FoundOutcome, States};
use indexmap::IndexSet;
use listed::Listed;
use picked_runs::turn::Turns;
use run_states::code::StateCode;
use std::alloc::{AllocError, Global};
use std::marker::Model;
use wiz_base::bytes::Bytes;

/// The codes of the keys of states, each once; contracts see a list.
#[derive(Drop)]
pub struct Codes {
    values: IndexSet<StateCode>,
}

impl Model for Codes {
    ghost use Rattle.std.specs.Prelude.{List, ℤ, map};

    ghost Value = { List (List ℤ) };

    ghost view = { λ s. map (λ code. code.numbers.items) s.values.keys };
}

impl Codes {
    /// None.
    pub fn new(alloc: Global) -> Self
        ensures { result ≡ [] }
    {
        Codes {
            values: IndexSet::new(alloc),
        }
    }

    /// Adds a code, where it is not there yet: whether it is new.
    pub fn insert(&mut self, code: StateCode) -> Result<bool, AllocError>
        ensures { IfOk result (λ is_new. MatchBool is_new (self.new ≡ self.old ++ code.numbers.items ∷ []) ((self.new ≡ self.old) × IsIn code.numbers.items self.old)) }
    {
        let is_new = self.values.insert(code)?;
        Ok(is_new)
    }
}

/// What a search has met.
#[derive(Drop)]
pub struct Met {
    pub states: States,
    /// The codes of the states' keys.
    pub codes: Codes,
    pub found: Listed<FoundOutcome>,
    pub polled: bool,
}

impl Met {
    /// Nothing.
    pub fn new(alloc: Global) -> Self
        ensures { result ≡ record { states = []; codes = []; found = []; polled = false } }
    {
        Met {
            states: States::new(alloc),
            codes: Codes::new(alloc),
            found: Listed::new(alloc),
            polled: false,
        }
    }

    /// Adds a state, where no state has this code yet.
    pub fn add_state(&mut self, code: StateCode, turns: Turns) -> Result<(), AllocError>
        ensures { OnOk result (IsStateAdded self.old self.new code.numbers.items turns) }
    {
        let is_new = self.codes.insert(code)?;
        if is_new {
            self.states.push(turns)?;
        }
        Ok(())
    }

    /// Adds an outcome, where it is not listed yet.
    pub fn add_found(&mut self, found: FoundOutcome) -> Result<(), AllocError>
        ensures { OnOk result (IsFoundAdded self.old self.new found) }
    {
        if !is_listed(self.found.as_slice(), &found) {
            self.found.push(found)?;
        }
        Ok(())
    }
}

/// Whether this outcome is listed.
fn is_listed(listed: &[FoundOutcome], found: &FoundOutcome) -> bool
    ensures { MatchBool result (IsListed listed.now found.now.outcome) (IsListed listed.now found.now.outcome → ⊥) }
{
    let mut rest = listed;
    while let [other, after @ ..] = rest {
        if is_same(other, found) {
            return true;
        }
        rest = after;
    }
    false
}

/// Whether two come to the same.
fn is_same(one: &FoundOutcome, other: &FoundOutcome) -> bool
    ensures { MatchBool result (one.now.outcome ≡ other.now.outcome) (one.now.outcome ≡ other.now.outcome → ⊥) }
{
    one.outcome.ending() == other.outcome.ending()
        && is_same_printed(one.outcome.printed(), other.outcome.printed())
}

/// Whether the same ranks printed the same.
fn is_same_printed(one: &[(u8, Bytes)], other: &[(u8, Bytes)]) -> bool
    ensures { MatchBool result (one.now ≡ other.now) (one.now ≡ other.now → ⊥) }
{
    one == other
}
