//! The Enters of one instance.
ghost use Rattle.std.specs.Prelude.{◌≡◌, ◌<◌, ◌++◌, ◌∷◌, [], ℕ, map, slice_index, IfErr, IfOk, IsTrue, OnErr, OnOk};
ghost use Rattle.mpi_call.specs.Calls.{ints_of, is_enter};
ghost use Rattle.collectives.specs.Entrants.{first_against, ints_at, ints_by, enter_place, without_rank, AllAgree};

use mpi_call::call::Call;
use mpi_call::lists::{Inputs, Ints};
use mpi_call::needs::agree;
use std::alloc::{AllocError, AllocFailed, Global};
use std::marker::Model;

/// An Enter, and the rank that made it.
#[derive(Drop)]
pub struct Entrant {
    pub rank: u8,
    pub call: Call,
}

/// Enters in the order in which they were made; contracts see a list.
#[derive(Drop)]
pub struct Entrants {
    values: Vec<Entrant>,
}

impl Model for Entrants {
    ghost use Rattle.std.specs.Prelude.{List};
    ghost use Rattle.collectives.specs.declared.entrants.Entrant.{Entrant};

    ghost Value = { List Entrant };

    ghost view = { λ s. s.values.items };
}

impl Entrants {
    /// No Enters.
    pub fn new(alloc: Global) -> Self
        ensures { result ≡ [] }
    {
        Entrants {
            values: Vec::new(alloc),
        }
    }

    /// Adds an Enter at the end. When out of memory, the error gives it back and nothing has changed.
    pub fn push(&mut self, entrant: Entrant) -> Result<(), AllocFailed<Entrant>>
        ensures ok { OnOk result (self.new ≡ self.old ++ entrant ∷ []) }
        ensures err { OnErr result (self.new ≡ self.old) }
        ensures back { IfErr result (λ refused. refused.value ≡ entrant) }
    {
        self.values.push(entrant)
    }

    /// The earliest rank whose Enter does not agree with this one. Takes no memory.
    pub fn first_against(&self, call: &Call) -> Option<u8>
        requires all { AllAgree self.now }
        requires call { IsTrue (is_enter call.now) }
        ensures { result ≡ first_against self.now call.now }
    {
        // All agree, so the first one answers for all.
        match self.values.as_slice() {
            [] => None,
            [first, ..] => {
                if agree(&first.call, call) {
                    None
                } else {
                    Some(first.rank)
                }
            }
        }
    }

    /// What each of these members entered, nothing where it has not.
    pub fn inputs(&self, alloc: Global, members: &[u8]) -> Result<Inputs, AllocError>
        ensures { IfOk result (λ inputs. inputs ≡ map (ints_by self.now) members.now) }
    {
        let entrants = self.values.as_slice();
        let places = places_of(entrants);
        let mut inputs = Inputs::new(alloc);
        for member in members {
            let place = places[*member as usize];
            add_input(alloc, &mut inputs, entrants, place)?;
        }
        Ok(inputs)
    }

    /// Takes a rank's Enter out. Takes no memory.
    pub fn remove(&mut self, rank: u8)
        ensures { self.new ≡ without_rank rank self.old }
    {
        self.values.retain(|entrant| entrant.rank != rank);
    }

    /// The Enters in order.
    pub fn as_slice(&self) -> &[Entrant]
        ensures { result.now ≡ self.now }
    {
        &self.values
    }
}

/// Where each rank's first Enter stands, or the number of Enters where it has none.
fn places_of(entrants: &[Entrant]) -> [usize; 256]
    ensures { (rank : ℕ) → rank < 256 → slice_index result rank ≡ enter_place entrants.now rank }
{
    let mut places = [entrants.len(); 256];
    let mut place = entrants.len();
    while place > 0 {
        place -= 1;
        places[entrants[place].rank as usize] = place;
    }
    places
}

/// Adds the ints of the Enter at a place, and none after the last.
fn add_input(
    alloc: Global,
    inputs: &mut Inputs,
    entrants: &[Entrant],
    place: usize,
) -> Result<(), AllocError>
    ensures { OnOk result (inputs.new ≡ inputs.old ++ ints_at entrants.now place ∷ []) }
{
    let ints = match entrants.get(place) {
        Some(entrant) => ints_of(alloc, &entrant.call)?,
        None => Ints::new(alloc),
    };
    inputs.push(ints)?;
    Ok(())
}

/// A copy of the ints that a call carries.
fn ints_of(alloc: Global, call: &Call) -> Result<Ints, AllocError>
    ensures { IfOk result (λ ints. ints ≡ ints_of call.now) }
{
    match call {
        Call::Send { ints, .. } | Call::Enter { ints, .. } => Ints::from_slice(
            alloc,
            ints.as_slice(),
        ),
        _ => Ok(Ints::new(alloc)),
    }
}
