//! The Enters of each rank.
ghost use Rattle.std.specs.List.Sorted.{IsNonDecreasingBy};
ghost use Rattle.std.specs.Prelude.{◌≡◌, ◌<◌, ℕ, ◌++◌, ◌∷◌, [], IfOk, OnErr, OnOk, length, replicate};
ghost use Rattle.mpi_call.specs.Lists.{count_below};
ghost use Rattle.view_tables.specs.EnterTable.{HaveSameNumbers, HaveSameFor, IsNumberAdded, IsNotedFor, table_numbers, numbers_on};

use indexmap::IndexMap;
use mpi_call::call::Comm;
use mpi_call::lists::Starts;
use std::alloc::{AllocError, Global};
use std::marker::Model;

/// The start numbers of one rank's Enters, in order, by communicator.
#[derive(Drop)]
pub struct Enters {
    alloc: Global,
    numbers: IndexMap<u32, Starts>,
}

impl Model for Enters {
    ghost use Rattle.std.specs.Prelude.{List, ℕ};

    ghost Value = { List (ℕ × List ℕ) };

    ghost view = { λ s. s.numbers.entries };
}

impl Enters {
    /// No Enters.
    fn new(alloc: Global) -> Self
        ensures { result ≡ [] }
    {
        Enters {
            alloc,
            numbers: IndexMap::new(alloc),
        }
    }

    fn get(&self, comm: Comm) -> &[u32]
        ensures { result.now ≡ numbers_on self.now comm }
    {
        match self.numbers.get(&comm) {
            Some(numbers) => numbers.as_slice(),
            None => &[],
        }
    }

    fn note(&mut self, comm: Comm, number: u32) -> Result<(), AllocError>
        ensures ok { OnOk result (IsNumberAdded self.old self.new comm number) }
        ensures err { OnErr result (HaveSameNumbers self.old self.new) }
    {
        if let Some(numbers) = self.numbers.get_mut(&comm) {
            return append(numbers, number);
        }
        let mut numbers = Starts::new(self.alloc);
        append(&mut numbers, number)?;
        self.numbers.insert(comm, numbers)?;
        Ok(())
    }
}

fn append(numbers: &mut Starts, number: u32) -> Result<(), AllocError>
    ensures ok { OnOk result (numbers.new ≡ numbers.old ++ number ∷ []) }
    ensures err { OnErr result (numbers.new ≡ numbers.old) }
{
    numbers.push(number)?;
    Ok(())
}

/// How many of these rising numbers are below another.
pub fn count_below(numbers: &[u32], number: u32) -> usize
    requires { IsNonDecreasingBy (λ (other : ℕ). other) numbers.now }
    ensures { result ≡ count_below number numbers.now }
{
    numbers.partition_point(|other| *other < number)
}

/// The Enters of each rank.
#[derive(Drop)]
pub struct EnterTable {
    ranks: Vec<Enters>,
}

impl Model for EnterTable {
    ghost use Rattle.std.specs.Prelude.{List, ℕ};

    ghost Value = { List (List (ℕ × List ℕ)) };

    ghost view = { λ s. s.ranks.items };
}

impl EnterTable {
    /// No Enters of `ranks` ranks.
    pub fn new(alloc: Global, ranks: u8) -> Result<Self, AllocError>
        ensures { IfOk result (λ table. table ≡ replicate ranks []) }
    {
        let mut table = Vec::new(alloc);
        for _ in 0..ranks {
            table.push(Enters::new(alloc))?;
        }
        Ok(EnterTable { ranks: table })
    }

    /// The start numbers of a rank's Enters on a communicator, in order.
    pub fn get(&self, rank: u8, comm: Comm) -> &[u32]
        ensures { result.now ≡ table_numbers self.now rank comm }
    {
        match self.ranks.get(rank as usize) {
            Some(enters) => enters.get(comm),
            None => &[],
        }
    }

    /// Adds an Enter. Out of memory, nothing is added.
    pub fn note(&mut self, rank: u8, comm: Comm, number: u32) -> Result<(), AllocError>
        requires { rank < length self.old }
        ensures ok { OnOk result (IsNotedFor self.old self.new rank comm number) }
        ensures err { OnErr result (HaveSameFor self.old self.new) }
    {
        self.ranks[rank as usize].note(comm, number)
    }
}
