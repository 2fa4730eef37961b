//! The collectives of all communicators.
ghost use Rattle.std.specs.Prelude.{◌≡◌, ◌-◌, ◌<◌, [], ℕ, map, IfOk, IsOk, IsTrue, OnErr};
ghost use Rattle.mpi_call.specs.Calls.{comm_of, is_enter};
ghost use Rattle.collectives.specs.Boards.{board_answer, enters_of, enters_made, IsBoardAfter, IsOrderly, IsTrimmed, LosesEnter};
ghost use Rattle.collectives.specs.Entrants.{has_entered, ints_by};
ghost use Rattle.collectives.specs.Instances.{enters_by, instance_enters};
ghost use Rattle.collectives.specs.declared.instances.Entered.TheVariants.{Disagrees};

use crate::instance_table::InstanceTable;
use crate::instances::{Entered, Instances};
use mpi_call::call::{Call, Comm};
use mpi_call::lists::{Inputs, Ranks};
use std::alloc::{AllocError, Global};
use std::marker::Model;

/// Who has entered which collective; contracts see each communicator's instances, with their Enters in the order made, without
/// empty ones at the end.
#[derive(Drop)]
pub struct Board {
    table: InstanceTable,
    /// Those of a communicator that no rank has entered.
    none: Instances,
    alloc: Global,
}

impl Model for Board {
    ghost use Rattle.std.specs.Prelude.{◌≡◌, []};
    ghost use Rattle.collectives.specs.Boards.{Stages, stages_of};
    ghost use Rattle.collectives.specs.InstanceTable.{instance_lists};

    ghost Value = { Stages };

    ghost view = { λ s. stages_of (instance_lists s.table) };

    ghost invariant = { λ s. s.none ≡ [] };
}

impl Board {
    /// No Enters.
    pub fn new(alloc: Global) -> Self
        ensures { result ≡ [] }
    {
        Board {
            table: InstanceTable::new(alloc),
            none: Instances::new(alloc),
            alloc,
        }
    }

    /// Adds an Enter of a rank to its next instance on its communicator, or answers the earliest rank whose Enter there does
    /// not agree.
    pub fn enter(&mut self, rank: u8, call: &Call) -> Result<Entered, AllocError>
        requires call { IsTrue (is_enter call.now) }
        ensures answer { IfOk result (λ entered. entered ≡ board_answer self.old rank call.now) }

        // An Enter that disagrees takes no memory.
        ensures disagrees { (other : ℕ) → board_answer self.old rank call.now ≡ Disagrees other → IsOk result }
        ensures after { IfOk result (λ entered. IsBoardAfter self.old self.new rank call.now entered) }
        ensures err { OnErr result (self.new ≡ self.old) }
    {
        self.table.enter(comm_of(call), rank, call)
    }

    /// The instances of a communicator. Who asks for several ranks looks their communicator up once. Takes no memory.
    pub fn instances_on(&self, comm: Comm) -> &Instances
        ensures enters { (instance : ℕ) → instance_enters result.now instance ≡ enters_of self.now comm instance }
        ensures count { (rank : ℕ) → enters_by result.now rank ≡ enters_made self.now comm rank }
        ensures trimmed { IsTrimmed self.now }
    {
        match self.table.get(comm) {
            Some(instances) => instances,
            None => &self.none,
        }
    }

    /// How many Enters a rank has made on a communicator: the instance of its next one. Takes no memory.
    pub fn enters_on(&self, comm: Comm, rank: u8) -> u32
        ensures value { result ≡ enters_made self.now comm rank }
        ensures orderly { IsOrderly self.now comm rank }
        ensures trimmed { IsTrimmed self.now }
    {
        self.instances_on(comm).enters_by(rank)
    }

    /// Whether a rank has entered an instance. Takes no memory.
    pub fn entered(&self, comm: Comm, instance: u32, who: u8) -> bool
        ensures { result ≡ has_entered (enters_of self.now comm instance) who }
    {
        self.instances_on(comm).entered(instance, who)
    }

    /// What each of these members entered in an instance, nothing where it has not.
    pub fn inputs(&self, comm: Comm, instance: u32, members: &Ranks) -> Result<Inputs, AllocError>
        ensures { IfOk result (λ inputs. inputs ≡ map (ints_by (enters_of self.now comm instance)) members.now) }
    {
        self.instances_on(comm)
            .inputs(self.alloc, instance, members.as_slice())
    }

    /// Takes a rank's latest Enter on a communicator out. Takes no memory.
    pub fn leave(&mut self, rank: u8, comm: Comm)
        requires { 0 < enters_made self.old comm rank }
        ensures loses { LosesEnter self.old self.new comm (enters_made self.old comm rank - 1) rank }
        ensures trimmed { IsTrimmed self.new }
    {
        self.table.leave(rank, comm);
    }
}

/// The communicator of an Enter. Takes no memory.
pub fn comm_of(call: &Call) -> Comm
    ensures { result ≡ comm_of call.now }
{
    match call {
        Call::Enter { comm, .. } => *comm,
        _ => 0,
    }
}
