//! The instances of each communicator, by its number.
ghost use Rattle.std.specs.Map.{lookup};
ghost use Rattle.std.specs.Prelude.{◌≡◌, ◌-◌, ◌<◌, [], ℕ, nat_eq, option_map, IfOk, IsOk, IsTrue, OnErr};
ghost use Rattle.mpi_call.specs.Calls.{is_enter};
ghost use Rattle.collectives.specs.InstanceTable.{instances_in, HaveSameInstances, HaveSameBeside};
ghost use Rattle.collectives.specs.Instances.{instance_answer, enters_by, IsInstancesAfter, Loses};
ghost use Rattle.collectives.specs.declared.instances.Entered.TheVariants.{Disagrees};

use crate::instances::{Entered, Instances};
use indexmap::IndexMap;
use mpi_call::call::{Call, Comm};
use std::alloc::{AllocError, Global};
use std::marker::Model;

/// The instances of each communicator that a rank has entered, by its number.
#[derive(Drop)]
pub struct InstanceTable {
    alloc: Global,
    lists: IndexMap<Comm, Instances>,
}

impl Model for InstanceTable {
    ghost use Rattle.collectives.specs.InstanceTable.{InstancesByCommunicator};

    ghost Value = { InstancesByCommunicator };

    ghost view = { λ s. s.lists.entries };
}

impl InstanceTable {
    /// No instances.
    pub fn new(alloc: Global) -> Self
        ensures { result ≡ [] }
    {
        InstanceTable {
            alloc,
            lists: IndexMap::new(alloc),
        }
    }

    /// The instances of a communicator, None where no rank has entered. Takes no memory.
    pub fn get(&self, comm: Comm) -> Option<&Instances>
        ensures { option_map (λ instances. instances.now) result ≡ lookup (nat_eq comm) self.now }
    {
        self.lists.get(&comm)
    }

    /// Adds an Enter of a rank to its next instance on this communicator, or answers the earliest rank whose Enter there does
    /// not agree.
    pub fn enter(&mut self, comm: Comm, rank: u8, call: &Call) -> Result<Entered, AllocError>
        requires call { IsTrue (is_enter call.now) }
        ensures answer { IfOk result (λ entered. entered ≡ instance_answer (instances_in self.old comm) rank call.now) }

        // An Enter that disagrees takes no memory.
        ensures disagrees { (other : ℕ) → instance_answer (instances_in self.old comm) rank call.now ≡ Disagrees other → IsOk result }
        ensures after { IfOk result (λ entered. IsInstancesAfter (instances_in self.old comm) (instances_in self.new comm) rank call.now entered) }
        ensures others { HaveSameBeside comm self.old self.new }
        ensures err { OnErr result (HaveSameInstances self.old self.new) }
    {
        if let Some(instances) = self.lists.get_mut(&comm) {
            return instances.enter(self.alloc, rank, call);
        }
        let mut instances = Instances::new(self.alloc);
        let entered = instances.enter(self.alloc, rank, call)?;
        self.lists.insert(comm, instances)?;
        Ok(entered)
    }

    /// Takes a rank's latest Enter on a communicator out. Takes no memory.
    pub fn leave(&mut self, rank: u8, comm: Comm)
        requires { 0 < enters_by (instances_in self.old comm) rank }
        ensures loses { Loses (instances_in self.old comm) (instances_in self.new comm) (enters_by (instances_in self.old comm) rank - 1) rank }
        ensures others { HaveSameBeside comm self.old self.new }
    {
        if let Some(instances) = self.lists.get_mut(&comm) {
            instances.leave(rank);
        }
    }
}
