//! The communicators by number.
ghost use Rattle.std.specs.Prelude.{◌≡◌, ◌<◌, ◌≤◌, [], length, IfOk, IsNone, OnErr, OnOk};
ghost use Rattle.std.specs.Option.{option_copied};
ghost use Rattle.std.specs.List.{slice_index_or};
ghost use Rattle.mpi_call.specs.Members.{place_of};
ghost use Rattle.comms.specs.declared.communicators.TheConstants.{MOST_COMMUNICATORS};
ghost use Rattle.comms.specs.Communicators.{given_in, members_of, number_given_to, world_alone, old_members, AreColoursOf, HaveFewMembers, IsDup, MakesByColour, Makes};

use crate::colours::{colours_of, numbers_for};
use crate::groups::members_by_colour;
use crate::numbers::Numbers;
use mpi_call::call::Comm;
use mpi_call::lists::{Inputs, Ranks};
use mpi_call::members::place_of;
use run_model::lists::all_ranks;
use std::alloc::{AllocError, Global};
use std::collections::BTreeMap;
use std::marker::Model;

/// The most communicators before a Split or Dup, so that those that it makes have numbers of 32 bits.
pub const MOST_COMMUNICATORS: usize = 4_000_000_000;

/// The communicators that were made, and what each Split and Dup gave to each member.
#[derive(Drop)]
pub struct Comms {
    members: Vec<Ranks>,
    given: BTreeMap<(Comm, u32), Numbers>,
    alloc: Global,
}

impl Model for Comms {
    ghost use Rattle.comms.specs.Communicators.{HaveFewMembers, Communicators};

    ghost Value = { Communicators };

    ghost view = { λ s. record { members = s.members.items; given = s.given.entries } };

    ghost invariant = { λ s. HaveFewMembers s.members.items };
}

impl Comms {
    /// The world of `ranks` ranks alone.
    pub fn new(alloc: Global, ranks: u8) -> Result<Self, AllocError>
        ensures { IfOk result (λ comms. comms ≡ world_alone ranks) }
    {
        let mut members = Vec::new(alloc);
        members.push(all_ranks(alloc, ranks)?)?;
        Ok(Comms {
            members,
            given: BTreeMap::new(alloc),
            alloc,
        })
    }

    /// How many communicators were made, the world among them. Takes no memory.
    pub fn count(&self) -> usize
        ensures { result ≡ length self.now.members }
    {
        self.members.len()
    }

    /// A communicator's members in order, where it was made. Takes no memory.
    pub fn members(&self, comm: Comm) -> Option<&Ranks>
        ensures { option_copied result ≡ members_of self.now comm }
    {
        self.members.get(comm as usize)
    }

    /// Gives the next numbers, rising with the colours, to the communicators of a Split; `inputs` has a colour and a key for
    /// each member in order.
    pub fn split(&mut self, comm: Comm, instance: u32, inputs: &Inputs) -> Result<(), AllocError>
        requires made { comm < length self.old.members }
        requires count { length self.old.members ≤ MOST_COMMUNICATORS }
        requires first { IsNone (given_in self.old.given comm instance) }
        requires inputs { AreColoursOf (old_members self.old comm) inputs.now }
        ensures ok { OnOk result (MakesByColour self.old self.new comm instance inputs.now) }
        ensures err { OnErr result (self.new ≡ self.old) }
    {
        let first = self.members.len() as u32;
        let members = &self.members[comm as usize];
        let colours = colours_of(self.alloc, inputs.as_slice())?;
        let numbers = numbers_for(self.alloc, &colours, first, inputs.as_slice())?;
        let made = members_by_colour(self.alloc, &colours, members.as_slice(), inputs.as_slice())?;
        self.add(comm, instance, made, numbers)
    }

    /// Gives the next number to the communicator of a Dup.
    pub fn dup(&mut self, comm: Comm, instance: u32) -> Result<(), AllocError>
        requires made { comm < length self.old.members }
        requires count { length self.old.members ≤ MOST_COMMUNICATORS }
        requires first { IsNone (given_in self.old.given comm instance) }
        ensures ok { OnOk result (IsDup self.old self.new comm instance) }
        ensures err { OnErr result (self.new ≡ self.old) }
    {
        let number = self.members.len() as u32;
        let members = self.members[comm as usize].as_slice();
        let numbers = Numbers::same(self.alloc, number, members.len())?;
        let mut made = Vec::new(self.alloc);
        made.push(Ranks::from_slice(self.alloc, members)?)?;
        self.add(comm, instance, made, numbers)
    }

    /// The communicator that an instance gave to a rank, 0 for none, where `split` or `dup` was called for it. Takes no
    /// memory.
    pub fn made(&self, comm: Comm, instance: u32, me: u8) -> Option<Comm>
        ensures { result ≡ number_given_to self.now comm instance me }
    {
        let place = place_in(&self.members, comm, me);
        match self.given.get(&(comm, instance)) {
            Some(numbers) => Some(numbers.at(place)),
            None => None,
        }
    }

    /// Adds new communicators, and what an instance gave.
    fn add(
        &mut self,
        comm: Comm,
        instance: u32,
        mut made: Vec<Ranks>,
        numbers: Numbers,
    ) -> Result<(), AllocError>
        requires small { HaveFewMembers made.items }
        ensures ok { OnOk result (Makes self.old self.new comm instance made.items numbers) }
        ensures err { OnErr result (self.new ≡ self.old) }
    {
        let before = self.members.len();
        self.members.append(&mut made)?;
        match self.given.insert((comm, instance), numbers) {
            Ok(_) => Ok(()),
            Err(_) => {
                self.members.truncate(before);
                Err(AllocError)
            }
        }
    }
}

/// A rank's place in a communicator.
fn place_in(members: &[Ranks], comm: Comm, rank: u8) -> usize
    ensures { result ≡ place_of (slice_index_or members.now comm []) rank }
{
    match members.get(comm as usize) {
        Some(ranks) => place_of(ranks.as_slice(), rank),
        None => 0,
    }
}
