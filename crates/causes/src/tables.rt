//! The tables that stand beside the events.
ghost use Rattle.std.specs.Prelude.{◌≡◌, ◌<◌, ◌++◌, ◌∷◌, [], List, IfOk, OnOk, length, option_to_list};
ghost use Rattle.run_model.specs.declared.event.Event.{Event as EventSpec};
ghost use Rattle.run_model.specs.Communicators.{members_for_rank};
ghost use Rattle.run_model.specs.Views.{view_of};
ghost use Rattle.causes.specs.Beside.{AreTables};
ghost use Rattle.causes.specs.Positions.{enter_instance_at, enter_position, mates_of, start_position};

use crate::key::{Key, enters_key, starts_key};
use crate::known::KnownMembers;
use crate::pair_table::PairTable;
use crate::places::count_below;
use crate::position_table::PositionTable;
use mpi_call::call::Comm;
use mpi_call::lists::Ranks;
use run_model::event::Event;
use run_model::lists::all_ranks;
use std::alloc::{AllocError, Global};

/// What is looked up in the events so far.
#[derive(Drop)]
pub struct Tables {
    pub ranks: u8,
    /// Positions of events by keys.
    pub places: PositionTable<Key>,
    /// The pairs of starts.
    pub pairs: PairTable,
    /// The communicators that each rank knows by its replies.
    pub known: KnownMembers,
    /// All ranks.
    pub world: Ranks,
    /// The members of a communicator that a rank doesn't know.
    pub nobody: Ranks,
}

impl Tables {
    /// No events of so many ranks.
    pub fn new(alloc: Global, ranks: u8) -> Result<Self, AllocError>
        ensures tables { IfOk result (λ tables. AreTables [] tables) }
        ensures ranks { IfOk result (λ tables. tables.ranks ≡ ranks) }
    {
        Ok(Tables {
            ranks,
            places: PositionTable::new(alloc),
            pairs: PairTable::new(alloc),
            known: KnownMembers::new(alloc),
            world: all_ranks(alloc, ranks)?,
            nobody: Ranks::new(alloc),
        })
    }

    /// Notes the event that comes next, at this position.
    pub fn note(&mut self, at: u32, event: &Event) -> Result<(), AllocError>
        ensures tables { OnOk result ((before : List EventSpec) → at ≡ length before → AreTables before self.old → AreTables (before ++ event.now ∷ []) self.new) }
        ensures ranks { self.new.ranks ≡ self.old.ranks }
    {
        let number = self.places.next_start(event.rank, at);
        self.pairs.note(number, event)?;
        self.places.note(at, event)?;
        self.known.note(event)
    }

    /// The position of a rank's start with this number.
    pub fn start(&self, rank: u8, number: u32) -> Option<u32>
        ensures { (before : List EventSpec) → AreTables before self.now → result ≡ start_position before rank number }
    {
        let starts = self.places.get(&starts_key(rank));
        starts.get(number as usize).copied()
    }

    /// The position of a rank's Enter of an instance.
    pub fn enter(&self, rank: u8, comm: Comm, instance: usize) -> Option<u32>
        ensures { (before : List EventSpec) → AreTables before self.now → result ≡ enter_position before rank comm instance }
    {
        let enters = self.places.get(&enters_key(rank, comm));
        enters.get(instance).copied()
    }

    /// The instance of a rank's Enter at a position.
    pub fn instance(&self, before: &[Event], rank: u8, comm: Comm, at: u32) -> usize
        requires { AreTables before.now self.now }
        ensures { result ≡ enter_instance_at before.now rank comm at }
    {
        count_below(self.places.get(&enters_key(rank, comm)), at)
    }

    /// The position of the other start of the pair that the start at a position is in.
    pub fn partner(&self, at: u32) -> Option<u32>
        ensures { (before : List EventSpec) → AreTables before self.now → option_to_list result ≡ mates_of before at }
    {
        match self.pairs.partner(at) {
            Some((rank, number)) => self.start(rank, number),
            None => None,
        }
    }

    /// The members of a communicator for a rank; none where it doesn't know it.
    pub fn members(&self, rank: u8, comm: Comm) -> &Ranks
        ensures { (before : List EventSpec) → AreTables before self.now → result.now ≡ members_for_rank self.now.ranks (view_of before rank) comm }
    {
        if comm == 0 {
            return &self.world;
        }
        match self.known.get(rank, comm) {
            Some(members) => members,
            None => &self.nobody,
        }
    }
}
