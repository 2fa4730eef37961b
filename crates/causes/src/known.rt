//! The communicators that each rank knows.
ghost use Rattle.std.specs.Map.{lookup};
ghost use Rattle.std.specs.Prelude.{◌≡◌, ◌++◌, ◌∷◌, [], ℕ, List, IfOk, OnOk, option_map};
ghost use Rattle.run_model.specs.declared.event.Event.{Event as EventSpec};
ghost use Rattle.causes.specs.Keys.{enters_key, same_key};
ghost use Rattle.run_model.specs.Communicators.{made_in_got, made_in_items};
ghost use Rattle.mpi_call.specs.declared.reply.Got.TheVariants.{Made};
ghost use Rattle.causes.specs.Tables.{IsKnownTable, Learns};

use crate::key::{Key, enters_key};
use indexmap::IndexMap;
use mpi_call::call::Comm;
use mpi_call::lists::Ranks;
use mpi_call::reply::{Got, Item, Reply};
use run_model::event::Event;
use std::alloc::{AllocError, Global};
use std::marker::Model;

/// The members of the communicators that the ranks' replies made, by rank and number.
#[derive(Drop)]
pub struct KnownMembers {
    lists: IndexMap<Key, Ranks>,
}

impl Model for KnownMembers {
    ghost use Rattle.std.specs.Prelude.{List, ℕ};
    ghost use Rattle.causes.specs.declared.key.Key.{Key};

    ghost Value = { List (Key × List ℕ) };

    ghost view = { λ s. s.lists.entries };
}

impl KnownMembers {
    /// No communicators.
    pub fn new(alloc: Global) -> Self
        ensures { result ≡ [] }
    {
        KnownMembers {
            lists: IndexMap::new(alloc),
        }
    }

    /// The members of a rank's communicator.
    pub fn get(&self, rank: u8, comm: Comm) -> Option<&Ranks>
        ensures { option_map (λ members. members.now) result ≡ lookup (same_key (enters_key rank comm)) self.now }
    {
        self.lists.get(&enters_key(rank, comm))
    }

    /// Adds a communicator, where its number is new to the rank.
    fn add_made(&mut self, rank: u8, comm: Comm, members: &Ranks) -> Result<(), AllocError>
        ensures { OnOk result (Learns rank (λ on. made_in_got on (Made comm members.now)) self.old self.new) }
    {
        if self.get(rank, comm).is_some() {
            return Ok(());
        }
        let members = copy_of(members)?;
        self.lists.insert(enters_key(rank, comm), members)?;
        Ok(())
    }

    /// Adds what a completed start made.
    fn add_got(&mut self, rank: u8, got: &Got) -> Result<(), AllocError>
        ensures { OnOk result (Learns rank (λ comm. made_in_got comm got.now) self.old self.new) }
    {
        match got {
            Got::Made { comm, members } => self.add_made(rank, *comm, members),
            _ => Ok(()),
        }
    }

    /// Adds what these items made.
    fn add_items(&mut self, rank: u8, items: &[Item]) -> Result<(), AllocError>
        ensures { OnOk result (Learns rank (λ comm. made_in_items comm items.now) self.old self.new) }
    {
        let mut rest = items;
        while let [item, after @ ..] = rest {
            self.add_got(rank, &item.got)?;
            rest = after;
        }
        Ok(())
    }

    /// Adds what an event's reply made.
    pub fn note(&mut self, event: &Event) -> Result<(), AllocError>
        ensures { OnOk result ((before : List EventSpec) → IsKnownTable before self.old → IsKnownTable (before ++ event.now ∷ []) self.new) }
    {
        match &event.reply {
            Reply::Took(items) => self.add_items(event.rank, items.as_slice()),
            _ => Ok(()),
        }
    }
}

fn copy_of(members: &Ranks) -> Result<Ranks, AllocError>
    ensures { IfOk result (λ copied. copied ≡ members.now) }
{
    members.clone()
}
