//! The completions of receives.
ghost use Rattle.std.specs.Map.{lookup};
ghost use Rattle.std.specs.Prelude.{◌≡◌, ◌<◌, ◌^◌, ◌+◌, ◌++◌, ◌∷◌, [], OnOk, length};
ghost use Rattle.msg_races.specs.declared.names.Name.{Name as NameSpec};
ghost use Rattle.msg_races.specs.inside.Completions.{AreCompletions, completion_after_got, completion_after_items, completion_after_reply};
ghost use Rattle.msg_races.specs.Names.{same_start};

use crate::names::Name;
use indexmap::IndexMap;
use mpi_call::call::Call;
use mpi_call::reply::{Got, Item, Reply};
use run_model::event::Event;
use std::alloc::{AllocError, Global};
use std::marker::Model;

/// The completion of a receive: the position of its event, and the Send that was taken.
#[derive(Clone, Copy)]
pub struct ReceiveCompletion {
    pub at: u32,
    pub took: Name,
}

/// The completions of receives, by the names of the receives.
#[derive(Drop)]
pub struct Completions {
    values: IndexMap<Name, ReceiveCompletion>,
}

impl Model for Completions {
    ghost use Rattle.std.specs.Prelude.{List};
    ghost use Rattle.msg_races.specs.declared.completions.ReceiveCompletion.{ReceiveCompletion};
    ghost use Rattle.msg_races.specs.declared.names.Name.{Name};

    ghost Value = { List (Name × ReceiveCompletion) };

    ghost view = { λ s. s.values.entries };
}

impl Completions {
    /// No completions.
    pub fn new(alloc: Global) -> Self
        ensures { result ≡ [] }
    {
        Completions {
            values: IndexMap::new(alloc),
        }
    }

    /// The completion of a receive.
    pub fn get(&self, name: &Name) -> Option<ReceiveCompletion>
        ensures { result ≡ lookup (same_start name.now) self.now }
    {
        self.values.get(name).copied()
    }

    /// Adds what a rank's start gave, at a position.
    fn add_got(&mut self, at: u32, rank: u8, start: u32, got: &Got) -> Result<(), AllocError>
        ensures { OnOk result ((name : NameSpec) → lookup (same_start name) self.new ≡ completion_after_got name at rank start got.now (lookup (same_start name) self.old)) }
    {
        let Got::Message {
            source,
            start: sent,
            ..
        } = got
        else {
            return Ok(());
        };
        let took = Name {
            rank: *source,
            start: *sent,
        };
        self.values
            .insert(Name { rank, start }, ReceiveCompletion { at, took })?;
        Ok(())
    }

    /// Adds what a rank's starts gave, at a position. An index past the list reads 0.
    fn add_items(
        &mut self,
        at: u32,
        rank: u8,
        starts: &[u32],
        items: &[Item],
    ) -> Result<(), AllocError>
        ensures { OnOk result ((name : NameSpec) → lookup (same_start name) self.new ≡ completion_after_items name at rank starts.now items.now (lookup (same_start name) self.old)) }
    {
        let mut rest = items;
        while let [item, after @ ..] = rest {
            let start = starts.get(item.index as usize).copied().unwrap_or(0);
            self.add_got(at, rank, start, &item.got)?;
            rest = after;
        }
        Ok(())
    }

    /// Adds what a reply gave, at a position.
    fn add_reply(&mut self, at: u32, event: &Event) -> Result<(), AllocError>
        ensures { OnOk result ((name : NameSpec) → lookup (same_start name) self.new ≡ completion_after_reply name at event.now.rank event.now.call event.now.reply (lookup (same_start name) self.old)) }
    {
        match &event.reply {
            Reply::Took(items) => match &event.call {
                Call::Take { starts, .. } => self.add_items(
                    at,
                    event.rank,
                    starts.as_slice(),
                    items.as_slice(),
                ),
                _ => self.add_items(at, event.rank, &[], items.as_slice()),
            },
            _ => Ok(()),
        }
    }

    /// Adds the completions of the event that comes next.
    pub fn note(&mut self, before: &[Event], event: &Event) -> Result<(), AllocError>
        requires completions { AreCompletions before.now self.old }
        requires short { length before.now + 1 < 2 ^ 32 }
        ensures { OnOk result (AreCompletions (before.now ++ event.now ∷ []) self.new) }
    {
        self.add_reply(before.len() as u32, event)
    }
}
