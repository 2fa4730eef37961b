//! The communicators that each rank knows.
ghost use Rattle.std.specs.Map.{lookup};
ghost use Rattle.std.specs.Prelude.{◌≡◌, ◌<◌, [], IfOk, OnErr, OnOk, length, nat_eq, option_map, replicate, slice_index_or, slice_set, take};
ghost use Rattle.view_tables.specs.MemberTable.{members_after, with_all_got, with_got, with_made};

use indexmap::IndexMap;
use mpi_call::call::Comm;
use mpi_call::lists::Ranks;
use mpi_call::reply::{Got, Item, Reply};
use run_model::event::Event;
use std::alloc::{AllocError, Global};
use std::marker::Model;

/// The members of the communicators that one rank's replies made, by number.
#[derive(Drop)]
pub struct Members {
    lists: IndexMap<u32, Ranks>,
}

impl Model for Members {
    ghost use Rattle.std.specs.Prelude.{List, ℕ};

    ghost Value = { List (ℕ × List ℕ) };

    ghost view = { λ s. s.lists.entries };
}

impl Members {
    /// No communicators.
    pub fn new(alloc: Global) -> Self
        ensures { result ≡ [] }
    {
        Members {
            lists: IndexMap::new(alloc),
        }
    }

    /// The members of the communicator with this number.
    pub fn get(&self, comm: Comm) -> Option<&Ranks>
        ensures { option_map (λ members. members.now) result ≡ lookup (nat_eq comm) self.now }
    {
        self.lists.get(&comm)
    }

    /// Keeps the first of them alone.
    fn keep(&mut self, count: usize)
        ensures { self.new ≡ take count self.old }
    {
        self.lists.truncate(count);
    }

    /// Adds what a reply made. Out of memory, nothing has changed.
    pub fn add_reply(&mut self, reply: &Reply) -> Result<(), AllocError>
        ensures ok { OnOk result (self.new ≡ members_after self.old reply.now) }
        ensures err { OnErr result (self.new ≡ self.old) }
    {
        let Reply::Took(items) = reply else {
            return Ok(());
        };
        let count = self.lists.len();
        if let Err(error) = self.add_items(items.as_slice()) {
            self.keep(count);
            return Err(error);
        }
        Ok(())
    }

    /// Adds what these items made. Out of memory, a part may have been added at the end.
    fn add_items(&mut self, items: &[Item]) -> Result<(), AllocError>
        ensures ok { OnOk result (self.new ≡ with_all_got self.old items.now) }
        ensures err { OnErr result (take (length self.old) self.new ≡ self.old) }
    {
        let mut rest = items;
        while let [item, after @ ..] = rest {
            self.add_got(&item.got)?;
            rest = after;
        }
        Ok(())
    }

    /// Adds what a completed start made.
    fn add_got(&mut self, got: &Got) -> Result<(), AllocError>
        ensures ok { OnOk result (self.new ≡ with_got self.old got.now) }
        ensures err { OnErr result (self.new ≡ self.old) }
    {
        match got {
            Got::Made { comm, members } => self.add_made(*comm, members),
            _ => Ok(()),
        }
    }

    /// Adds a communicator, where its number is new.
    fn add_made(&mut self, comm: Comm, members: &Ranks) -> Result<(), AllocError>
        ensures ok { OnOk result (self.new ≡ with_made self.old comm members.now) }
        ensures err { OnErr result (self.new ≡ self.old) }
    {
        if let Some(_) = self.lists.get(&comm) {
            return Ok(());
        }
        let members = copy_of(members)?;
        self.lists.insert(comm, members)?;
        Ok(())
    }
}

fn copy_of(members: &Ranks) -> Result<Ranks, AllocError>
    ensures { IfOk result (λ copied. copied ≡ members.now) }
{
    members.clone()
}

/// The communicators that each rank knows by its replies, which contracts see as a list of lists.
#[derive(Drop)]
pub struct MemberTable {
    ranks: Vec<Members>,
}

impl Model for MemberTable {
    ghost use Rattle.std.specs.Prelude.{List, ℕ};

    ghost Value = { List (List (ℕ × List ℕ)) };

    ghost view = { λ s. s.ranks.items };
}

impl MemberTable {
    /// No communicators of `ranks` ranks.
    pub fn new(alloc: Global, ranks: u8) -> Result<Self, AllocError>
        ensures { IfOk result (λ table. table ≡ replicate ranks []) }
    {
        let mut table = Vec::new(alloc);
        for _ in 0..ranks {
            table.push(Members::new(alloc))?;
        }
        Ok(MemberTable { ranks: table })
    }

    /// The members of the rank's communicator with this number.
    pub fn get(&self, rank: u8, comm: Comm) -> Option<&Ranks>
        ensures { option_map (λ members. members.now) result ≡ lookup (nat_eq comm) (slice_index_or self.now rank []) }
    {
        match self.ranks.get(rank as usize) {
            Some(members) => members.get(comm),
            None => None,
        }
    }

    /// The number of a rank's communicators.
    pub fn count(&self, rank: u8) -> usize
        ensures { result ≡ length (slice_index_or self.now rank []) }
    {
        match self.ranks.get(rank as usize) {
            Some(members) => members.lists.len(),
            None => 0,
        }
    }

    /// Takes a rank's communicators back, but for the first.
    pub fn forget(&mut self, rank: u8, count: usize)
        requires { rank < length self.old }
        ensures { self.new ≡ slice_set self.old rank (take count (slice_index_or self.old rank [])) }
    {
        self.ranks[rank as usize].keep(count);
    }

    /// Notes an event. Out of memory, nothing has changed.
    pub fn note(&mut self, event: &Event) -> Result<(), AllocError>
        requires { event.now.rank < length self.old }
        ensures ok { OnOk result (self.new ≡ slice_set self.old event.now.rank (members_after (slice_index_or self.old event.now.rank []) event.now.reply)) }
        ensures err { OnErr result (self.new ≡ self.old) }
    {
        self.ranks[event.rank as usize].add_reply(&event.reply)
    }
}
