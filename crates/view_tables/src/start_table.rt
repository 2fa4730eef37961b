//! The starts of each rank.
ghost use Rattle.std.specs.Prelude.{◌≡◌, ◌<◌, ◌-◌, ◌^◌, [], IfOk, OnErr, OnOk, length, replicate, slice_get, slice_index_or, slice_set, take};
ghost use Rattle.mpi_call.specs.Calls.{listed_by};
ghost use Rattle.run_model.specs.Views.{items_taken};
ghost use Rattle.view_tables.specs.StartTable.{starts_after, with_all_taken, with_start_taken};

use mpi_call::call::Call;
use mpi_call::reply::{Item, Reply};
use run_model::event::Event;
use run_model::starts::is_start;
use std::alloc::{AllocError, Global};
use std::marker::Model;

/// The starts that a Take lists; none of another call.
pub fn listed_by(call: &Call) -> &[u32]
    ensures { result.now ≡ listed_by call.now }
{
    match call {
        Call::Take { starts, .. } => starts.as_slice(),
        _ => &[],
    }
}

/// A start: the position of its event, and whether it was taken.
#[derive(Clone, Copy)]
pub struct StartRow {
    pub at: u32,
    pub taken: bool,
}

/// The starts of one rank by number, which contracts see as a list.
#[derive(Drop)]
pub struct RankStarts {
    values: Vec<StartRow>,
}

impl Model for RankStarts {
    ghost use Rattle.std.specs.Prelude.{List};
    ghost use Rattle.view_tables.specs.declared.start_table.StartRow.{StartRow};

    ghost Value = { List StartRow };

    ghost view = { λ s. s.values.items };
}

impl RankStarts {
    /// Marks what an event of the rank took, or adds its start. Out of memory, nothing has changed.
    fn note(&mut self, at: u32, call: &Call, reply: &Reply) -> Result<(), AllocError>
        ensures ok { OnOk result (self.new ≡ starts_after self.old at call.now reply.now) }
        ensures err { OnErr result (self.new ≡ self.old) }
    {
        if is_start(call, reply) {
            self.values.push(StartRow { at, taken: false })?;
            return Ok(());
        }
        if let Reply::Took(items) = reply {
            self.take_all(listed_by(call), items.as_slice());
        }
        Ok(())
    }

    /// Takes the last start back.
    fn forget(&mut self)
        ensures { self.new ≡ take (length self.old - 1) self.old }
    {
        self.values.pop();
    }

    /// Marks the starts that these items completed. An index past the list reads 0.
    fn take_all(&mut self, listed: &[u32], items: &[Item])
        ensures { self.new ≡ with_all_taken self.old (items_taken listed.now items.now) }
    {
        let mut rest = items;
        while let [item, after @ ..] = rest {
            self.take(listed.get(item.index as usize).copied().unwrap_or(0));
            rest = after;
        }
    }

    /// Marks a start, where there is one with this number.
    fn take(&mut self, number: u32)
        ensures { self.new ≡ with_start_taken self.old number }
    {
        if (number as usize) < self.values.len() {
            self.values[number as usize].taken = true;
        }
    }
}

/// The starts of each rank, which contracts see as a list of lists.
#[derive(Drop)]
pub struct StartTable {
    ranks: Vec<RankStarts>,
}

impl Model for StartTable {
    ghost use Rattle.std.specs.Prelude.{List};
    ghost use Rattle.view_tables.specs.declared.start_table.StartRow.{StartRow};

    ghost Value = { List (List StartRow) };

    ghost view = { λ s. s.ranks.items };
}

impl StartTable {
    /// No starts of `ranks` ranks.
    pub fn new(alloc: Global, ranks: u8) -> Result<Self, AllocError>
        ensures { IfOk result (λ table. table ≡ replicate ranks []) }
    {
        let mut table = Vec::new(alloc);
        for _ in 0..ranks {
            let none = RankStarts {
                values: Vec::new(alloc),
            };
            table.push(none)?;
        }
        Ok(StartTable { ranks: table })
    }

    /// The rank's start with this number.
    pub fn get(&self, rank: u8, number: u32) -> Option<StartRow>
        ensures { result ≡ slice_get (slice_index_or self.now rank []) number }
    {
        match self.ranks.get(rank as usize) {
            Some(starts) => starts.values.get(number as usize).copied(),
            None => None,
        }
    }

    /// The number of a rank's starts.
    pub fn count(&self, rank: u8) -> u32
        requires { length (slice_index_or self.now rank []) < 2 ^ 32 }
        ensures { result ≡ length (slice_index_or self.now rank []) }
    {
        match self.ranks.get(rank as usize) {
            Some(starts) => starts.values.len() as u32,
            None => 0,
        }
    }

    /// Takes the rank's last start back.
    pub fn forget(&mut self, rank: u8)
        requires { rank < length self.old }
        ensures { self.new ≡ slice_set self.old rank (take (length (slice_index_or self.old rank []) - 1) (slice_index_or self.old rank [])) }
    {
        self.ranks[rank as usize].forget();
    }

    /// Notes the event at a position. Out of memory, nothing has changed.
    pub fn note(&mut self, at: u32, event: &Event) -> Result<(), AllocError>
        requires { event.now.rank < length self.old }
        ensures ok { OnOk result (self.new ≡ slice_set self.old event.now.rank (starts_after (slice_index_or self.old event.now.rank []) at event.now.call event.now.reply)) }
        ensures err { OnErr result (self.new ≡ self.old) }
    {
        self.ranks[event.rank as usize].note(at, &event.call, &event.reply)
    }
}
