//! The events of a replay, with tables of what each rank has seen in them.
ghost use Rattle.std.specs.Prelude.{◌≡◌, ◌<◌, ◌++◌, ◌∷◌, [], IfOk, IfSome, OnOk, OnErr, true, length, option_map};
ghost use Rattle.mpi_call.specs.Calls.{is_enter};
ghost use Rattle.mpi_call.specs.Collectives.{is_member};
ghost use Rattle.run_model.specs.Communicators.{enter_at, instance_of, known_in, members_for_rank};
ghost use Rattle.run_model.specs.Views.{start_at, taken_of, view_of};
ghost use Rattle.view_tables.specs.EnterTable.{AreEntersKnown};
ghost use Rattle.srr_replay.specs.inside.IndexedHistory.{entered_of};
ghost use Rattle.view_tables.specs.StartTable.{TakesMade};

use crate::note::prepare;
use mpi_call::call::{Call, Comm};
use mpi_call::lists::Ranks;
use rank_counts::RankCounts;
use run_model::event::Event;
use run_model::history::History;
use run_model::lists::all_ranks;
use std::alloc::{AllocError, Global};
use std::marker::Model;
use view_tables::enter_table::{EnterTable, count_below};
use view_tables::member_table::MemberTable;
use view_tables::start_table::StartTable;

/// An Enter of a rank: its start number, and the communicator's members for the rank when it entered.
#[derive(Clone, Copy)]
pub struct Enter<'a> {
    pub number: u32,
    pub call: &'a Call,
    pub members: Option<&'a Ranks>,
}

/// The events so far, with tables in which starts, Enters and members are looked up. Contracts see the number of ranks and the events.
#[derive(Drop)]
pub struct IndexedHistory {
    ranks: u8,
    events: History,
    /// How many calls each rank has made.
    counts: RankCounts,
    /// The starts of each rank.
    starts: StartTable,
    /// The Enters of each rank.
    enters: EnterTable,
    /// The communicators that each rank knows by its replies.
    members: MemberTable,
    /// All ranks.
    world: Ranks,
    /// The members of a communicator that a rank doesn't know.
    nobody: Ranks,
}

impl Model for IndexedHistory {
    ghost use Rattle.std.specs.Prelude.{◌≡◌, []};
    ghost use Rattle.run_model.specs.Lists.{world as all_of};
    ghost use Rattle.srr_replay.specs.Rounds.{AreCallCounts};
    ghost use Rattle.view_tables.specs.EnterTable.{AreEntersKnown, IsEnterTable};
    ghost use Rattle.view_tables.specs.MemberTable.{IsMemberTable};
    ghost use Rattle.srr_replay.specs.inside.IndexedHistory.{EventsSoFar};
    ghost use Rattle.view_tables.specs.StartTable.{IsStartTable};

    ghost Value = { EventsSoFar };

    ghost view = { λ s. record { ranks = s.ranks; events = s.events.events } };

    ghost invariant = { λ s. AreCallCounts s.ranks s.events.events s.counts × IsStartTable s.ranks s.events.events s.starts × (s.world ≡ all_of s.ranks 0) × (s.nobody ≡ []) × IsEnterTable s.ranks s.events.events s.enters × AreEntersKnown s.ranks s.events.events × IsMemberTable s.ranks s.events.events s.members };
}

impl IndexedHistory {
    /// No events of so many ranks.
    pub fn new(alloc: Global, ranks: u8) -> Result<Self, AllocError>
        ensures { IfOk result (λ seen. seen ≡ record { ranks = ranks; events = [] }) }
    {
        let counts = RankCounts::new(alloc, ranks as usize)?;
        let starts = StartTable::new(alloc, ranks)?;
        let enters = EnterTable::new(alloc, ranks)?;
        let members = MemberTable::new(alloc, ranks)?;
        let world = all_ranks(alloc, ranks)?;
        Ok(IndexedHistory {
            ranks,
            events: History::new(alloc),
            counts,
            starts,
            enters,
            members,
            world,
            nobody: Ranks::new(alloc),
        })
    }

    /// The number of ranks.
    pub fn ranks(&self) -> u8
        ensures { result ≡ self.now.ranks }
    {
        self.ranks
    }

    /// The events.
    pub fn events(&self) -> &History
        ensures { result.now.events ≡ self.now.events }
    {
        &self.events
    }

    /// The events, handed out.
    pub fn into_events(self) -> History
        ensures { result.events ≡ self.events }
    {
        self.events
    }

    /// How many calls a rank has made.
    pub fn count(&self, rank: u8) -> u32
        requires { rank < self.now.ranks }
        ensures { result ≡ length (view_of self.now.events rank) }
    {
        self.counts.get(rank)
    }

    /// The rank's start with this number.
    pub fn start(&self, rank: u8, number: u32) -> Option<&Call>
        ensures { option_map (λ found. found.now) result ≡ start_at (view_of self.now.events rank) number }
    {
        match self.starts.get(rank, number) {
            Some(start) => Some(&self.events.get(start.at).call),
            None => None,
        }
    }

    /// Whether the rank's start with this number was taken.
    pub fn is_taken(&self, rank: u8, number: u32) -> bool
        ensures { result ≡ is_member (taken_of (view_of self.now.events rank)) number }
    {
        match self.starts.get(rank, number) {
            Some(start) => start.taken,
            None => false,
        }
    }

    /// The members of a communicator for a rank; none where it doesn't know it.
    pub fn members(&self, rank: u8, comm: Comm) -> &Ranks
        ensures { result.now ≡ members_for_rank self.now.ranks (view_of self.now.events rank) comm }
    {
        match self.known(rank, comm) {
            Some(members) => members,
            None => &self.nobody,
        }
    }

    /// The members of a communicator for a rank that knows it.
    fn known(&self, rank: u8, comm: Comm) -> Option<&Ranks>
        ensures { option_map (λ members. members.now) result ≡ known_in self.now.ranks (view_of self.now.events rank) comm }
    {
        if comm == 0 {
            return Some(&self.world);
        }
        self.members.get(rank, comm)
    }

    /// How many of a rank's starts before this one are Enters on a communicator.
    pub fn instance(&self, rank: u8, number: u32, comm: Comm) -> u32
        ensures { result ≡ instance_of (view_of self.now.events rank) number comm }
    {
        let most = self.events.len() as usize;
        let count = count_below(self.enters.get(rank, comm), number);
        prove!(count <= most);
        count as u32
    }

    /// A rank's Enter of an instance.
    pub fn entered(&self, rank: u8, comm: Comm, instance: u32) -> Option<Enter<'_>>
        ensures enter { IfSome result (λ found. is_enter found.call.now ≡ true) }
        ensures found { option_map entered_of result ≡ enter_at self.now.ranks (view_of self.now.events rank) comm instance }
    {
        let number = *self.enters.get(rank, comm).get(instance as usize)?;
        match self.start(rank, number) {
            Some(call) => Some(Enter {
                number,
                call,
                members: self.known(rank, comm),
            }),
            None => None,
        }
    }

    /// Appends an event. Out of memory, nothing has changed.
    pub fn add(&mut self, event: Event) -> Result<(), AllocError>
        requires rank { event.rank < self.old.ranks }
        requires takes { TakesMade (view_of self.old.events event.rank) event.call event.reply }
        requires known { AreEntersKnown self.old.ranks (self.old.events ++ event ∷ []) }
        ensures ok { OnOk result (self.new ≡ record self.old { events = self.old.events ++ event ∷ [] }) }
        ensures err { OnErr result (self.new ≡ self.old) }
    {
        let rank = event.rank;
        prepare(
            &mut self.starts,
            &mut self.enters,
            &mut self.members,
            self.ranks,
            &mut self.events,
            &event,
        )?;
        self.events.push(event);
        self.counts.rise(rank);
        Ok(())
    }
}
