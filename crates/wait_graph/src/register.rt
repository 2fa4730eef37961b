//! What is kept beside the events of a run.
ghost use Rattle.std.specs.Prelude.{◌≡◌, ◌+◌, ◌<◌, ◌^◌, ◌++◌, ◌∷◌, [], IfOk, OnOk, ℕ, List, is_some, length, option_map, take};
ghost use Rattle.run_model.specs.declared.event.Event.{Event as EventSpec};
ghost use Rattle.run_model.specs.Communicators.{count_on, known_in};
ghost use Rattle.run_model.specs.Pairs.{pairs_of, partner_of};
ghost use Rattle.run_model.specs.Views.{start_at, starts_of, view_of};
ghost use Rattle.wait_graph.specs.Register.{IsRegister, count_one, earlier_in, named_by};
ghost use Rattle.wait_graph.specs.Graph.{is_live};
ghost use Rattle.wait_graph.specs.Opens.{first_open_send, listed_open, open_send, open_send_from, opens_of, opens_to};
ghost use Rattle.wait_graph.specs.Taken.{taken_last};

use crate::message::{Open, Opens, Taken};
use crate::own::RankRecord;
use crate::partners::Partners;
use mpi_call::call::{Call, Comm, Tag};
use mpi_call::lists::Ranks;
use msg_races::names::Name;
use run_model::event::Event;
use run_model::lists::all_ranks;
use run_model::starts::is_start;
use std::alloc::{AllocError, Global};

/// What is kept of each rank, the name of the start at each position, and the starts that are paired.
#[derive(Drop)]
pub struct Register<'a> {
    ranks: Vec<RankRecord<'a>>,
    names: Vec<Option<Name>>,
    partners: Partners,
}

impl<'a> Register<'a> {
    /// No events of n ranks.
    pub(crate) fn new(alloc: Global, n: u8) -> Result<Self, AllocError>
        ensures { IfOk result (IsRegister n []) }
    {
        let mut ranks = Vec::new(alloc);
        for _ in 0..n {
            ranks.push(RankRecord::new(alloc, n)?)?;
        }
        Ok(Register {
            ranks,
            names: Vec::new(alloc),
            partners: Partners::new(alloc),
        })
    }

    /// Notes the next event.
    pub(crate) fn note(&mut self, event: &'a Event) -> Result<(), AllocError>
        requires { (n : ℕ) × (before : List EventSpec) × IsRegister n before self.old × (event.now.rank < n) × (length before + 1 < 2 ^ 32) }
        ensures { OnOk result ((n : ℕ) (before : List EventSpec) → IsRegister n before self.old → event.now.rank < n → IsRegister n (before ++ event.now ∷ []) self.new) }
    {
        let name = Name {
            rank: event.rank,
            start: self.ranks[event.rank as usize].starts,
        };
        let earlier = self.earlier(event.mate);
        self.partners.join_some(earlier, name)?;
        self.partners.join_all(event.met.as_slice())?;
        self.names.push(named(event, name))?;
        self.ranks[event.rank as usize].note(&event.call, &event.reply)?;
        Ok(())
    }

    /// Whether a start is paired.
    pub(crate) fn is_paired(&self, rank: u8, start: u32) -> bool
        ensures { (n : ℕ) (events : List EventSpec) → IsRegister n events self.now → result ≡ is_some (partner_of (pairs_of events) (rank, start)) }
    {
        self.partners.has(Name { rank, start })
    }

    /// A rank's start with this number.
    pub(crate) fn start(&self, rank: u8, number: u32) -> Option<&Call>
        ensures { (n : ℕ) (events : List EventSpec) → IsRegister n events self.now → option_map (λ call. call.now) result ≡ start_at (view_of events rank) number }
    {
        match self.ranks.get(rank as usize) {
            Some(own) => own.known.start(number),
            None => None,
        }
    }

    /// The members of a communicator for a rank, where it knows it.
    pub(crate) fn members(&self, rank: u8, comm: Comm) -> Option<&Ranks>
        requires { rank < length self.now.ranks.items }
        ensures { (n : ℕ) (events : List EventSpec) → IsRegister n events self.now → option_map (λ members. members.now) result ≡ known_in n (view_of events rank) comm }
    {
        self.ranks[rank as usize].known.members(comm)
    }

    /// Whether a rank is one of the run and has not ended.
    pub fn is_live(&self, rank: u8) -> bool
        ensures { (n : ℕ) (events : List EventSpec) → IsRegister n events self.now → result ≡ is_live n events rank }
    {
        match self.ranks.get(rank as usize) {
            Some(own) => !own.has_ended,
            None => false,
        }
    }

    /// The message of a sender on a communicator, with a tag, that a rank took last.
    pub fn taken_last(&self, rank: u8, comm: Comm, tag: &Tag, sender: u8) -> Option<Taken>
        ensures { (n : ℕ) (events : List EventSpec) → IsRegister n events self.now → result ≡ taken_last (view_of events rank) comm tag.now sender }
    {
        match self.ranks.get(rank as usize) {
            Some(own) => own.taken.get(comm, tag, sender),
            None => None,
        }
    }

    /// Of each of so many ranks its first Send to a rank that nobody has received.
    pub fn opens_to(&self, alloc: Global, n: u8, receiver: u8) -> Result<Opens, AllocError>
        ensures { IfOk result (λ opens. (events : List EventSpec) → IsRegister n events self.now → opens ≡ opens_to n events receiver) }
    {
        let senders = all_ranks(alloc, n)?;
        self.opens_of(alloc, senders.as_slice(), receiver)
    }

    fn opens_of(&self, alloc: Global, senders: &[u8], receiver: u8) -> Result<Opens, AllocError>
        ensures { IfOk result (λ opens. (n : ℕ) (events : List EventSpec) → IsRegister n events self.now → opens ≡ opens_of events senders.now receiver) }
    {
        let mut opens = Opens::new(alloc);
        let mut rest = senders;
        while let [sender, after @ ..] = rest {
            push_open(&mut opens, self.first_open(*sender, receiver))?;
            rest = after;
        }
        Ok(opens)
    }

    /// The first Send of a rank to another that nobody has received.
    pub(crate) fn first_open(&self, sender: u8, receiver: u8) -> Option<Open>
        ensures { (n : ℕ) (events : List EventSpec) → IsRegister n events self.now → result ≡ first_open_send events sender receiver }
    {
        match self.ranks.get(sender as usize) {
            Some(own) => self.first_open_below(sender, receiver, own.starts),
            None => None,
        }
    }

    /// The same, of the rank's starts below a number.
    fn first_open_below(&self, sender: u8, receiver: u8, below: u32) -> Option<Open>
        ensures { (n : ℕ) (events : List EventSpec) → IsRegister n events self.now → result ≡ open_send_from events sender receiver 0 (take below (starts_of (view_of events sender))) }
    {
        let mut start = 0;
        while start < below {
            let Some(call) = self.start(sender, start) else {
                return None;
            };
            let found = self.open_here(sender, receiver, start, call);
            if found.is_some() {
                return found;
            }
            start += 1;
        }
        None
    }

    /// A start of a rank, with this number and call, where it is a Send to another rank that nobody has received.
    fn open_here(&self, sender: u8, receiver: u8, start: u32, call: &Call) -> Option<Open>
        ensures { (n : ℕ) (events : List EventSpec) → IsRegister n events self.now → result ≡ open_send (is_some (partner_of (pairs_of events) (sender, start))) receiver (record { rank = sender; start = start }) call.now }
    {
        let name = Name {
            rank: sender,
            start,
        };
        open_at(self.is_paired(sender, start), receiver, name, call)
    }

    /// How many calls a rank has made.
    pub(crate) fn calls(&self, rank: u8) -> u32
        requires { rank < length self.now.ranks.items }
        ensures { (n : ℕ) (events : List EventSpec) → IsRegister n events self.now → result ≡ length (view_of events rank) }
    {
        self.ranks[rank as usize].calls
    }

    /// How many of a rank's starts below a number are Enters on a communicator.
    pub(crate) fn count_enters(&self, rank: u8, comm: Comm, below: u32) -> u32
        ensures { (n : ℕ) (events : List EventSpec) → IsRegister n events self.now → result ≡ count_on comm (take below (starts_of (view_of events rank))) }
    {
        let mut count = 0;
        let mut number = 0;
        while number < below {
            let Some(call) = self.start(rank, number) else {
                return count;
            };
            count += count_one(comm, call);
            number += 1;
        }
        count
    }

    /// How many of a rank's starts are Enters on a communicator.
    pub(crate) fn count_all_enters(&self, rank: u8, comm: Comm) -> u32
        ensures { (n : ℕ) (events : List EventSpec) → IsRegister n events self.now → result ≡ count_on comm (starts_of (view_of events rank)) }
    {
        match self.ranks.get(rank as usize) {
            Some(own) => self.count_enters(rank, comm, own.starts),
            None => 0,
        }
    }

    /// The name of the start at a mate's position.
    fn earlier(&self, mate: Option<u32>) -> Option<Name>
        ensures { result ≡ earlier_in self.now.names.items mate }
    {
        let at = mate?;
        match self.names.get(at as usize) {
            Some(name) => *name,
            None => None,
        }
    }
}

/// The name, where the event is a start.
fn named(event: &Event, name: Name) -> Option<Name>
    ensures { result ≡ named_by event.now name }
{
    if is_start(&event.call, &event.reply) {
        Some(name)
    } else {
        None
    }
}

/// A start with this name and call, where it is a Send to a rank and is not paired.
fn open_at(is_paired: bool, receiver: u8, name: Name, call: &Call) -> Option<Open>
    ensures { result ≡ open_send is_paired receiver name call.now }
{
    match call {
        Call::Send {
            comm,
            dest,
            tag,
            ..
        } if *dest == receiver && !is_paired => Some(Open {
            name,
            comm: *comm,
            tag: *tag,
        }),
        _ => None,
    }
}

fn push_open(opens: &mut Opens, found: Option<Open>) -> Result<(), AllocError>
    ensures { OnOk result (opens.new ≡ opens.old ++ listed_open found) }
{
    if let Some(open) = found {
        opens.push(open)?;
    }
    Ok(())
}

/// 1 for an Enter on the communicator.
fn count_one(comm: Comm, call: &Call) -> u32
    ensures { result ≡ count_one comm call.now }
{
    match call {
        Call::Enter { comm: other, .. } => { if *other == comm { 1 } else { 0 } }
        _ => 0,
    }
}
