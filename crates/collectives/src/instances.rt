//! The instances of one communicator's collectives.
ghost use Rattle.std.specs.Prelude.{◌≡◌, ◌-◌, ◌<◌, ◌≤◌, [], ℕ, length, map, IfOk, IsOk, IsTrue, None, OnErr, OnOk, slice_index, vec_len};
ghost use Rattle.mpi_call.specs.Calls.{is_enter};
ghost use Rattle.collectives.specs.Entrants.{first_against, has_entered, ints_by, AllAgree};
ghost use Rattle.collectives.specs.Instances.{instance_answer, enters_by, instance_enters, AreOrderly, Gains, IsInstancesAfter, Loses};
ghost use Rattle.collectives.specs.declared.instances.Entered.TheVariants.{Disagrees};

use crate::entrants::{Entrant, Entrants};
use mpi_call::call::{self, Call};
use mpi_call::lists::Inputs;
use std::alloc::{AllocError, Global};
use std::marker::Model;

/// The answer to an Enter.
#[derive(Clone, Copy, Debug, PartialEq, Eq)]
pub enum Entered {
    /// It is in this instance of its communicator.
    Joined { instance: u32 },
    /// An earlier Enter of the instance, by this rank, does not agree; nothing has changed.
    Disagrees { other: u8 },
}

/// One communicator's instances in order, each with its Enters in the order made; contracts see a list of lists.
#[derive(Drop)]
pub struct Instances {
    lists: Vec<Entrants>,
    /// How many each rank has entered; a rank past the end has entered none.
    counts: Vec<u32>,
}

impl Model for Instances {
    ghost use Rattle.std.specs.Prelude.{List};
    ghost use Rattle.collectives.specs.Instances.{AreInstancesKept};
    ghost use Rattle.collectives.specs.declared.entrants.Entrant.{Entrant};

    ghost Value = { List (List Entrant) };

    ghost view = { λ s. s.lists.items };

    ghost invariant = { λ s. AreInstancesKept s.lists.items s.counts.items };
}

impl Instances {
    /// No instances.
    pub fn new(alloc: Global) -> Self
        ensures { result ≡ [] }
    {
        Instances {
            lists: Vec::new(alloc),
            counts: Vec::new(alloc),
        }
    }

    /// How many Enters a rank has made: the instance of its next one. Takes no memory.
    pub fn enters_by(&self, rank: u8) -> u32
        ensures value { result ≡ enters_by self.now rank }
        ensures orderly { AreOrderly self.now rank }
    {
        count_of(&self.counts, rank)
    }

    /// Whether a rank has entered an instance. Takes no memory.
    pub fn entered(&self, instance: u32, who: u8) -> bool
        ensures { result ≡ has_entered (instance_enters self.now instance) who }
    {
        instance < count_of(&self.counts, who)
    }

    /// What each of these members entered in an instance, nothing where it has not.
    pub fn inputs(&self, alloc: Global, instance: u32, members: &[u8]) -> Result<Inputs, AllocError>
        ensures { IfOk result (λ inputs. inputs ≡ map (ints_by (instance_enters self.now instance)) members.now) }
    {
        match self.lists.get(instance as usize) {
            Some(entrants) => entrants.inputs(alloc, members),
            None => Entrants::new(alloc).inputs(alloc, members),
        }
    }

    /// Adds an Enter of a rank to that rank's next instance, or answers the earliest rank whose Enter there does not agree.
    pub fn enter(&mut self, alloc: Global, rank: u8, call: &Call) -> Result<Entered, AllocError>
        requires call { IsTrue (is_enter call.now) }
        ensures answer { IfOk result (λ entered. entered ≡ instance_answer self.old rank call.now) }

        // An Enter that disagrees takes no memory.
        ensures disagrees { (other : ℕ) → instance_answer self.old rank call.now ≡ Disagrees other → IsOk result }
        ensures after { IfOk result (λ entered. IsInstancesAfter self.old self.new rank call.now entered) }
        ensures err { OnErr result (self.new ≡ self.old) }
    {
        match first_against(&self.lists, self.enters_by(rank), call) {
            Some(other) => Ok(Entered::Disagrees { other }),
            None => {
                let instance = self.join(alloc, rank, call)?;
                Ok(Entered::Joined { instance })
            }
        }
    }

    /// Adds an Enter of a rank, which agrees with those before, to that rank's next instance, and answers the instance.
    fn join(&mut self, alloc: Global, rank: u8, call: &Call) -> Result<u32, AllocError>
        requires call { IsTrue (is_enter call.now) }
        requires agrees { first_against (instance_enters self.old (enters_by self.old rank)) call.now ≡ None }
        ensures instance { IfOk result (λ instance. instance ≡ enters_by self.old rank) }
        ensures gains { OnOk result (Gains self.old self.new (enters_by self.old rank) (record { rank = rank; call = call.now })) }
        ensures err { OnErr result (self.new ≡ self.old) }
    {
        let instance = self.enters_by(rank);
        // No memory holds so many Enters.
        if instance == u32::MAX {
            return Err(AllocError);
        }
        let call = call::copy_of(call)?;
        reserve(&mut self.counts, rank)?;
        add(alloc, &mut self.lists, instance, Entrant { rank, call })?;
        self.counts[rank as usize] = instance + 1;
        Ok(instance)
    }

    /// Takes a rank's latest Enter out. Takes no memory.
    pub fn leave(&mut self, rank: u8)
        requires { 0 < enters_by self.old rank }
        ensures { Loses self.old self.new (enters_by self.old rank - 1) rank }
    {
        let last = self.enters_by(rank) - 1;
        self.lists[last as usize].remove(rank);
        self.counts[rank as usize] = last;
    }
}

/// A rank's count.
fn count_of(counts: &[u32], rank: u8) -> u32
    ensures { result ≡ slice_index counts.now rank }
{
    match counts.get(rank as usize) {
        Some(count) => *count,
        None => 0,
    }
}

/// The earliest rank in an instance whose Enter does not agree with this one.
fn first_against(lists: &[Entrants], instance: u32, call: &Call) -> Option<u8>
    requires all { AllAgree (instance_enters lists.now instance) }
    requires call { IsTrue (is_enter call.now) }
    ensures { result ≡ first_against (instance_enters lists.now instance) call.now }
{
    match lists.get(instance as usize) {
        Some(entrants) => entrants.first_against(call),
        None => None,
    }
}

/// Makes a place for a rank's count, which changes no count.
fn reserve(counts: &mut Vec<u32>, rank: u8) -> Result<(), AllocError>
    ensures same { (other : ℕ) → slice_index counts.new.items other ≡ slice_index counts.old.items other }
    ensures ok { OnOk result (rank < vec_len counts.new) }
{
    while counts.len() <= rank as usize {
        counts.push(0)?;
    }
    Ok(())
}

/// Adds an Enter to an instance.
fn add(
    alloc: Global,
    lists: &mut Vec<Entrants>,
    instance: u32,
    entrant: Entrant,
) -> Result<(), AllocError>
    requires { instance ≤ length lists.old.items }
    ensures ok { OnOk result (Gains lists.old.items lists.new.items instance entrant) }
    ensures err { OnErr result (lists.new.items ≡ lists.old.items) }
{
    if (instance as usize) < lists.len() {
        lists[instance as usize].push(entrant)?;
        return Ok(());
    }
    let mut entrants = Entrants::new(alloc);
    entrants.push(entrant)?;
    lists.push(entrants)?;
    Ok(())
}
