//! The pairs of the events so far.
ghost use Rattle.std.specs.Prelude.{◌≡◌, ◌++◌, ◌∷◌, [], List, None, OnOk, get_or, length};
ghost use Rattle.run_model.specs.declared.event.Event.{Event as EventSpec};
ghost use Rattle.run_model.specs.Pairs.{Name, mated, pairs_of};
ghost use Rattle.run_model.specs.Views.{starts_of, view_of};
ghost use Rattle.causes.specs.PairTables.{AddsOther, AreOthers, IsPairTable};
ghost use Rattle.causes.specs.Positions.{partner_at};

use indexmap::IndexMap;
use run_model::event::{Event, StartName};
use run_model::starts::is_start;
use std::alloc::{AllocError, Global};

/// The starts of the events so far by their positions, and their pairs.
#[derive(Drop)]
pub struct PairTable {
    /// The name of each event that is a start.
    pub names: Vec<Option<StartName>>,
    /// The other start of each paired one.
    pub others: IndexMap<StartName, StartName>,
}

impl PairTable {
    /// No events.
    pub fn new(alloc: Global) -> Self
        ensures { IsPairTable [] result }
    {
        PairTable {
            names: Vec::new(alloc),
            others: IndexMap::new(alloc),
        }
    }

    /// The name of the start at a position.
    fn name(&self, at: u32) -> Option<StartName>
        ensures { result ≡ get_or self.now.names.items at None }
    {
        match self.names.get(at as usize) {
            Some(name) => *name,
            None => None,
        }
    }

    /// The other start of the pair that the start at a position is in.
    pub fn partner(&self, at: u32) -> Option<StartName>
        ensures { (before : List EventSpec) → IsPairTable before self.now → result ≡ partner_at before at }
    {
        match self.name(at) {
            Some(name) => self.others.get(&name).copied(),
            None => None,
        }
    }

    /// Adds the other start of one, where it has none.
    fn add_one(&mut self, one: StartName, other: StartName) -> Result<(), AllocError>
        ensures others { OnOk result (AddsOther one other self.old.others.entries self.new.others.entries) }
        ensures names { self.new.names ≡ self.old.names }
    {
        if self.others.get(&one).is_some() {
            return Ok(());
        }
        self.others.insert(one, other)?;
        Ok(())
    }

    /// Adds a pair.
    fn add_pair(&mut self, pair: (StartName, StartName)) -> Result<(), AllocError>
        ensures others { OnOk result ((pairs : List (Name × Name)) → AreOthers pairs self.old.others.entries → AreOthers (pairs ++ pair ∷ []) self.new.others.entries) }
        ensures names { self.new.names ≡ self.old.names }
    {
        self.add_one(pair.0, pair.1)?;
        self.add_one(pair.1, pair.0)
    }

    /// Adds pairs in order.
    fn add_pairs(&mut self, met: &[(StartName, StartName)]) -> Result<(), AllocError>
        ensures others { OnOk result ((pairs : List (Name × Name)) → AreOthers pairs self.old.others.entries → AreOthers (pairs ++ met.now) self.new.others.entries) }
        ensures names { self.new.names ≡ self.old.names }
    {
        let mut rest = met;
        while let [pair, after @ ..] = rest {
            self.add_pair(*pair)?;
            rest = after;
        }
        Ok(())
    }

    /// Adds the pair of an event with its mate; its own name is given.
    fn add_mate(&mut self, mate: Option<u32>, own: StartName) -> Result<(), AllocError>
        ensures others { OnOk result ((before : List EventSpec) → (event : EventSpec) → event.mate ≡ mate → own ≡ (event.rank, length (starts_of (view_of before event.rank))) → IsPairTable before self.old → AreOthers (pairs_of before ++ mated before event) self.new.others.entries) }
        ensures names { self.new.names ≡ self.old.names }
    {
        let Some(at) = mate else {
            return Ok(());
        };
        match self.name(at) {
            Some(earlier) => self.add_pair((earlier, own)),
            None => Ok(()),
        }
    }

    /// Adds the event that comes next, by the number that a start of its rank has there.
    pub fn note(&mut self, number: u32, event: &Event) -> Result<(), AllocError>
        ensures { OnOk result ((before : List EventSpec) → number ≡ length (starts_of (view_of before event.now.rank)) → IsPairTable before self.old → IsPairTable (before ++ event.now ∷ []) self.new) }
    {
        let own = (event.rank, number);
        self.add_mate(event.mate, own)?;
        self.add_pairs(event.met.as_slice())?;
        let name = if is_start(&event.call, &event.reply) {
            Some(own)
        } else {
            None
        };
        self.names.push(name)?;
        Ok(())
    }
}
