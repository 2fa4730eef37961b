//! Which starts are paired.
ghost use Rattle.std.specs.Prelude.{◌≡◌, ◌||◌, ◌==◌, ◌<◌, [], OnOk, ℕ, is_some, length};
ghost use Rattle.msg_races.specs.declared.names.Name.{Name as NameSpec};
ghost use Rattle.msg_races.specs.Names.{same_start};
ghost use Rattle.run_model.specs.Pairs.{partner_of};
ghost use Rattle.wait_graph.specs.inside.Names.{is_either};
ghost use Rattle.wait_graph.specs.Partners.{is_marked, is_paired_in};

use msg_races::names::Name;
use run_model::event::StartName;
use std::alloc::{AllocError, Global};
use std::marker::Model;

/// Whether each start of a rank is paired, by its number. One behind the end is not.
#[derive(Drop)]
struct Marks {
    values: Vec<bool>,
}

impl Model for Marks {
    ghost use Rattle.std.specs.Prelude.{Bool, List};

    ghost Value = { List Bool };

    ghost view = { λ s. s.values.items };
}

impl Marks {
    fn new(alloc: Global) -> Self
        ensures { result ≡ [] }
    {
        Marks {
            values: Vec::new(alloc),
        }
    }

    /// Whether a start is paired.
    fn has(&self, start: u32) -> bool
        ensures { result ≡ is_marked self.now start }
    {
        match self.values.get(start as usize) {
            Some(is_paired) => *is_paired,
            None => false,
        }
    }

    /// Marks a start as paired.
    fn mark(&mut self, start: u32) -> Result<(), AllocError>
        ensures { OnOk result ((other : ℕ) → is_marked self.new other ≡ (is_marked self.old other || (start == other))) }
    {
        self.reach(start)?;
        self.values[start as usize] = true;
        Ok(())
    }

    /// Adds starts that are not paired until there is one with this number.
    fn reach(&mut self, start: u32) -> Result<(), AllocError>
        ensures there { OnOk result (start < length self.new) }
        ensures same { OnOk result ((other : ℕ) → is_marked self.new other ≡ is_marked self.old other) }
    {
        while self.values.len() <= start as usize {
            self.values.push(false)?;
        }
        Ok(())
    }
}

/// The starts that are paired, by rank. Of a rank behind the end none is.
#[derive(Drop)]
pub struct Partners {
    alloc: Global,
    ranks: Vec<Marks>,
}

impl Model for Partners {
    ghost use Rattle.std.specs.Prelude.{Bool, List};

    ghost Value = { List (List Bool) };

    ghost view = { λ s. s.ranks.items };
}

impl Partners {
    /// No pairs.
    pub fn new(alloc: Global) -> Self
        ensures { result ≡ [] }
    {
        Partners {
            alloc,
            ranks: Vec::new(alloc),
        }
    }

    /// Whether a start is paired.
    pub fn has(&self, name: Name) -> bool
        ensures { result ≡ is_paired_in self.now name }
    {
        match self.ranks.get(name.rank as usize) {
            Some(marks) => marks.has(name.start),
            None => false,
        }
    }

    /// Pairs two starts.
    pub fn join(&mut self, one: Name, other: Name) -> Result<(), AllocError>
        ensures { OnOk result ((name : NameSpec) → is_paired_in self.new name ≡ (is_paired_in self.old name || (same_start one name || same_start other name))) }
    {
        self.mark(one)?;
        self.mark(other)
    }

    /// Pairs a start with an earlier one, if there is one.
    pub fn join_some(&mut self, earlier: Option<Name>, name: Name) -> Result<(), AllocError>
        ensures { OnOk result ((other : NameSpec) → is_paired_in self.new other ≡ (is_paired_in self.old other || is_either earlier name other)) }
    {
        match earlier {
            Some(earlier) => self.join(earlier, name),
            None => Ok(()),
        }
    }

    /// Pairs the starts of each of these pairs.
    pub fn join_all(&mut self, pairs: &[(StartName, StartName)]) -> Result<(), AllocError>
        ensures { OnOk result ((name : NameSpec) → is_paired_in self.new name ≡ (is_paired_in self.old name || is_some (partner_of pairs.now (name.rank, name.start)))) }
    {
        for (one, other) in pairs.iter() {
            self.join(named(*one), named(*other))?;
        }
        Ok(())
    }

    /// Marks a start as paired.
    fn mark(&mut self, name: Name) -> Result<(), AllocError>
        ensures { OnOk result ((other : NameSpec) → is_paired_in self.new other ≡ (is_paired_in self.old other || same_start name other)) }
    {
        self.reach(name.rank)?;
        self.ranks[name.rank as usize].mark(name.start)
    }

    /// Adds ranks without pairs until there is this one.
    fn reach(&mut self, rank: u8) -> Result<(), AllocError>
        ensures there { OnOk result (rank < length self.new) }
        ensures same { OnOk result ((other : NameSpec) → is_paired_in self.new other ≡ is_paired_in self.old other) }
    {
        while self.ranks.len() <= rank as usize {
            self.ranks.push(Marks::new(self.alloc))?;
        }
        Ok(())
    }
}

/// A start's name, from its rank and its number.
fn named(start: StartName) -> Name
    ensures { result ≡ record { rank = start.0; start = start.1 } }
{
    Name {
        rank: start.0,
        start: start.1,
    }
}
