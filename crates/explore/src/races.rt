//! Which calls can go first: others can neither change how they are answered nor see that they were.
ghost use Rattle.std.specs.Prelude.{◌≡◌, IfOk, true};
ghost use Rattle.run_model.specs.Allowed.{takes_all};
ghost use Rattle.mpi_call.specs.Calls.{makes};
ghost use Rattle.explore.specs.inside.RaceFlags.{and_race, no_races, race_in, race_next, race_of, races_of};
ghost use Rattle.quiet_calls.specs.Quiet.{is_partial, is_quiet, is_racy, is_reckoned};

use mpi_call::call::{Call, Kind, Source, TakeMode};
use run_model::event::Event;
use std::alloc::{AllocError, Global};
use std::marker::Model;

/// A rank that made a racy call, and whether the call completes in part.
#[derive(Clone, Copy)]
pub struct Race {
    pub rank: u8,
    pub partial: bool,
}

/// What a search reckons with: which ranks may make racy calls, and whether any rank may complete in part.
#[derive(Drop)]
pub struct Races {
    /// A flag for each rank.
    ranks: Vec<bool>,
    partial: bool,
}

impl Model for Races {
    ghost use Rattle.explore.specs.inside.RaceFlags.{RaceFlags};

    ghost Value = { RaceFlags };

    ghost view = { λ s. record { ranks = s.ranks.items; partial = s.partial } };
}

impl Races {
    /// No race of any of so many ranks.
    pub fn none(alloc: Global, ranks: u8) -> Result<Self, AllocError>
        ensures { IfOk result (λ races. races ≡ no_races ranks) }
    {
        let mut flags = Vec::new(alloc);
        for _rank in 0..ranks {
            flags.push(false)?;
        }
        Ok(Races {
            ranks: flags,
            partial: false,
        })
    }

    /// Reckons with this race from now on.
    pub fn admit(&mut self, race: Race)
        ensures { self.new ≡ and_race self.old race }
    {
        if let Some(flag) = self.ranks.get_mut(race.rank as usize) {
            *flag = true;
        }
        if race.partial {
            self.partial = true;
        }
    }

    /// Reckons with completions in part from now on.
    pub fn admit_partial(&mut self)
        ensures { self.new ≡ record self.old { partial = true } }
    {
        self.partial = true;
    }

    /// Whether any rank may complete in part.
    pub fn has_partial(&self) -> bool
        ensures { result ≡ self.now.partial }
    {
        self.partial
    }

    /// Whether a rank may make racy calls.
    fn has_rank(&self, rank: u8) -> bool
        ensures { result ≡ (races_of self.now).ranks rank }
    {
        match self.ranks.get(rank as usize) {
            Some(flag) => *flag,
            None => false,
        }
    }

    /// Whether a rank's call is reckoned with.
    fn is_reckoned(&self, rank: u8, call: &Call) -> bool
        ensures { result ≡ is_reckoned (races_of self.now) rank call.now }
    {
        (self.has_rank(rank) || !is_racy(call)) && (self.partial || !is_partial(call))
    }

    /// The race of a rank's call, where it is not reckoned with.
    pub fn race_of(&self, rank: u8, call: &Call) -> Option<Race>
        ensures { result ≡ race_of self.now rank call.now }
    {
        if self.is_reckoned(rank, call) {
            return None;
        }
        let partial = is_partial(call);
        Some(Race { rank, partial })
    }

    /// The race of a rank's next call, where it makes one that is not reckoned with.
    pub fn race_next(&self, rank: u8, next: &Option<Call>) -> Option<Race>
        ensures { result ≡ race_next self.now rank next.now }
    {
        match next {
            Some(call) => self.race_of(rank, call),
            None => None,
        }
    }

    /// The first race of these events that is not reckoned with.
    pub fn race_in(&self, events: &[Event]) -> Option<Race>
        ensures { result ≡ race_in self.now events.now }
    {
        let mut rest = events;
        while let [event, after @ ..] = rest {
            if let Some(race) = self.race_of(event.rank, &event.call) {
                return Some(race);
            }
            rest = after;
        }
        None
    }

    /// Whether a call can go first, once it can be answered.
    pub fn is_quiet(&self, call: &Call) -> bool
        ensures { result ≡ is_quiet (races_of self.now) call.now }
    {
        match call {
            Call::Post { source, .. } => match source {
                Source::From(rank) => !self.has_rank(*rank),
                Source::Null => true,
                Source::Any => false,
            },
            Call::Send { dest, .. } => !self.has_rank(*dest),
            Call::Enter { .. } => !self.partial && !makes(call),
            Call::Take { mode, .. } => takes_all(*mode),
            Call::End => true,
            _ => false,
        }
    }
}

/// Whether a completion completes all that it lists.
fn takes_all(mode: TakeMode) -> bool
    ensures { result ≡ takes_all mode }
{
    matches!(mode, TakeMode::All | TakeMode::TestAll)
}

/// Whether a collective makes a communicator.
fn makes(call: &Call) -> bool
    ensures { result ≡ makes call.now }
{
    match call {
        Call::Enter { kind, .. } => matches!(kind, Kind::Split | Kind::Dup),
        _ => false,
    }
}

/// Whether a call's answer can tell when another rank's call came.
fn is_racy(call: &Call) -> bool
    ensures { result ≡ is_racy call.now }
{
    match call {
        Call::Post { source, .. } => matches!(source, Source::Any),
        Call::Peek { .. } => true,
        _ => is_partial(call),
    }
}

/// Whether a call completes not all that it lists, or tests.
fn is_partial(call: &Call) -> bool
    ensures { result ≡ is_partial call.now }
{
    match call {
        Call::Take { mode, .. } => !matches!(mode, TakeMode::All),
        _ => false,
    }
}
