//! The drawing of a run.
ghost use Rattle.std.specs.Prelude.{◌≡◌, ◌≤◌, ◌^◌, length};

use listed::Listed;
use mpi_call::lists::Ranks;
use std::marker::Model;

/// Where an event stands: the lane of its rank, and a column.
#[derive(Clone, Copy)]
pub struct Point {
    pub rank: u8,
    pub column: u32,
}

/// A call of a rank.
#[derive(Clone, Copy)]
pub struct DrawnMark {
    pub rank: u8,
    /// The number of the call among those of its rank.
    pub number: u32,
    pub column: u32,
    /// Whether it completed a receive from any source.
    pub is_wild: bool,
}

/// An arrow from one event to another.
#[derive(Clone, Copy)]
pub struct Arrow {
    pub from: Point,
    pub to: Point,
}

/// Points, which contracts see as a list.
pub type Points = Listed<Point>;

/// The message that a receive took.
#[derive(Drop)]
pub struct DrawnMessage {
    /// Its Send.
    pub sender: Point,
    /// The Sends whose messages the receive could have taken instead, the first of each other sender.
    pub choices: Points,
}

/// A receive, from its Post to its completion; one that was not completed ends at its rank's last call.
#[derive(Drop)]
pub struct DrawnReceive {
    pub rank: u8,
    pub from: u32,
    pub to: u32,
    /// Whether it is from any source.
    pub is_wild: bool,
    /// The message that it took, where it was completed.
    pub message: Option<DrawnMessage>,
}

/// A collective of a rank, from its Enter to its completion.
#[derive(Clone, Copy)]
pub struct DrawnCollective {
    pub rank: u8,
    pub from: u32,
    pub to: u32,
    /// The last Enter that the completion had to wait for, unless it is the rank's own.
    pub latest: Option<Point>,
}

/// A Send whose message nobody took.
#[derive(Clone, Copy)]
pub struct Unreceived {
    pub rank: u8,
    pub column: u32,
    pub receiver: u8,
}

/// The drawing of a run, by rank and call.
#[derive(Drop)]
pub struct Drawing {
    pub(crate) groups: Ranks,
    pub(crate) columns: u64,
    pub(crate) marks: Vec<DrawnMark>,
    pub(crate) receives: Vec<DrawnReceive>,
    pub(crate) collectives: Vec<DrawnCollective>,
    pub(crate) probes: Vec<Arrow>,
    pub(crate) unreceived: Vec<Unreceived>,
}

impl Model for Drawing {
    ghost use Rattle.std.specs.Prelude.{◌≤◌, ◌<◌, ◌^◌, length};
    ghost use Rattle.run_drawing.specs.Drawn.{Drawn};

    ghost Value = { Drawn };

    ghost view = { λ s. record { groups = s.groups; columns = s.columns; marks = s.marks.items; receives = s.receives.items; collectives = s.collectives.items; probes = s.probes.items; unreceived = s.unreceived.items } };

    ghost invariant = { λ s. (s.columns ≤ 2 ^ 32) × (length s.groups < 2 ^ 8) };
}

impl Drawing {
    /// The group of each rank.
    pub fn groups(&self) -> &[u8]
        ensures { result.now ≡ self.now.groups }
    {
        self.groups.as_slice()
    }

    /// How many lanes there are, one for each rank.
    pub fn lanes(&self) -> u8
        ensures { result ≡ length self.now.groups }
    {
        self.groups.as_slice().len() as u8
    }

    /// How many columns there are.
    pub fn columns(&self) -> u64
        ensures columns { result ≡ self.now.columns }
        ensures few { result ≤ 2 ^ 32 }
    {
        self.columns
    }

    /// A mark for each call.
    pub fn marks(&self) -> &[DrawnMark]
        ensures { result.now ≡ self.now.marks }
    {
        &self.marks
    }

    /// The receives, but for those from the null process.
    pub fn receives(&self) -> &[DrawnReceive]
        ensures { result.now ≡ self.now.receives }
    {
        &self.receives
    }

    /// The collectives that were completed.
    pub fn collectives(&self) -> &[DrawnCollective]
        ensures { result.now ≡ self.now.collectives }
    {
        &self.collectives
    }

    /// An arrow from each message that a probe found.
    pub fn probes(&self) -> &[Arrow]
        ensures { result.now ≡ self.now.probes }
    {
        &self.probes
    }

    /// The Sends whose messages nobody took.
    pub fn unreceived(&self) -> &[Unreceived]
        ensures { result.now ≡ self.now.unreceived }
    {
        &self.unreceived
    }
}
