//! The commands, with what their arguments say. A text `T` is a list of bytes in definitions, and a borrowed one in code.
ghost use Rattle.std.specs.Prelude.{◌≡◌};

use std::alloc::AllocError;

/// The name of a command: its first word.
#[derive(Clone, Copy)]
pub enum Verb {
    Record,
    Check,
    Races,
    Advise,
    Demo,
    Replay,
    Show,
    Stats,
    Convert,
    Refine,
    Join,
    Diff,
    Waits,
    Picture,
    Watch,
    At,
    Where,
    Explore,
}

/// The program and the plan of a run, and how its ranks take their turns. With neither an order nor `is_serial` each rank
/// has a thread of its own; the two stand together in a search alone.
pub struct RunWords<T> {
    pub program: T,
    pub plan: T,
    /// The file of the ranks that have the first turns, on one thread.
    pub order: Option<T>,
    /// On one thread, in rounds over the ranks.
    pub is_serial: bool,
}

impl<T: Copy> Clone for RunWords<T> {
    ghost is_clone = { λ one other. other ≡ one };

    ghost is_infallible = { λ _. Unit {0} };

    fn clone(&self) -> Result<RunWords<T>, AllocError> {
        Ok(*self)
    }
}

impl<T: Copy> Copy for RunWords<T> {}

/// The log of a replay, and how it is replayed.
pub struct ReplayWords<T> {
    pub log: T,
    /// The file of a program that takes the place of the log's own.
    pub program: Option<T>,
    /// The breakpoint: a rank, at most 63, and the number of the call before which it stops, at most 999,999.
    pub stop: Option<(u8, u32)>,
    /// On one thread.
    pub is_serial: bool,
}

impl<T: Copy> Clone for ReplayWords<T> {
    ghost is_clone = { λ one other. other ≡ one };

    ghost is_infallible = { λ _. Unit {0} };

    fn clone(&self) -> Result<ReplayWords<T>, AllocError> {
        Ok(*self)
    }
}

impl<T: Copy> Copy for ReplayWords<T> {}

/// A command with what its arguments say.
pub enum Command<T> {
    /// Records a run; `prefix` is the front of the names of the files that are written.
    Record {
        run: RunWords<T>,
        prefix: T,
    },
    /// Records a run and replays its groups. It has no order.
    Check(RunWords<T>),
    /// Records a run and lists its message races; `orders` is the front of the names of the order files that are written, where there is one.
    Races {
        run: RunWords<T>,
        orders: Option<T>,
    },
    /// Records a run and advises on its groups: blocks of at most `most` neighbouring ranks, 1 to 64.
    Advise {
        run: RunWords<T>,
        most: u8,
    },
    /// Checks a program that is made from a seed, at most 2,147,483,647, and a number of rounds, 1 to 1,000.
    Demo {
        seed: u32,
        rounds: u32,
    },
    /// Replays the group of a log.
    Replay(ReplayWords<T>),
    /// Shows the log in this file.
    Show(T),
    /// Counts the log in this file.
    Stats(T),
    /// Writes the log in one file to another: in format 1 where `is_text`, else in format 2.
    Convert {
        log: T,
        file: T,
        is_text: bool,
    },
    /// Writes the logs of the groups of a plan that lie in the group of a log; `prefix` is the front of their files' names.
    Refine {
        log: T,
        plan: T,
        prefix: T,
    },
    /// Writes the log of the groups of two logs together.
    Join {
        one: T,
        other: T,
        file: T,
    },
    /// Compares what the ranks of the groups of two logs saw.
    Diff {
        one: T,
        other: T,
    },
    /// Records a run and tells, where it is stuck, who waits for whom.
    Waits(RunWords<T>),
    /// Records a run and writes a picture of it to this file: as trace events where `is_trace`, else as SVG.
    Picture {
        run: RunWords<T>,
        file: T,
        is_trace: bool,
    },
    /// Replays the group of a log and tells each change of a variable of a rank, at most 63.
    Watch {
        replay: ReplayWords<T>,
        rank: u8,
        name: T,
    },
    /// Replays the group of a log up to a place and tells where each rank stands.
    At(ReplayWords<T>),
    /// Replays the group of a log and tells where a message went: its sender, at most 63, and its number, at most 999,999.
    Where {
        replay: ReplayWords<T>,
        source: u8,
        start: u32,
    },
    /// Searches for every outcome of the runs, or of those that begin with an order's turns; `prefix` is the front of the names of the files that
    /// are written. It looks at `most` states, at most 1,000,000, and a rank looks in vain at most `polls` times in a row, at most 1,000.
    Explore {
        run: RunWords<T>,
        prefix: T,
        most: u32,
        polls: u32,
    },
}

impl<T: Copy> Clone for Command<T> {
    ghost is_clone = { λ one other. other ≡ one };

    ghost is_infallible = { λ _. Unit {0} };

    fn clone(&self) -> Result<Command<T>, AllocError> {
        Ok(*self)
    }
}

impl<T: Copy> Copy for Command<T> {}

impl<T> Command<T> {
    ghost use Rattle.wiz_words.specs.Words.{is_threaded};

    /// Whether it is to run on threads.
    pub fn is_threaded(&self) -> bool
        ensures { result ≡ is_threaded self.now }
    {
        match self {
            Command::Record { run, .. }
            | Command::Check(run)
            | Command::Races { run, .. }
            | Command::Waits(run)
            | Command::Picture { run, .. }
            | Command::Advise { run, .. } => { !run.is_serial && run.order.is_none() }
            Command::Replay(replay) => !replay.is_serial,
            Command::Demo { .. } | Command::Show(_) | Command::Stats(_) => false,
            Command::Convert { .. } | Command::Refine { .. } => false,
            Command::Join { .. } | Command::Diff { .. } => false,
            Command::Watch { .. } | Command::At(_) | Command::Where { .. } => false,
            Command::Explore { .. } => false,
        }
    }
}
