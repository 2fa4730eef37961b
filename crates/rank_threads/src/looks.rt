//! A rank that polls: how often it has looked in vain.
use mpi_call::call::{Call, Source, Tag, TakeMode};
use mpi_call::reply::Reply;

/// How often a rank goes round its looks without news before it rests.
const ROUNDS: u32 = 2;

/// How often it does so at most where all sleep.
const MOST_ROUNDS: u32 = 1024;

/// The looks of a rank, a Test or a probe that does not wait, since it last heard of an event that may concern it, or made another
/// call. It has gone round them when it comes back to one of them; which one changes with each power of two, so that a look that
/// does not come again is forgotten.
#[derive(Drop)]
pub struct Looks {
    /// What the rank had heard.
    heard: u64,
    /// How many looks there were.
    count: u32,
    /// The look to which it is to come back.
    first: u64,
    /// How often it came back.
    rounds: u32,
    /// How often it comes back before it rests.
    most: u32,
}

impl Looks {
    /// No looks.
    pub fn new() -> Looks {
        Looks {
            heard: 0,
            count: 0,
            first: 0,
            rounds: 0,
            most: ROUNDS,
        }
    }

    /// Adds a call with its reply, and what the rank had heard before it.
    pub fn add(&mut self, call: &Call, reply: &Reply, heard: u64) {
        match reply {
            Reply::NotYet => self.add_vain(look_of(call), heard),
            Reply::Took(items) if items.as_slice().is_empty() => {}
            _ => *self = Looks::new(),
        }
    }

    fn add_vain(&mut self, look: u64, heard: u64) {
        if self.heard != heard {
            *self = Looks::new();
            self.heard = heard;
        }
        self.count = self.count.wrapping_add(1);
        if look == self.first && self.count > 1 {
            self.rounds = self.rounds.wrapping_add(1);
        }
        if self.count & self.count.wrapping_sub(1) == 0 {
            self.first = look;
        }
    }

    /// Whether the rank rests before this call: it is a look, and the rank has been round its looks without news.
    pub fn are_enough(&self, call: &Call, heard: u64) -> bool {
        self.rounds >= self.most && self.heard == heard && is_look(call)
    }

    /// All sleep, so the rank looks on, and next time for twice as long.
    pub fn go_on(&mut self) {
        self.rounds = 0;
        self.most = (self.most.saturating_mul(2)).min(MOST_ROUNDS);
    }
}

/// Whether a call asks for what may not be there, and does not wait for it.
fn is_look(call: &Call) -> bool {
    match call {
        Call::Take { mode, .. } => matches!(
            mode,
            TakeMode::TestAll | TakeMode::TestAny | TakeMode::TestSeveral
        ),
        Call::Peek { wait, .. } => !wait,
        _ => false,
    }
}

/// A number for a look: the same for the same look, and most times another for another.
fn look_of(call: &Call) -> u64 {
    match call {
        Call::Take { starts, .. } => {
            let mut number: u64 = 1;
            for start in starts.as_slice() {
                number = number.wrapping_mul(31).wrapping_add(*start as u64);
            }
            number
        }
        Call::Peek {
            comm,
            source,
            tag,
            ..
        } => {
            let from = match source {
                Source::Any => 256,
                Source::Null => 257,
                Source::From(rank) => *rank as u64,
            };
            let tagged = match tag {
                Tag::Any => u64::MAX,
                Tag::Is(tag) => *tag as u64,
            };
            tagged
                .wrapping_mul(31)
                .wrapping_add(from)
                .wrapping_mul(31)
                .wrapping_add(*comm as u64)
                .wrapping_mul(2)
        }
        _ => 0,
    }
}
