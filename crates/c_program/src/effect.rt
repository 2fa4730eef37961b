//! What calls of MPI functions do, once their arguments are evaluated and checked.

use crate::range::Range;
use mpi_call::call::{Kind, Op, Source, Tag, TakeMode};

/// The number of ranks, and the number of the one that runs.
#[derive(Clone, Copy)]
pub struct Rank {
    pub ranks: u8,
    pub number: u8,
}

/// A message to a rank of the world. Its ints are read as the send starts.
#[derive(Clone, Copy)]
pub struct Message {
    pub comm: u32,
    pub dest: u8,
    pub tag: u32,
    pub ints: Range,
    /// Whether its send is complete only once it is received (MPI 3.1, 3.4).
    pub sync: bool,
}

/// A receive, and the cells that its message goes to.
#[derive(Clone, Copy)]
pub struct Receive {
    pub comm: u32,
    pub source: Source,
    pub tag: Tag,
    pub buffer: Range,
}

/// What a nonblocking call starts.
#[derive(Clone, Copy)]
pub enum Start {
    Send(Message),
    Receive(Receive),
}

/// The cells that a completion call answers into, besides buffers and handles; `None` for what it does not answer.
#[derive(Clone, Copy)]
pub struct AnswerCells {
    pub flag: Option<u32>,
    pub index: Option<u32>,
    pub outcount: Option<u32>,
    pub indices: Option<Range>,
    pub statuses: Option<Range>,
}

/// What a member enters into a collective.
#[derive(Clone, Copy)]
pub enum EnterInput {
    Nothing,
    Cells(Range),
    /// A colour and a key.
    Pair(i32, i32),
}

/// Where the result of a collective goes.
#[derive(Clone, Copy)]
pub enum Into {
    Nowhere,
    Cells(Range),
    /// The cell of a communicator.
    Handle(u32),
}

/// A collective; ranks are those of the world.
#[derive(Clone, Copy)]
pub struct Collective {
    pub comm: u32,
    pub kind: Kind,
    pub root: Option<u8>,
    pub op: Option<Op>,
    pub count: u32,
    pub entered: EnterInput,
    pub into: Into,
}

/// Cells are by their numbers.
#[derive(Clone, Copy)]
pub enum Effect {
    Nothing,
    /// A cell gets a value.
    Sets {
        cell: u32,
        value: i32,
    },
    /// A start; a nonblocking call's handle gets its number.
    Starts {
        start: Start,
        request: Option<u32>,
    },
    /// A send until it is complete.
    Sends(Message),
    /// A receive until its message is there; a send starts after it where there is one.
    Receives {
        receive: Receive,
        send: Option<Message>,
        status: Option<u32>,
    },
    /// The completion of the starts that the handles name.
    Completes {
        requests: Range,
        mode: TakeMode,
        answer: AnswerCells,
    },
    Probes {
        comm: u32,
        source: Source,
        tag: Tag,
        waits: bool,
        flag: Option<u32>,
        status: Option<u32>,
    },
    Joins(Collective),
    Aborts(i32),
}
