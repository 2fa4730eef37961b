//! A rank's calls.
ghost use Rattle.std.specs.Prelude.{◌≡◌, IfOk};

use crate::lists::{Ints, Starts};
use std::alloc::AllocError;

/// A communicator's number; 0 is `MPI_COMM_WORLD`.
pub type Comm = u32;

/// Whom a receive or a probe takes a message from.
#[derive(Clone, Copy, Debug, PartialEq, Eq)]
pub enum Source {
    /// `MPI_ANY_SOURCE`.
    Any,
    /// This rank.
    From(u8),
    /// `MPI_PROC_NULL`: such a receive accepts nothing and is complete at once.
    Null,
}

/// The tag that a receive or a probe asks for.
#[derive(Clone, Copy, Debug, PartialEq, Eq)]
pub enum Tag {
    /// `MPI_ANY_TAG`.
    Any,
    /// This tag, at most 2147483647.
    Is(u32),
}

/// How a completion call chooses among its starts: the Wait family, then the Test family.
#[derive(Clone, Copy, Debug, PartialEq, Eq)]
pub enum TakeMode {
    /// `MPI_Wait`, `MPI_Waitall`: every start.
    All,
    /// `MPI_Waitany`: one start that is ready.
    Any,
    /// `MPI_Waitsome`: each start that is ready, at least one.
    Several,
    /// `MPI_Test`, `MPI_Testall`.
    TestAll,
    /// `MPI_Testany`.
    TestAny,
    /// `MPI_Testsome`.
    TestSeveral,
}

/// The collective operations.
#[derive(Clone, Copy, Debug, PartialEq, Eq)]
pub enum Kind {
    Barrier,
    Bcast,
    Reduce,
    Allreduce,
    Gather,
    Allgather,
    Scatter,
    Alltoall,
    Scan,
    Split,
    Dup,
}

/// The predefined reduction operations; the `L` ones are logical, the `B` ones bitwise.
#[derive(Clone, Copy, Debug, PartialEq, Eq)]
pub enum Op {
    Max,
    Min,
    Sum,
    Prod,
    Land,
    Band,
    Lor,
    Bor,
    Lxor,
    Bxor,
}

/// Why a program traps, numbered from 1 in this order in a log.
#[derive(Clone, Copy, Debug, PartialEq, Eq)]
pub enum Fault {
    DivideByZero,
    OutOfBounds,
    BadRank,
    BadTag,
    BadCount,
    BadComm,
    /// More than 10,000,000 steps.
    Budget,
    /// More than 65,536 bytes printed.
    OutputFull,
    /// More than 100 calls deep.
    Depth,
    /// More than 262,144 cells of variables.
    Cells,
}

/// Why a run stops, numbered from 1 in this order in a log.
#[derive(Clone, Copy, Debug, PartialEq, Eq)]
pub enum Halt {
    /// This rank called `MPI_Abort`.
    Aborted { rank: u8, code: i32 },
    /// This rank's program trapped.
    Trapped { rank: u8, fault: Fault },
    /// The message for this receive of this rank is longer than its room.
    Truncated { rank: u8, start: u32 },
    /// This rank entered a collective that another member entered otherwise.
    Mismatched { rank: u8 },
    /// This rank asked for the completion of a start that it never made, or took before, or listed twice.
    BadRequest { rank: u8, start: u32 },
    /// The run is at its bound of events or of sizes.
    Limit,
    /// No rank can go on.
    Stuck,
}

/// A primitive call.
#[derive(Clone, Drop, PartialEq)]
pub enum Call {
    /// A send; its ints are read as the call starts, at most 65,536 of them. A standard send is always buffered, so it is
    /// complete at once; with `sync` it is complete when a receive has matched it.
    Send {
        comm: Comm,
        dest: u8,
        tag: u32,
        ints: Ints,
        sync: bool,
    },
    /// A receive of at most `room` ints.
    Post {
        comm: Comm,
        source: Source,
        tag: Tag,
        room: u32,
    },
    /// A collective, by one of its members, with the ints that this member contributes.
    Enter {
        comm: Comm,
        kind: Kind,
        root: Option<u8>,
        op: Option<Op>,
        count: u32,
        ints: Ints,
    },
    /// The completion of earlier starts of this rank, by their numbers.
    Take {
        starts: Starts,
        mode: TakeMode,
    },
    /// A probe; with `wait` it blocks until a message is there.
    Peek {
        comm: Comm,
        source: Source,
        tag: Tag,
        wait: bool,
    },
    /// `MPI_Abort`.
    Abort {
        code: i32,
    },
    /// The program did what it must not.
    Trap {
        fault: Fault,
    },
    /// The program has ended.
    End,
}

/// A copy of a call.
pub fn copy_of(call: &Call) -> Result<Call, AllocError>
    ensures { IfOk result (λ copied. copied ≡ call.now) }
{
    call.clone()
}
