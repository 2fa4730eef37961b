//! The MPI functions and what each takes.
ghost use Rattle.std.specs.Prelude.{◌≡◌};
ghost use Rattle.c_names.specs.Functions.{takes_predefined, arguments};

use crate::predefined::Predefined;

/// An MPI function.
#[derive(Clone, Copy)]
pub enum MpiFunction {
    Init,
    Finalize,
    CommRank,
    CommSize,
    GetCount,
    CommFree,
    Send,
    Ssend,
    Recv,
    Sendrecv,
    Isend,
    Issend,
    Irecv,
    Wait,
    Waitall,
    Waitany,
    Waitsome,
    Test,
    Testall,
    Testany,
    Testsome,
    Probe,
    Iprobe,
    Barrier,
    Bcast,
    Reduce,
    Allreduce,
    Scan,
    Gather,
    Scatter,
    Allgather,
    Alltoall,
    CommSplit,
    CommDup,
    Abort,
}

/// What an argument has to be.
#[derive(Clone, Copy)]
pub enum ArgumentKind {
    Number,
    /// A reference to ints, or `NULL`.
    Buffer,
    /// A reference to ints that take an answer.
    Ints,
    /// `MPI_INT`.
    Datatype,
    /// One of the predefined reduction operations.
    Operation,
    Communicator,
    /// A reference to a communicator that takes an answer.
    NewCommunicator,
    Requests,
    /// A reference to a status, or `MPI_STATUS_IGNORE`.
    Status,
    /// A reference to statuses, or `MPI_STATUSES_IGNORE`.
    Statuses,
    /// `&` and main's own int parameter.
    ArgumentCount,
    /// `&` and main's own `char` parameter.
    ArgumentTexts,
    /// `NULL` alone.
    NoReference,
    /// `stdout`.
    Output,
    /// No argument fits: a `char` parameter of a function.
    Nothing,
}

/// A blocking receive.
const RECEIVE: &[ArgumentKind] = &[
    ArgumentKind::Buffer,
    ArgumentKind::Number,
    ArgumentKind::Datatype,
    ArgumentKind::Number,
    ArgumentKind::Number,
    ArgumentKind::Communicator,
    ArgumentKind::Status,
];

/// A send and a receive in one call.
const SEND_RECEIVE: &[ArgumentKind] = &[
    ArgumentKind::Buffer,
    ArgumentKind::Number,
    ArgumentKind::Datatype,
    ArgumentKind::Number,
    ArgumentKind::Number,
    ArgumentKind::Buffer,
    ArgumentKind::Number,
    ArgumentKind::Datatype,
    ArgumentKind::Number,
    ArgumentKind::Number,
    ArgumentKind::Communicator,
    ArgumentKind::Status,
];

/// A send or receive that is started alone.
const STARTED: &[ArgumentKind] = &[
    ArgumentKind::Buffer,
    ArgumentKind::Number,
    ArgumentKind::Datatype,
    ArgumentKind::Number,
    ArgumentKind::Number,
    ArgumentKind::Communicator,
    ArgumentKind::Requests,
];

/// A reduction to a root.
const REDUCE: &[ArgumentKind] = &[
    ArgumentKind::Buffer,
    ArgumentKind::Buffer,
    ArgumentKind::Number,
    ArgumentKind::Datatype,
    ArgumentKind::Operation,
    ArgumentKind::Number,
    ArgumentKind::Communicator,
];

/// A reduction without a root.
const REDUCE_FOR_ALL: &[ArgumentKind] = &[
    ArgumentKind::Buffer,
    ArgumentKind::Buffer,
    ArgumentKind::Number,
    ArgumentKind::Datatype,
    ArgumentKind::Operation,
    ArgumentKind::Communicator,
];

/// Pieces from or to a root.
const EXCHANGE: &[ArgumentKind] = &[
    ArgumentKind::Buffer,
    ArgumentKind::Number,
    ArgumentKind::Datatype,
    ArgumentKind::Buffer,
    ArgumentKind::Number,
    ArgumentKind::Datatype,
    ArgumentKind::Number,
    ArgumentKind::Communicator,
];

/// Pieces without a root.
const EXCHANGE_FOR_ALL: &[ArgumentKind] = &[
    ArgumentKind::Buffer,
    ArgumentKind::Number,
    ArgumentKind::Datatype,
    ArgumentKind::Buffer,
    ArgumentKind::Number,
    ArgumentKind::Datatype,
    ArgumentKind::Communicator,
];

/// What an MPI function takes, in order.
pub fn arguments(function: MpiFunction) -> &'static [ArgumentKind]
    ensures { result.now ≡ arguments function }
{
    use ArgumentKind::*;
    match function {
        MpiFunction::Init => &[ArgumentCount, ArgumentTexts],
        MpiFunction::Finalize => &[],
        MpiFunction::CommRank | MpiFunction::CommSize => &[Communicator, Ints],
        MpiFunction::GetCount => &[Status, Datatype, Ints],
        MpiFunction::CommFree => &[NewCommunicator],
        MpiFunction::Send | MpiFunction::Ssend => &[
            Buffer,
            Number,
            Datatype,
            Number,
            Number,
            Communicator,
        ],
        MpiFunction::Recv => RECEIVE,
        MpiFunction::Sendrecv => SEND_RECEIVE,
        MpiFunction::Isend | MpiFunction::Issend | MpiFunction::Irecv => STARTED,
        MpiFunction::Wait => &[Requests, Status],
        MpiFunction::Waitall => &[Number, Requests, Statuses],
        MpiFunction::Waitany => &[Number, Requests, Ints, Status],
        MpiFunction::Waitsome | MpiFunction::Testsome => &[Number, Requests, Ints, Ints, Statuses],
        MpiFunction::Test => &[Requests, Ints, Status],
        MpiFunction::Testall => &[Number, Requests, Ints, Statuses],
        MpiFunction::Testany => &[Number, Requests, Ints, Ints, Status],
        MpiFunction::Probe => &[Number, Number, Communicator, Status],
        MpiFunction::Iprobe => &[Number, Number, Communicator, Ints, Status],
        MpiFunction::Barrier => &[Communicator],
        MpiFunction::Bcast => &[Buffer, Number, Datatype, Number, Communicator],
        MpiFunction::Reduce => REDUCE,
        MpiFunction::Allreduce | MpiFunction::Scan => REDUCE_FOR_ALL,
        MpiFunction::Gather | MpiFunction::Scatter => EXCHANGE,
        MpiFunction::Allgather | MpiFunction::Alltoall => EXCHANGE_FOR_ALL,
        MpiFunction::CommSplit => &[Communicator, Number, Number, NewCommunicator],
        MpiFunction::CommDup => &[Communicator, NewCommunicator],
        MpiFunction::Abort => &[Communicator, Number],
    }
}

/// Whether a predefined name may stand for an argument.
pub fn accepts(kind: ArgumentKind, known: Predefined) -> bool
    ensures { result ≡ takes_predefined kind known }
{
    match (kind, known) {
        (ArgumentKind::Buffer | ArgumentKind::NoReference, Predefined::NoReference) => true,
        (ArgumentKind::Datatype, Predefined::Datatype) => true,
        (ArgumentKind::Operation, Predefined::Operation(_)) => true,
        (ArgumentKind::Status, Predefined::IgnoredStatus) => true,
        (ArgumentKind::Statuses, Predefined::IgnoredStatuses) => true,
        (ArgumentKind::Output, Predefined::Output) => true,
        _ => false,
    }
}
