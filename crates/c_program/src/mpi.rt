//! Calls of MPI functions with their arguments, in their order, by the chapters of the standard. A status that is ignored is `None`.

use crate::expr::{Reference, TypedExpr};
use mpi_call::call::Op;

/// The ints of a message: where they lie, and how many they are.
#[derive(Drop)]
pub struct Buffer {
    pub cells: Reference,
    pub count: TypedExpr,
}

/// What a send takes (MPI 3.1, 3.2.1): its ints, and where they go.
#[derive(Drop)]
pub struct Outgoing {
    pub buffer: Buffer,
    pub dest: TypedExpr,
    pub tag: TypedExpr,
}

/// What a receive takes (MPI 3.1, 3.2.4): room for ints, and where they come from.
#[derive(Drop)]
pub struct Incoming {
    pub buffer: Buffer,
    pub source: TypedExpr,
    pub tag: TypedExpr,
}

/// Sends and receives (MPI 3.1, 3.2, 3.4, 3.7.2 and 3.10). Those with an `S` are synchronous.
#[derive(Drop)]
pub enum MessageCall {
    Send {
        message: Outgoing,
        comm: TypedExpr,
    },
    Ssend {
        message: Outgoing,
        comm: TypedExpr,
    },
    Recv {
        message: Incoming,
        comm: TypedExpr,
        status: Option<Reference>,
    },
    Isend {
        message: Outgoing,
        comm: TypedExpr,
        request: Reference,
    },
    Issend {
        message: Outgoing,
        comm: TypedExpr,
        request: Reference,
    },
    Irecv {
        message: Incoming,
        comm: TypedExpr,
        request: Reference,
    },
    Sendrecv {
        send: Outgoing,
        receive: Incoming,
        comm: TypedExpr,
        status: Option<Reference>,
    },
}

/// What the completion of some of several requests takes (MPI 3.1, 3.7.5): how many there are, where they lie, and where the answers go.
#[derive(Drop)]
pub struct SomeRequests {
    pub count: TypedExpr,
    pub requests: Reference,
    pub outcount: Reference,
    pub indices: Reference,
    pub statuses: Option<Reference>,
}

/// The completion of requests (MPI 3.1, 3.7.3 and 3.7.5).
#[derive(Drop)]
pub enum CompletionCall {
    Wait {
        request: Reference,
        status: Option<Reference>,
    },
    Test {
        request: Reference,
        flag: Reference,
        status: Option<Reference>,
    },
    Waitany {
        count: TypedExpr,
        requests: Reference,
        index: Reference,
        status: Option<Reference>,
    },
    Testany {
        count: TypedExpr,
        requests: Reference,
        index: Reference,
        flag: Reference,
        status: Option<Reference>,
    },
    Waitall {
        count: TypedExpr,
        requests: Reference,
        statuses: Option<Reference>,
    },
    Testall {
        count: TypedExpr,
        requests: Reference,
        flag: Reference,
        statuses: Option<Reference>,
    },
    Waitsome(SomeRequests),
    Testsome(SomeRequests),
}

/// Probes, and what a status tells (MPI 3.1, 3.8.1 and 3.2.5).
#[derive(Drop)]
pub enum ProbeCall {
    Probe {
        source: TypedExpr,
        tag: TypedExpr,
        comm: TypedExpr,
        status: Option<Reference>,
    },
    Iprobe {
        source: TypedExpr,
        tag: TypedExpr,
        comm: TypedExpr,
        flag: Reference,
        status: Option<Reference>,
    },
    GetCount {
        status: Option<Reference>,
        count: Reference,
    },
}

/// What a reduction takes (MPI 3.1, 5.9.1): ints, room for as many, how many they are, and the operation.
#[derive(Drop)]
pub struct Reduction {
    pub send: Reference,
    pub receive: Reference,
    pub count: TypedExpr,
    pub op: Op,
}

/// Collective communication (MPI 3.1, 5.3 to 5.9 and 5.11).
#[derive(Drop)]
pub enum CollectiveCall {
    Barrier {
        comm: TypedExpr,
    },
    Bcast {
        buffer: Buffer,
        root: TypedExpr,
        comm: TypedExpr,
    },
    Gather {
        send: Buffer,
        receive: Buffer,
        root: TypedExpr,
        comm: TypedExpr,
    },
    Scatter {
        send: Buffer,
        receive: Buffer,
        root: TypedExpr,
        comm: TypedExpr,
    },
    Allgather {
        send: Buffer,
        receive: Buffer,
        comm: TypedExpr,
    },
    Alltoall {
        send: Buffer,
        receive: Buffer,
        comm: TypedExpr,
    },
    Reduce {
        reduction: Reduction,
        root: TypedExpr,
        comm: TypedExpr,
    },
    Allreduce {
        reduction: Reduction,
        comm: TypedExpr,
    },
    Scan {
        reduction: Reduction,
        comm: TypedExpr,
    },
}

/// Communicators (MPI 3.1, 6.4).
#[derive(Drop)]
pub enum CommunicatorCall {
    Size {
        comm: TypedExpr,
        size: Reference,
    },
    Rank {
        comm: TypedExpr,
        rank: Reference,
    },
    Dup {
        comm: TypedExpr,
        made: Reference,
    },
    Split {
        comm: TypedExpr,
        color: TypedExpr,
        key: TypedExpr,
        made: Reference,
    },
    Free {
        comm: Reference,
    },
}

/// A call of an MPI function. Those of MPI 3.1, 8.7, stand here by themselves.
pub enum MpiCall {
    Init,
    Finalize,
    Abort { comm: TypedExpr, code: TypedExpr },
    Message(MessageCall),
    Completion(CompletionCall),
    Probe(ProbeCall),
    Collective(CollectiveCall),
    Communicator(CommunicatorCall),
}

// Written out, so that what a call holds is dropped by a function of this crate, and not by one of each crate that has calls.
impl Drop for MpiCall {
    fn drop(self) {
        match self {
            MpiCall::Init => {}
            MpiCall::Finalize => {}
            MpiCall::Abort {
                comm: _comm,
                code: _code,
            } => {}
            MpiCall::Message(_call) => {}
            MpiCall::Completion(_call) => {}
            MpiCall::Probe(_call) => {}
            MpiCall::Collective(_call) => {}
            MpiCall::Communicator(_call) => {}
        }
    }
}
