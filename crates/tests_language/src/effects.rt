//! A send of rank 1 of 3, with one array of eight ints.
use crate::states::with_array;
use c_program::effect::{Effect, Message, Rank, Start};
use c_program::expr::{Reference, TypedExpr};
use c_program::mpi::{Buffer, MessageCall, MpiCall, Outgoing};
use c_run_cells::state::RankState;
use c_run_effects::effects::effect_of;
use mpi_call::call::Fault;
use std::process::Abort;
use std::rt::HostRuntime;
use std::test::Fail;
use wiz_base::Bytes;

const RANK: Rank = Rank {
    ranks: 3,
    number: 1,
};

/// A send of five ints to rank 2 with tag 7.
fn send(comm: i32) -> MpiCall {
    let buffer = Buffer {
        cells: Reference::Whole(0),
        count: TypedExpr::Number(5),
    };
    let message = Outgoing {
        buffer,
        dest: TypedExpr::Number(2),
        tag: TypedExpr::Number(7),
    };
    MpiCall::Message(MessageCall::Send {
        message,
        comm: TypedExpr::Number(comm),
    })
}

/// The message of a send that starts without a handle.
fn started(effect: Result<Effect, Fault>) -> Option<Message> {
    match effect {
        Ok(
            Effect::Starts {
                start: Start::Send(message),
                request: None,
            },
        ) => Some(message),
        _ => None,
    }
}

fn check_send(rt: &impl Abort, state: &RankState) {
    match started(effect_of(RANK, &send(0), state)) {
        Some(message) => {
            assert_eq!(rt; (message.comm, message.dest, message.tag), (0, 2, 7));
            assert!(rt; message.ints.length() == 5 && !message.sync);
        }
        None => assert!(rt; false, "MPI_Send"),
    }
    assert!(rt; matches!(effect_of(RANK, &send(3), state), Err(Fault::BadComm)));
}

#[test]
fn a_send_is_to_a_member_of_a_communicator(rt: HostRuntime) -> Result<(), Fail> {
    let name = Bytes::from_slice(rt.alloc(), b"a")?;
    let state = with_array(rt.alloc(), &name, 8)?;
    check_send(&rt, &state);
    Ok(())
}
