//! Effects over replies.
use crate::states::with_array;
use c_eval::outcome::{Replies, Stop};
use c_eval::perform::perform;
use c_program::effect::{Effect, Message, Rank, Start};
use c_program::range::Range;
use c_run_cells::state::RankState;
use mpi_call::call::Call;
use mpi_call::lists::Ints;
use mpi_call::reply::Reply;
use std::alloc::Global;
use std::process::Abort;
use std::test::Fail;
use wiz_base::Bytes;

const RANK: Rank = Rank {
    ranks: 3,
    number: 0,
};

/// A send of two ints from cell 1 on, to rank 1 with tag 5; the handle is in cell 0.
fn send() -> Effect {
    let message = Message {
        comm: 0,
        dest: 1,
        tag: 5,
        ints: Range::new(1, 2, 1),
        sync: false,
    };
    Effect::Starts {
        start: Start::Send(message),
        request: Some(0),
    }
}

/// The effect over these replies.
fn performed(alloc: Global, state: &mut RankState, given: &[Reply]) -> Result<(), Stop> {
    perform(alloc, RANK, send(), state, &mut Replies::of(given))
}

/// Whether it waits with these ints.
fn waits_with(outcome: &Result<(), Stop>, wanted: &Ints) -> bool {
    match outcome {
        Err(Stop::Waits(Call::Send { ints, .. })) => ints == wanted,
        _ => false,
    }
}

fn check_send(rt: &(impl Abort + AllocGlobal), state: &mut RankState) -> Result<(), Fail> {
    state.put(1, 7);
    let outcome = performed(rt.alloc(), state, &[]);
    assert!(rt; waits_with(&outcome, &Ints::from_slice(rt.alloc(), &[7, 0])?));
    assert_eq!(rt; state.start_count(), 0);
    assert!(rt; performed(rt.alloc(), state, &[Reply::Done]).is_ok());
    assert_eq!(rt; state.start_count(), 1);
    Ok(())
}

#[test]
fn a_send_waits_with_its_ints_and_is_a_start(rt: HostRuntime) -> Result<(), Fail> {
    let name = Bytes::from_slice(rt.alloc(), b"x")?;
    let mut state = with_array(rt.alloc(), &name, 3)?;
    check_send(&rt, &mut state)
}
