//! The board on a worked example.
use collectives::board::Board;
use collectives::instances::Entered;
use mpi_call::call::{Call, Kind};
use mpi_call::lists::{Ints, Ranks};
use std::process::Abort;
use std::rt::HostRuntime;
use std::test::Fail;

/// A rank enters a barrier, or a broadcast of one int by rank 0, on the world, and is answered this.
fn check_enter(
    rt: &(impl Abort + AllocGlobal),
    board: &mut Board,
    rank: u8,
    kind: Kind,
    want: Entered,
) -> Result<(), Fail> {
    assert!(rt; board.enters_on(0, rank) < 4000000000);
    let (root, count) = match kind {
        Kind::Bcast => (Some(0), 1),
        _ => (None, 0),
    };
    let call = Call::Enter {
        comm: 0,
        kind,
        root,
        op: None,
        count,
        ints: Ints::new(rt.alloc()),
    };
    assert_eq!(rt; board.enter(rank, &call)?, want);
    Ok(())
}

/// The board has no ints of rank 1 for the world's first collective.
fn check_inputs(rt: &(impl Abort + AllocGlobal), board: &Board) -> Result<(), Fail> {
    let members = Ranks::from_slice(rt.alloc(), &[0, 1])?;
    let inputs = board.inputs(0, 0, &members)?;
    assert_eq!(rt; inputs.as_slice().len(), 2);
    assert_eq!(rt; inputs.as_slice()[1].as_slice(), [].as_slice());
    Ok(())
}

#[test]
fn a_broadcast_disagrees_with_a_barrier(rt: HostRuntime) -> Result<(), Fail> {
    let mut board = Board::new(rt.alloc());
    check_enter(
        &rt,
        &mut board,
        0,
        Kind::Barrier,
        Entered::Joined { instance: 0 },
    )?;
    check_enter(
        &rt,
        &mut board,
        1,
        Kind::Bcast,
        Entered::Disagrees { other: 0 },
    )?;
    assert!(rt; board.entered(0, 0, 0));
    assert!(rt; !board.entered(0, 0, 1));
    check_inputs(&rt, &board)?;

    // Without the barrier the broadcast is the first of the instance.
    assert!(rt; board.enters_on(0, 0) > 0);
    board.leave(0, 0);
    check_enter(
        &rt,
        &mut board,
        1,
        Kind::Bcast,
        Entered::Joined { instance: 0 },
    )
}
