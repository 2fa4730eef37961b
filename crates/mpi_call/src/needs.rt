//! Which members a collective's result needs, and which Enters agree.
ghost use Rattle.std.specs.Prelude.{◌≡◌, IsTrue};
ghost use Rattle.mpi_call.specs.Calls.{is_enter};
ghost use Rattle.mpi_call.specs.Needs.{agree, colour_in, is_root, needs};

use crate::call::{Call, Kind};
use crate::lists::{Ints, Ranks};
use crate::members::place_of;

/// `MPI_UNDEFINED`: a member of a Split that enters this colour gets no communicator.
pub const UNDEFINED: i32 = -32766;

/// The colour that a member of a Split entered. Takes no memory.
pub fn colour_in(ints: &Ints) -> i32
    ensures { result ≡ colour_in ints.now }
{
    match ints.as_slice() {
        [] => UNDEFINED,
        [colour, ..] => *colour,
    }
}

/// Whether a rank is the root. Takes no memory.
pub fn is_root(root: &Option<u8>, rank: u8) -> bool
    ensures { result ≡ is_root root.now rank }
{
    match root {
        None => false,
        Some(root) => *root == rank,
    }
}

/// Whether the result of `me` needs what `who` entered, of whatever Enter and members; `enter` is the Enter of `me`. Takes no memory.
pub fn needs(enter: &Call, members: &Ranks, me: u8, who: u8) -> bool
    ensures { result ≡ needs enter.now members.now me who }
{
    let Call::Enter {
        comm: _,
        kind,
        root,
        op: _,
        count: _,
        ints,
    } = enter
    else {
        return false;
    };
    match kind {
        Kind::Barrier | Kind::Allreduce | Kind::Allgather | Kind::Alltoall | Kind::Dup => true,
        Kind::Bcast | Kind::Scatter => is_root(root, who) || who == me,
        Kind::Reduce | Kind::Gather => is_root(root, me) || who == me,
        Kind::Scan => place_of(members.as_slice(), who) <= place_of(members.as_slice(), me),
        Kind::Split => colour_in(ints) != UNDEFINED || who == me,
    }
}

/// Whether two Enters have the same kind, root, operation and count. Takes no memory.
pub fn agree(a: &Call, b: &Call) -> bool
    requires first { IsTrue (is_enter a.now) }
    requires second { IsTrue (is_enter b.now) }
    ensures { result ≡ agree a.now b.now }
{
    let (
        Call::Enter {
            kind,
            root,
            op,
            count,
            ..
        },
        Call::Enter {
            kind: other_kind,
            root: other_root,
            op: other_op,
            count: other_count,
            ..
        },
    ) = (a, b)
    else {
        return false;
    };
    kind == other_kind && root == other_root && op == other_op && count == other_count
}
