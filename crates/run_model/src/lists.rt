//! Lists of what ranks saw, printed and hold.
ghost use Rattle.std.specs.Prelude.{◌≡◌, IfOk};
ghost use Rattle.run_model.specs.Lists.{world};

use listed::Listed;
use mpi_call::call::Call;
use mpi_call::lists::{Ints, Ranks};
use mpi_call::reply::Reply;
use std::alloc::{AllocError, Global};
use wiz_base::bytes::Bytes;

/// All ranks below a number, rising.
pub fn all_ranks(alloc: Global, ranks: u8) -> Result<Ranks, AllocError>
    ensures { IfOk result (λ all. all ≡ world ranks 0) }
{
    let mut all = Ranks::new(alloc);
    for rank in 0..ranks {
        all.push(rank)?;
    }
    Ok(all)
}

/// What a rank has seen: its calls, each with its reply; contracts see the list of these pairs.
pub type View = Listed<(Call, Reply)>;

/// What some ranks printed, one after the other, as contracts see it too.
pub type Outputs = Listed<Bytes>;

/// A variable that stands at a breakpoint.
#[derive(Drop)]
pub struct Variable {
    /// How deep its function was called; 0 is `main`.
    pub depth: u32,
    pub name: Bytes,
    /// An int, the ints of an array, a status's source, tag and count, a request's start number or -1, or a
    /// communicator's number or -1.
    pub values: Ints,
}

/// The variables of a rank, frames from `main` inward, declarations in order; contracts see a list.
pub type Variables = Listed<Variable>;
