//! What is told of a run.
ghost use Rattle.std.specs.Prelude.{◌≡◌, [], IfOk};
ghost use Rattle.std.specs.List.{slice_index_or};
ghost use Rattle.run_states.specs.Outcomes.{reported_ending, reported_ranks};
ghost use Rattle.explore.specs.Courses.{reported_outcome};

use crate::found::Outcome;
use mpi_call::call::Halt;
use mpi_call::lists::Ranks;
use run_model::ending::Ending;
use run_model::lists::{Outputs, all_ranks};
use std::alloc::{AllocError, Global};
use wiz_base::bytes::Bytes;

/// The ending as it is told.
fn ending_told(ending: Ending) -> Ending
    ensures { result ≡ reported_ending ending }
{
    match ending {
        Ending::Halted(Halt::Mismatched { .. }) => { Ending::Halted(Halt::Mismatched { rank: 0 }) }
        _ => ending,
    }
}

/// The ranks that tell of a run with this ending.
fn ranks_told(alloc: Global, n: u8, ending: Ending) -> Result<Ranks, AllocError>
    ensures { IfOk result (λ ranks. ranks ≡ reported_ranks n ending) }
{
    let mut ranks = Ranks::new(alloc);
    match ending {
        Ending::Finished | Ending::Halted(Halt::Stuck) => return all_ranks(alloc, n),
        Ending::Halted(Halt::Aborted { rank, .. })
        | Ending::Halted(Halt::Trapped { rank, .. })
        | Ending::Halted(Halt::Truncated { rank, .. })
        | Ending::Halted(Halt::BadRequest { rank, .. }) => ranks.push(rank)?,
        _ => {}
    }
    Ok(ranks)
}

/// A copy of what a rank printed; of a rank that is not there, nothing.
fn printed_by(alloc: Global, outputs: &Outputs, rank: u8) -> Result<Bytes, AllocError>
    ensures { IfOk result (λ printed. printed ≡ slice_index_or outputs.now rank []) }
{
    match outputs.as_slice().get(rank as usize) {
        Some(printed) => Bytes::copy_of(printed),
        None => Ok(Bytes::new(alloc)),
    }
}

/// What is told of a run with this ending, by what each rank printed.
pub fn told(alloc: Global, n: u8, ending: Ending, outputs: &Outputs) -> Result<Outcome, AllocError>
    ensures { IfOk result (λ outcome. outcome ≡ reported_outcome n ending outputs.now) }
{
    let ranks = ranks_told(alloc, n, ending)?;
    let mut outcome = Outcome::new(alloc, ending_told(ending));
    let mut rest = ranks.as_slice();
    while let [rank, after @ ..] = rest {
        let printed = printed_by(alloc, outputs, *rank)?;
        outcome.push(*rank, printed)?;
        rest = after;
    }
    Ok(outcome)
}
