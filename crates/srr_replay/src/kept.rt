//! The calls that ranks wait with, kept so that their runs are not asked again.
ghost use Rattle.std.specs.Prelude.{◌≡◌, IfOk, None, OnOk, replicate, true};
ghost use Rattle.srr_replay.specs.inside.Kept.{IsKeptCall};

use mpi_call::call::Call;
use run_model::program::{Program, RankRun, Want};
use std::alloc::{AllocError, Global};

/// No call of so many runs.
pub fn no_calls(alloc: Global, runs: usize) -> Result<Vec<Option<Call>>, AllocError>
    ensures { IfOk result (λ kept. kept.items ≡ replicate runs None) }
{
    let mut kept = Vec::new(alloc);
    for _run in 0..runs {
        kept.push(None)?;
    }
    Ok(kept)
}

/// A run's next call, if it has not ended: the one kept, or else what the run is asked for. It is kept no longer.
pub fn next_call<P: Program, R: RankRun<Of = P>>(
    run: &mut R,
    kept: &mut Option<Call>,
) -> Result<Option<Call>, AllocError>
    requires { IsKeptCall P.next (R.standing run.old) kept.old }
    ensures kept { kept.new ≡ None }
    ensures run { OnOk result (R.standing run.new ≡ record (R.standing run.old) { asked = true }) }
    ensures call { IfOk result (λ call. call ≡ P.next (R.standing run.old).program (R.standing run.old).ranks (R.standing run.old).rank (R.standing run.old).replies) }
{
    if let Some(call) = kept.take() {
        return Ok(Some(call));
    }
    match run.want()? {
        Want::Ended => Ok(None),
        Want::Ask(call) => Ok(Some(call)),
    }
}
