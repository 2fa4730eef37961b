//! A rank that is given the replies that it got in a replay, once more.
ghost use Rattle.std.specs.Prelude.{◌≡◌, ◌++◌, ◌∷◌, [], OnOk, false, map};
ghost use Rattle.replay_views.specs.inside.Got.{HasGot};
ghost use Rattle.run_model.specs.Program.{IsViewOf, MayGive};

use run_model::event::Event;
use run_model::program::{Program, RankRun};
use std::alloc::AllocError;

/// Gives a rank, which is before its first call, all replies of what it has seen.
pub(crate) fn catch_up<P: Program, R: RankRun<Of = P>>(
    run: &mut R,
    own: &[&Event],
) -> Result<(), AllocError>
    requires fresh { (R.standing run.old).replies ≡ [] }
    requires came { IsViewOf (P.next (R.standing run.old).program) (R.standing run.old).ranks (R.standing run.old).rank (map (λ event. (event.now.call, event.now.reply)) own.now) }
    ensures { OnOk result (HasGot (R.standing run.old).program (R.standing run.old).ranks (R.standing run.old).rank (map (λ event. (event.now.call, event.now.reply)) own.now) (R.standing run.new)) }
{
    let mut rest = own;
    while let [event, after @ ..] = rest {
        answer(run, *event)?;
        rest = after;
    }
    Ok(())
}

/// Gives a rank the reply to its next call.
fn answer<P: Program, R: RankRun<Of = P>>(run: &mut R, event: &Event) -> Result<(), AllocError>
    requires { MayGive (P.next (R.standing run.old).program) (R.standing run.old).ranks (R.standing run.old).rank (R.standing run.old).replies event.now.reply }
    ensures { OnOk result (R.standing run.new ≡ record (R.standing run.old) { replies = (R.standing run.old).replies ++ event.now.reply ∷ []; asked = false }) }
{
    run.want()?;
    run.give(&event.reply)
}
