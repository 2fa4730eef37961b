//! `demo SEED ROUNDS`: a program of sixteen ranks is checked on one thread.
ghost use Rattle.std.specs.Prelude.{◌≡◌, false};
ghost use Rattle.wiz_task.specs.inside.Ends.{EndsTask};
ghost use Rattle.wiz_tool.specs.Environment.{around};
ghost use Rattle.wiz_runs.specs.Runs.{demo_task};

use crate::commands::check::run_and_replay;
use crate::recording::ready::accept_run;
use std::alloc::Global;
use wiz_io::{Sink, Store};
use wiz_task::runner::Runner;
use wiz_tool::failure::Failure;
use wiz_tool::report::{Report, tell};
use wiz_trace::demo::{demo_program, demo_text};

/// Four groups of four ranks.
const PLAN: &[u8] = b"0-3\n4-7\n8-11\n12-15\n";

/// Records the demo program with this seed and so many rounds, and replays each group.
pub fn demo<'a, S: Store, K: Sink, R: Runner>(
    alloc: Global,
    seed: u32,
    rounds: u32,
    store: &mut S,
    out: &mut K,
    runner: &R,
) -> Result<Report, Failure<'a>>
    requires threads { R.is_threaded ≡ false }
    requires runs { R.runs runner.now }
    ensures { EndsTask (demo_task seed rounds) (around S.observed K.observed store out) result }
{
    let text = demo_program(alloc, seed, rounds)?;
    let ready = accept_run(alloc, text, PLAN, &None)?;
    let checked = run_and_replay(alloc, &ready, runner)?;
    let text = demo_text(
        alloc,
        seed,
        rounds,
        &checked.recording.history,
        &ready.plan,
        &checked.replays,
        &checked.recording.ending,
    )?;
    let report = tell(checked.told_by(text), out)?;
    Ok(report)
}
