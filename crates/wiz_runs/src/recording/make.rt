//! The recording of what is run.
ghost use Rattle.std.specs.Prelude.{IfOk, false, true};
ghost use Rattle.c_program.specs.View.{pure_program};
ghost use Rattle.c_program.specs.Program.{next_of, output_of};
ghost use Rattle.group_plan.specs.Plans.{number_of_ranks};
ghost use Rattle.srr_record.specs.Recordings.{IsRecorded, IsRecording, recording_with};
ghost use Rattle.wiz_task.specs.Recordings.{IsInTurns};
ghost use Rattle.wiz_task.specs.inside.Recording.{CanRun, IsMadeRecording};

use log_bounds::ints32::replies_fit;
use log_bounds::laws::{run_log_bytes_are_short, run_logs_are_in_bounds};
use picked_runs::laws::{every_run_is_picked, picks_are_turns, picks_fix_run, turns_fix_run};
use rank_threads::{Gate, record_threads};
use srr_record::{Recording, record_serial};
use std::alloc::{AllocError, Global};
use std::sync::Wait;
use std::thread::Threads;
use wiz_task::ranks::start_all;
use wiz_task::ready::Ready;

/// The recording on one thread: the turns, and then rounds over the ranks.
pub fn record_in_turns(alloc: Global, ready: &Ready) -> Result<Recording, AllocError>
    requires { CanRun ready.now }
    ensures { IfOk result (IsMadeRecording false ready.now) }
{
    let runs = start_all(alloc, &ready.program, ready.plan.n())?;
    let recording = record_serial(
        alloc,
        &ready.program,
        ready.text.as_slice(),
        &ready.plan,
        runs,
        ready.turns.as_slice(),
    )?;
    is_in_turns(ready, &recording);
    logs_can_be_read(ready, &recording);
    Ok(recording)
}

/// The recording with a thread for each rank.
pub fn record_on_threads<R: Threads + Wait + Sync, G: Gate + Sync>(
    rt: &R,
    alloc: Global,
    ready: &Ready,
    gate: &G,
) -> Result<Recording, AllocError>
    requires { CanRun ready.now }
    ensures { IfOk result (IsMadeRecording true ready.now) }
{
    let runs = start_all(alloc, &ready.program, ready.plan.n())?;
    let recording = record_threads(
        rt,
        alloc,
        &ready.program,
        ready.text.as_slice(),
        &ready.plan,
        runs,
        gate,
    )?;
    logs_can_be_read(ready, &recording);
    Ok(recording)
}

/// The recorded run is that of the turns: what follows of it by the laws of picked runs. The body calls them.
fn is_in_turns(ready: &Ready, recording: &Recording)
    requires { IsRecording (next_of (pure_program ready.now.program)) (output_of (pure_program ready.now.program)) (number_of_ranks ready.now.plan) (recording_with ready.now.text ready.now.plan ready.now.turns) recording.now }
    ensures { IsInTurns (next_of (pure_program ready.now.program)) (number_of_ranks ready.now.plan) ready.now.turns recording.now.history.events }
{
    every_run_is_picked(&ready.program, ready.plan.n());
    turns_fix_run(&ready.program, ready.plan.n());
}

/// Each log of a recording has a text that a log file may have, and can be read back; so can its order.
fn logs_can_be_read(ready: &Ready, recording: &Recording)
    requires ready { CanRun ready.now }
    requires recorded { IsRecorded (next_of (pure_program ready.now.program)) (output_of (pure_program ready.now.program)) (number_of_ranks ready.now.plan) ready.now.text ready.now.plan recording.now }
    ensures threads { IsMadeRecording true ready.now recording.now }
    ensures serial { IsInTurns (next_of (pure_program ready.now.program)) (number_of_ranks ready.now.plan) ready.now.turns recording.now.history.events → IsMadeRecording false ready.now recording.now }
{
    // Laws: the ints of the replies have 32 bits, and so the logs of the run are within the bounds of logs, and their texts are short. What
    // each event picked can be written down as a turn, and fixes the run with its order.
    replies_fit(recording.history.as_slice());
    run_logs_are_in_bounds(&ready.program, ready.plan.n());
    run_log_bytes_are_short(&ready.program, ready.plan.n());
    picks_are_turns(&ready.program, ready.plan.n());
    picks_fix_run(&ready.program, ready.plan.n());
}
